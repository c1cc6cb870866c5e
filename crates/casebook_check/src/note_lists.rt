//! The first difference of two lists of notes.
ghost use Rattle.std.specs.Prelude.{◌≡◌, MatchOption};
ghost use Rattle.casebook_check.specs.Difference.{IsFirstDifference};

use retro_tree::Note;

/// Returns the index of the first note that two lists don't have alike, or `None` if the lists are
/// the same. One of them may end there.
pub fn first_difference(one: &[Note], two: &[Note]) -> Option<usize>
    ensures { MatchOption result (one.now ≡ two.now) (IsFirstDifference one.now two.now) }
{
    let mut index = 0;
    while index < one.len() && index < two.len() {
        if !one[index].is_same(&two[index]) {
            return Some(index);
        }
        index += 1;
    }
    if index < one.len() {
        return Some(index);
    }
    if index < two.len() {
        return Some(index);
    }
    None
}
