//! The pieces of a repair.
ghost use Rattle.std.specs.Prelude.{◌≡◌, ◌<◌, ◌^◌, ◌-◌, suc, true};
ghost use Rattle.retro_rounds.specs.Pieces.{first_cut, later_cuts};
ghost use Rattle.retro_rounds.specs.Refusals.{are_cuts};
ghost use Rattle.retro_rounds.specs.inner.Places.{after_lines};

/// Returns whether there is a number, and none is zero.
pub(crate) fn are_cuts(cuts: &[u32]) -> bool
    ensures { result ≡ are_cuts cuts.now }
{
    !cuts.is_empty() && cuts.iter().all(|count| *count != 0)
}

/// The piece that a repair has come to, by numbers of lines that cut a recording into pieces.
#[derive(Drop)]
pub(crate) struct Pieces<'c> {
    /// The index of the first line after the piece.
    pub(crate) end: usize,
    /// The numbers of lines of the pieces after it. The last one is that of all further pieces.
    pub(crate) cuts: &'c [u32],
}

impl Pieces<'_> {
    /// Goes on to the piece that has the line with the given index.
    pub(crate) fn find(&mut self, index: usize)
        requires cuts { are_cuts self.old.cuts.now ≡ true }
        requires index { index < 2 ^ 63 }
        ensures place { after_lines (suc index - self.old.end)
            (record { left = self.old.end - suc index; cuts = self.old.cuts.now })
            ≡ record { left = self.new.end - suc index; cuts = self.new.cuts.now } }
        ensures within { index < self.new.end }
        ensures cuts { are_cuts self.new.cuts.now ≡ true }
    {
        while self.end <= index {
            self.end += first_cut(self.cuts) as usize;
            self.cuts = later_cuts(self.cuts);
        }
    }
}

/// Returns the number of lines of the next piece.
fn first_cut(cuts: &[u32]) -> u32
    requires { are_cuts cuts.now ≡ true }
    ensures first { result ≡ first_cut cuts.now }
    ensures some { 0 < result }
{
    cuts[0]
}

/// Returns the numbers of lines of the pieces after the next one.
fn later_cuts(cuts: &[u32]) -> &[u32]
    ensures cuts { result.now ≡ later_cuts cuts.now }
    ensures are_cuts { are_cuts cuts.now ≡ true → are_cuts result.now ≡ true }
{
    if cuts.len() > 1 { &cuts[1..] } else { cuts }
}
