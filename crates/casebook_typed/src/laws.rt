//! Laws of lines. A law is a function without a body whose contract is the law.
ghost use Rattle.std.specs.Prelude.{◌≡◌, List, flat_map};
ghost use Rattle.casebook_watch.specs.Sights.{Sights};
ghost use Rattle.casebook_typed.specs.Lines.{counted_after, lines_after, seen_after};
ghost use Rattle.casebook_typed.specs.Observations.{Observed};

/// States that each change that observations show, and each reading and each listing that counts of
/// what they show, is of exactly one line, in the order of the observations, and that lines have no
/// others. What is only read or listed while no line is active doesn't count.
pub fn what_is_seen_is_of_one_line()
    ensures changes { (first : Sights) (os : List Observed)
        → flat_map (λ line. line.seen.changes) (lines_after first os)
        ≡ flat_map (λ seen. seen.changes) (seen_after first os) }
    ensures read { (first : Sights) (os : List Observed)
        → flat_map (λ line. line.seen.read) (lines_after first os)
        ≡ flat_map (λ seen. seen.read) (counted_after first os) }
    ensures listed { (first : Sights) (os : List Observed)
        → flat_map (λ line. line.seen.listed) (lines_after first os)
        ≡ flat_map (λ seen. seen.listed) (counted_after first os) }
{}
