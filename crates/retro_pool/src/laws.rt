//! Laws about settled boards, for the proofs of crates above. A law is a function without a body
//! whose contract is the law.
ghost use Rattle.std.specs.Prelude.{◌<◌, ℕ, List, IsTrue};
ghost use Rattle.retro_keep.specs.Script.{rises_from};
ghost use Rattle.retro_pool.specs.Turns.{IsShared, IsSublist};

/// States that each list of a settled board is in the order of dealing: it is the list of dealt
/// jobs without some of them.
pub fn settled_lists_are_in_the_order_of_dealing()
    ensures { (seats : ℕ) (dealt : List ℕ) (list_of : ℕ → List ℕ)
        → IsShared seats dealt list_of → (seat : ℕ) → seat < seats
        → IsSublist (list_of seat) dealt }
{}

/// States that each list of a settled board rises if the numbers of the jobs were dealt rising.
#[tactic(auto, using(crate::proofs::Ordered::lists_rise))]
pub fn settled_lists_rise()
    ensures { (from seats : ℕ) (dealt : List ℕ) (list_of : ℕ → List ℕ)
        → IsTrue (rises_from from dealt) → IsShared seats dealt list_of
        → (seat : ℕ) → seat < seats → IsTrue (rises_from from (list_of seat)) }
{}
