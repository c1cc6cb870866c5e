//! Laws of observations. A law is a function without a body whose contract is the law.
ghost use Rattle.std.specs.Prelude.{◌≡◌, ◌<◌, ◌^◌, IfOk, IsOk, List, Ok, Some, length, ℕ};
ghost use Rattle.std.specs.FinMap as map;
ghost use Rattle.casebook_record.specs.Fields.{fields_of};
ghost use Rattle.casebook_record.specs.Records.{record_of};
ghost use Rattle.casebook_spool.specs.Valid.{AreBytes};
ghost use Rattle.casebook_observe.specs.Files.{SpoolFiles};
ghost use Rattle.casebook_observe.specs.Followed.{IsBegun, IsFollowed, IsListedAgain, IsLookOf};
ghost use Rattle.casebook_observe.specs.Followed.{IsNew, IsRecordWith, sights_left};
ghost use Rattle.casebook_observe.specs.Last.{last_look};
ghost use Rattle.casebook_observe.specs.Notes.{notes_between};
ghost use Rattle.casebook_observe.specs.Observed.{IsTaken};
ghost use Rattle.casebook_observe.specs.Worlds.{World};
ghost use Rattle.casebook_observe.specs.Writable.{ArePaths, AreSights, IsWritable};
ghost use Rattle.casebook_observe.specs.declared.last_look.LastLook.{LastLook};

/// States that the last look after a record was taken is the look that was taken: the sights that
/// it found, with the times of reading that it left itself, and all of the file `lines` is whole.
/// That is so whether the listing was written again or not. The paths that such a look leaves are
/// ones that can be written again.
pub fn last_look_is_the_one_taken()
    ensures taken { (world : World) (sent : List ℕ) (files now : SpoolFiles) → AreBytes sent
        → IsOk (record_of sent) → IfOk (last_look files) (λ last. ArePaths last.sights)
        → IsWritable world → length now.lines < 2 ^ 64
        → length (map.entries (sights_left world)) < 2 ^ 64
        → IsTaken (last_look files) world (fields_of sent) files (Some now)
        → IsLookOf world now }
    ensures paths { (world : World) → IsWritable world → ArePaths (sights_left world) }
{}

/// States that the last look after an observation is the look that was taken, and that a listing
/// which is written again doesn't change the sights of the last look, nor what is whole.
#[tactic(auto, using(crate::proofs::Looks::is_followed, crate::proofs::Relisted::is_relisted))]
pub fn spool_says_the_last_look()
    ensures observed { (last : LastLook) (world : World) (sent : List ℕ)
        (fields : List (List ℕ)) (files : SpoolFiles) → last_look files ≡ Ok last
        → ArePaths last.sights → IsWritable world → IsRecordWith fields sent
        → IsFollowed last world fields files }
    ensures listed { (last : LastLook) (files : SpoolFiles) → last_look files ≡ Ok last
        → AreSights last.sights → last.whole < 2 ^ 64
        → length (map.entries last.sights) < 2 ^ 64
        → IsListedAgain last files }
{}

/// States that the last look of a new spool is the look that was taken.
#[tactic(auto, using(crate::proofs::Looks::is_begun))]
pub fn first_look_is_the_one_taken()
    ensures { (world : World) (files : SpoolFiles) → IsNew files → IsWritable world
        → length (notes_between map.empty world) < 2 ^ 64
        → IsBegun world files }
{}
