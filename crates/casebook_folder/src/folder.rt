//! Folders.
ghost use Rattle.std.specs.Prelude.{◌≡◌, ◌≢◌, ◌↔◌, ◌⊎◌, [], ◌∷◌, ◌++◌, IfErr, IfOk, IfSome, IsTrue};
ghost use Rattle.std.specs.Prelude.{List};
ghost use Rattle.std.specs.Prelude.{OnErr, OnOk, Option, false};
ghost use Rattle.casebook_folder.specs.Errors.{is_of_look, is_of_step};
ghost use Rattle.casebook_folder.specs.Found.{found_eq};
ghost use Rattle.casebook_folder.specs.Parts.{OtherPartsStay, Parts};
ghost use Rattle.casebook_folder.specs.Steps.{Contents, HasOtherChild, Step, after_steps, step};
ghost use Rattle.casebook_folder.specs.declared.folder_error.FolderError.TheVariants as errors;

use crate::folder_error::FolderError;
use crate::found::Found;
use retro_path::{Listing, Path};

/// A folder, and the steps that were made in it.
pub trait Folder {
    // What it held at first, or `None` where nothing is said of that.
    ghost first: { Self → Option Contents };

    // The steps made since, in order. At each moment the folder is what a prefix of them makes.
    ghost made: { Self → List Step };

    // Beside which paths a stopped step left a part of a new node. Where nothing is said of `first`,
    // nothing is said of that.
    ghost parts: { Self → Parts };

    /// Returns what is at a path, without following links.
    fn look(&self, path: &Path) -> Result<Found, FolderError>
        ensures ok { IfSome (first self.now) (λ first. IfOk result (λ found.
            found ≡ after_steps (made self.now) first path.now)) }
        ensures errors { IfErr result (λ error. IsTrue (is_of_look error)) };

    /// Returns whether a directory has a child whose name isn't among some names.
    fn has_other_child(&self, path: &Path, names: &Listing) -> Result<bool, FolderError>
        ensures ok { IfSome (first self.now) (λ first. IfOk result (λ other.
            IsTrue other ↔ HasOtherChild (after_steps (made self.now) first) path.now names.now)) }
        ensures errors { IfErr result (λ error. IsTrue (is_of_look error)) };

    /// Puts a node at a path, at once, if the path holds `before`.
    ///
    /// # Errors
    ///
    /// `Changed` if the path holds something else. The step isn't made. If another error is
    /// returned, the step may have been made.
    fn put(&mut self, path: &Path, before: &Found, after: &Found) -> Result<(), FolderError>
        ensures same { first self.new ≡ first self.old }
        ensures ok { OnOk result
            (made self.new ≡ made self.old ++ step path.now before.now after.now ∷ []) }
        ensures err { OnErr result ((made self.new ≡ made self.old)
            ⊎ (made self.new ≡ made self.old ++ step path.now before.now after.now ∷ [])) }
        ensures looked { IfSome (first self.old) (λ first.
            after_steps (made self.old) first path.now ≢ before.now
            → made self.new ≡ made self.old) }
        ensures errors { IfErr result (λ error. IsTrue (is_of_step error)) }
        ensures changed { result ≡ Err errors.Changed → made self.new ≡ made self.old }
        ensures changed_only { IfSome (first self.old) (λ first. result ≡ Err errors.Changed
            → found_eq (after_steps (made self.old) first path.now) before.now ≡ false) }
        ensures other_parts { IfSome (first self.old) (λ first.
            OtherPartsStay path.now (parts self.old) (parts self.new)) }
        ensures no_part { OnOk result (IfSome (first self.old) (λ first.
            parts self.new path.now ≡ false)) };

    /// Removes the part of a new node that a stopped step may have left beside a path. What is at
    /// paths stays.
    fn clear(&mut self, path: &Path) -> Result<(), FolderError>
        ensures same { first self.new ≡ first self.old }
        ensures made { made self.new ≡ made self.old }
        ensures errors { IfErr result (λ error. IsTrue (is_of_look error)) }
        ensures other_parts { IfSome (first self.old) (λ first.
            OtherPartsStay path.now (parts self.old) (parts self.new)) }
        ensures no_part { OnOk result (IfSome (first self.old) (λ first.
            parts self.new path.now ≡ false)) };
}
