//! Trials of texts.
ghost use Rattle.std.specs.Prelude.{◌≡◌, ◌++◌, ◌∷◌, [], ℕ, IfOk, IsTrue, OnOk, map};
ghost use Rattle.std.specs.FinMap as finmap;
ghost use Rattle.retro_tree.specs.Commit.{committed};
ghost use Rattle.retro_tree.specs.Lawful.{IsLawful};
ghost use Rattle.retro_tree.specs.Notes.{after};
ghost use Rattle.retro_tree.specs.Overlay.{Fits};
ghost use Rattle.retro_tree.specs.declared.state.State.{State as StateValue};
ghost use Rattle.casebook_stand_in.specs.Texts.{text_in};
ghost use Rattle.casebook_stand_in.specs.inner.Trials.{IsTrial};

use crate::NoMem;
use crate::over::Over;
use retro_shell::{Note, Notes, Run, run_line};
use retro_tree::{Overlay, State, Text};
use std::alloc::Global;

/// What texts do to a state, which they leave unchanged.
#[derive(Drop)]
pub(crate) struct Trial {
    /// The runs of the texts, one after the other.
    pub(crate) runs: Vec<Run>,
    /// The cells that they change, each with its value after them.
    pub(crate) cells: Overlay,
}

/// Makes the changes of notes in the state that an overlay makes of a state.
fn make_changes(cells: &mut Overlay, notes: &Notes) -> Result<(), NoMem>
    requires { Fits cells.old }
    ensures fits { OnOk result (Fits cells.new) }
    ensures after { OnOk result ((s : StateValue)
        → committed cells.new s ≡ after notes.now (committed cells.old s)) }
{
    for note in notes.as_slice() {
        if let Note::Made(change) = note {
            cells.apply(change.copy()?)?;
        }
    }
    Ok(())
}

impl Trial {
    /// Returns the trial of no texts. Takes no memory.
    fn new(alloc: Global) -> Trial
        ensures trial { (sid : ℕ) (s : StateValue) → IsLawful s
            → IsTrial sid s result.runs.items result.cells }
        ensures runs { result.runs.items ≡ [] }
    {
        let runs = Vec::new(alloc);
        let cells = Overlay::new(alloc);
        Trial { runs, cells }
    }

    /// Runs one more text of a session.
    fn run(&mut self, alloc: Global, state: &State, sid: u32, text: &Text) -> Result<(), NoMem>
        requires session { IsTrue (finmap.contains_key state.now.sessions sid) }
        requires trial { IsTrial sid state.now self.old.runs.items self.old.cells }
        ensures trial { OnOk result (IsTrial sid state.now self.new.runs.items self.new.cells) }
        ensures text { OnOk result (map text_in self.new.runs.items
            ≡ map text_in self.old.runs.items ++ text.now ∷ []) }
    {
        let view = Over::new(state, &self.cells);
        let ran = run_line(alloc, &view, sid, text.as_str())?;
        let notes = ran.notes();
        make_changes(&mut self.cells, notes)?;
        self.runs.push(ran)?;
        Ok(())
    }
}

/// Runs texts of a session, one after the other, over a state.
pub(crate) fn try_texts(
    alloc: Global,
    state: &State,
    sid: u32,
    texts: &[Text],
) -> Result<Trial, NoMem>
    requires lawful { IsLawful state.now }
    requires session { IsTrue (finmap.contains_key state.now.sessions sid) }
    ensures trial { IfOk result (λ trial. IsTrial sid state.now trial.runs.items trial.cells) }
    ensures texts { IfOk result (λ trial. map text_in trial.runs.items ≡ texts.now) }
{
    let mut trial = Trial::new(alloc);
    for text in texts {
        trial.run(alloc, state, sid, text)?;
    }
    Ok(trial)
}
