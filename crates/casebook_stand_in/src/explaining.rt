//! Explains lines.
ghost use Rattle.std.specs.Prelude.{◌≡◌, ◌≢◌, ◌↔◌, ◌∷◌, [], IfErr, IfOk, IfSome, IsSome, IsTrue};
ghost use Rattle.std.specs.Prelude.{OnErr, OnOk, map};
ghost use Rattle.std.specs.List.{list_all};
ghost use Rattle.std.specs.Option.{option_copied};
ghost use Rattle.std.specs.FinMap as finmap;
ghost use Rattle.retro_tree.specs.Commit.{committed};
ghost use Rattle.retro_tree.specs.Lawful.{IsLawful};
ghost use Rattle.retro_shell.specs.Line.{HasSameSessions};
ghost use Rattle.casebook_stand_in.specs.Effect.{observed};
ghost use Rattle.casebook_stand_in.specs.Explained.{IsModelled, Models, effect_of_texts};
ghost use Rattle.casebook_stand_in.specs.Lengths.{is_short};
ghost use Rattle.casebook_stand_in.specs.Texts.{Lead, after_texts, text_in};
ghost use Rattle.casebook_stand_in.specs.inner.Same.{NamesUnlike};
ghost use Rattle.casebook_stand_in.specs.inner.Trials.{IsTrial};
ghost use Rattle.casebook_stand_in.specs.declared.explain_error.ExplainError.TheVariants as errors;

use crate::NoMem;
use crate::comparing::first_unlike;
use crate::effect::Effect;
use crate::explain_error::ExplainError;
use crate::explained::Explained;
use crate::stand_in::{CdPlace, stand_in_texts};
use crate::trial::{Trial, try_texts};
use retro_syntax::LONGEST_LINE;
use retro_tree::{State, Text};
use std::alloc::Global;

/// Returns the trial of texts that do what was observed. The error is `Unexplained` if they don't.
fn attempt(
    alloc: Global,
    state: &State,
    texts: &[Text],
    effect: &Effect,
) -> Result<Trial, ExplainError>
    requires lawful { IsLawful state.now }
    requires session { IsTrue (finmap.contains_key state.now.sessions effect.now.sid) }
    ensures trial { IfOk result (λ trial.
        IsTrial effect.now.sid state.now trial.runs.items trial.cells) }
    ensures texts { IfOk result (λ trial. map text_in trial.runs.items ≡ texts.now) }
    ensures observed { IfOk result (λ trial.
        committed trial.cells state.now ≡ observed effect.now state.now) }
    ensures unlike { IfErr result (λ error. NamesUnlike error
        (after_texts effect.now.sid texts.now state.now) (observed effect.now state.now)) }
{
    let trial = try_texts(alloc, state, effect.sid(), texts)?;
    match first_unlike(alloc, state, &trial.cells, effect)? {
        Some(cell) => Err(ExplainError::Unexplained(cell)),
        None => Ok(trial),
    }
}

/// Returns the trial of a typed text that models an effect, or `None` if it doesn't.
fn find_model(
    alloc: Global,
    state: &State,
    text: &str,
    effect: &Effect,
) -> Result<Option<Trial>, NoMem>
    requires lawful { IsLawful state.now }
    requires session { IsTrue (finmap.contains_key state.now.sessions effect.now.sid) }
    ensures exact { IfOk result (λ found. IsSome found ↔ Models text.now effect.now state.now) }
    ensures trial { IfOk result (λ found. IfSome found (λ trial.
        IsTrial effect.now.sid state.now trial.runs.items trial.cells)) }
    ensures texts { IfOk result (λ found. IfSome found (λ trial.
        map text_in trial.runs.items ≡ text.now ∷ [])) }
    ensures observed { IfOk result (λ found. IfSome found (λ trial.
        committed trial.cells state.now ≡ observed effect.now state.now)) }
{
    if text.len() > LONGEST_LINE {
        return Ok(None);
    }
    let typed = Text::of(String::from_str(alloc, text)?);
    match attempt(alloc, state, &[typed], effect) {
        Ok(trial) => Ok(Some(trial)),
        Err(ExplainError::NoMem) => Err(NoMem),
        Err(ExplainError::Unexplained(_)) => Ok(None),
        Err(ExplainError::Unwritten(_)) => unreachable!(),
    }
}

/// Returns the trial of a stand-in for an effect whose status is 0 or 1. The directory is set after
/// files, or before them if the stand-in doesn't do what was observed otherwise: the line may have
/// removed the directory after it went there.
fn find_stand_in(
    alloc: Global,
    state: &State,
    line: u32,
    effect: &Effect,
) -> Result<Trial, ExplainError>
    requires lawful { IsLawful state.now }
    requires session { IsTrue (finmap.contains_key state.now.sessions effect.now.sid) }
    ensures trial { IfOk result (λ trial.
        IsTrial effect.now.sid state.now trial.runs.items trial.cells) }
    ensures short { IfOk result (λ trial.
        IsTrue (list_all is_short (map text_in trial.runs.items))) }
    ensures observed { IfOk result (λ trial.
        committed trial.cells state.now ≡ observed effect.now state.now) }
{
    let last = stand_in_texts(alloc, state, line, effect, CdPlace::Last)?;
    match attempt(alloc, state, last.as_slice(), effect) {
        Ok(trial) => return Ok(trial),
        Err(ExplainError::Unexplained(_)) => (),
        Err(error) => return Err(error),
    }
    let first = stand_in_texts(alloc, state, line, effect, CdPlace::First)?;
    Ok(attempt(alloc, state, first.as_slice(), effect)?)
}

/// Makes the changes of a trial in the state that it is over.
fn accept(
    alloc: Global,
    state: &mut State,
    trial: Trial,
    is_modelled: bool,
) -> Result<Explained, NoMem>
    ensures modelled { IfOk result (λ e. e.is_modelled ≡ is_modelled) }
    ensures runs { IfOk result (λ e. e.runs.items ≡ trial.runs.items) }
    ensures ok { OnOk result (state.new ≡ committed trial.cells state.old) }
    ensures err { OnErr result (state.new ≡ state.old) }
{
    let Trial { runs, cells } = trial;
    cells.commit(alloc, state)?;
    Ok(Explained { is_modelled, runs })
}

/// Explains an effect: changes the state as it says, and returns the texts that do so.
///
/// `typed` is the typed text, if its meaning is known by the text alone. The line is modelled if it
/// does in the state just what was observed. Otherwise stand-ins are tried. These copy from the
/// shelf of line `line`, where the files that [`shelf_of`](crate::shelf_of) returns have to be.
pub fn explain(
    alloc: Global,
    state: &mut State,
    line: u32,
    typed: Option<&str>,
    effect: Effect,
) -> Result<Explained, ExplainError>
    requires lawful { IsLawful state.old }
    requires session { IsTrue (finmap.contains_key state.old.sessions effect.sid) }
    ensures leads { IfOk result (λ e. Lead effect.sid e.runs.items state.old state.new) }
    ensures observed { IfOk result (λ e.
        state.new ≡ observed (effect_of_texts e.is_modelled effect) state.old) }
    ensures modelled { IfOk result (λ e. IsTrue e.is_modelled
        ↔ IsModelled (option_copied typed.entry) effect state.old) }
    ensures typed { IfOk result (λ e. IsTrue e.is_modelled
        → IfSome (option_copied typed.entry) (λ text. map text_in e.runs.items ≡ text ∷ [])) }
    ensures short { IfOk result (λ e. IsTrue (list_all is_short (map text_in e.runs.items))) }
    ensures lawful { OnOk result (IsLawful state.new) }
    ensures sessions { OnOk result (HasSameSessions state.old state.new) }
    ensures unmodelled { IfErr result (λ error. error ≢ errors.NoMem
        → IsModelled (option_copied typed.entry) effect state.old → ⊥) }
    ensures err { OnErr result (state.new ≡ state.old) }
{
    if let Some(text) = typed {
        if let Some(model) = find_model(alloc, &*state, text, &effect)? {
            return Ok(accept(alloc, state, model, true)?);
        }
    }
    let standing = effect.into_standing()?;
    let stand_in = find_stand_in(alloc, &*state, line, &standing)?;
    Ok(accept(alloc, state, stand_in, false)?)
}
