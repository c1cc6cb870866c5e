//! Tells the lines of a case.
ghost use Rattle.std.specs.Prelude.{◌≡◌, IfErr, IfOk, map};
ghost use Rattle.casebook_typed.specs.Values.{line_value, session_value};
ghost use Rattle.casebook_recording.specs.Told.{IsToldOf, IsUntold, lines_in, sessions_in};
ghost use Rattle.casebook_recording.specs.inner.Imports.{IsImportOf, IsNotImported};

use crate::recording_fault::RecordingFault;
use casebook_case::Case;
use casebook_explain::{Told, tell_lines};
use casebook_import::{Imported, import};
use casebook_typed::{Typed, typed_lines};
use std::alloc::Global;

/// The lines of a case: as it says them, and with the texts that explain them, in the same order.
#[derive(Drop)]
pub struct ToldCase<'a> {
    /// The sessions and the lines that the case says.
    pub typed: Typed<'a>,
    /// The lines with the texts that explain them.
    pub told: Told,
}

/// Returns the state before the lines of a case, and what each of them was seen to do, by its
/// sessions and lines.
fn imported(alloc: Global, case: &Case, typed: &Typed<'_>) -> Result<Imported, RecordingFault>
    requires sessions { map session_value typed.now.sessions.items ≡ sessions_in case.now }
    requires lines { map line_value typed.now.lines.items ≡ lines_in case.now }
    ensures ok { IfOk result (λ imported. IsImportOf case.now imported) }
    ensures err { IfErr result (IsNotImported case.now) }
{
    Ok(import(alloc, &case.contents, &case.first, typed)?)
}

/// Returns the lines of a case, with the texts that explain them.
///
/// # Errors
///
/// Returns the first fault: `Contradiction`, `TooManySessions`, `TooManyLines`, `LawlessState`, or
/// `Line`.
pub fn told_case<'a>(alloc: Global, case: &'a Case) -> Result<ToldCase<'a>, RecordingFault>
    ensures sessions { IfOk result (λ found.
        map session_value found.typed.sessions.items ≡ sessions_in case.entry.now) }
    ensures lines { IfOk result (λ found.
        map line_value found.typed.lines.items ≡ lines_in case.entry.now) }
    ensures ok { IfOk result (λ found. IsToldOf case.entry.now found.told) }
    ensures err { IfErr result (IsUntold case.entry.now) }
{
    let typed = typed_lines(alloc, &case.first, &case.lines)?;
    let Imported { first, lines } = imported(alloc, case, &typed)?;
    let told = tell_lines(alloc, &first, lines)?;
    Ok(ToldCase { typed, told })
}
