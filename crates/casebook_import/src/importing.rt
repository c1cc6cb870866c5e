//! Makes of a spool the state before its lines, and what each line was seen to do.
ghost use Rattle.std.specs.Prelude.{◌≡◌, ◌≤◌, ◌⊎◌, ◌^◌, Any, IfErr, IfOk, Err, length, map};
ghost use Rattle.std.specs.Prelude.{option_map};
ghost use Rattle.casebook_typed.specs.Values.{line_value, session_value};
ghost use Rattle.casebook_import.specs.Effects.{session_number};
ghost use Rattle.casebook_import.specs.First.{first_state};
ghost use Rattle.casebook_import.specs.Lines.{seen_by, seen_from, seen_value, text_or};
ghost use Rattle.casebook_import.specs.declared.import_error.ImportError.TheVariants as errors;

use crate::NoMem;
use crate::effects::line_effect;
use crate::first_state::first_state;
use crate::import_error::ImportError;
use crate::understood::understood_text;
use casebook_explain::SeenLine;
use casebook_spool::{Contents, Listing};
use casebook_typed::{Owner, Typed, TypedLine};
use retro_tree::{Bytes, Path, State};
use std::alloc::Global;

/// No session has this number: numbers of sessions have 32 bits.
const SESSION_LIMIT: usize = 1 << 32;

/// What a recording of a spool is made of.
#[derive(Drop)]
pub struct Imported {
    /// The state before all lines. It needn't be lawful, if the spool isn't one of a machine.
    pub first: State,
    /// The lines, in the order of the spool, each with what it was seen to do.
    pub lines: Vec<SeenLine>,
}

/// Returns the number of a line's session.
fn session_number(owner: &Owner) -> Result<u32, ImportError>
    ensures ok { IfOk result (λ number. number ≡ session_number owner.now) }
    ensures err { IfErr result (λ error.
        error ≡ errors.TooManySessions × 2 ^ 32 ≤ session_number owner.now) }
{
    match owner {
        Owner::Nobody => Ok(0),
        Owner::Line(name) => match u32::try_from(name.session) {
            Ok(number) => Ok(number),
            Err(_) => Err(ImportError::TooManySessions),
        },
    }
}

/// Returns a text, or an empty one if it is hidden.
fn text_or(alloc: Global, text: Option<&Bytes>) -> Result<Bytes, NoMem>
    ensures { IfOk result (λ bytes. bytes ≡ text_or (option_map (λ text. text.now) text.entry)) }
{
    match text {
        Some(text) => text.copy(),
        None => Ok(Bytes::new(alloc)),
    }
}

/// Returns copies of paths.
fn copies(alloc: Global, paths: &[Path]) -> Result<Vec<Path>, NoMem>
    ensures { IfOk result (λ copies. copies.items ≡ paths.now) }
{
    let mut copies = Vec::with_capacity(alloc, paths.len())?;
    for path in paths {
        copies.push(path.copy()?)?;
    }
    Ok(copies)
}

/// Returns what a line was seen to do, over the state before it.
fn seen_line(
    alloc: Global,
    contents: &Contents,
    state: &State,
    line: &TypedLine<'_>,
) -> Result<SeenLine, ImportError>
    ensures ok { IfOk result (λ seen.
        seen_value seen ≡ seen_by contents.now state.now (line_value line.now)) }
    ensures err { IfErr result (λ error. error ≡ errors.NoMem
        ⊎ error ≡ errors.TooManySessions × 2 ^ 32 ≤ session_number line.now.owner) }
{
    let session = session_number(&line.owner)?;
    Ok(SeenLine {
        text: text_or(alloc, line.text)?,
        typed: understood_text(alloc, state, session, line)?,
        read: copies(alloc, line.seen.read.as_slice())?,
        listed: copies(alloc, line.seen.listed.as_slice())?,
        effect: line_effect(alloc, contents, state, session, line)?,
    })
}

/// Returns what lines were seen to do, from a state on.
fn seen_lines(
    alloc: Global,
    contents: &Contents,
    first: &State,
    lines: &[TypedLine<'_>],
) -> Result<Vec<SeenLine>, ImportError>
    ensures ok { IfOk result (λ seen. map seen_value seen.items
        ≡ seen_from contents.now first.now (map line_value lines.now)) }
    ensures many { result ≡ Err errors.TooManySessions
        → Any (λ line. 2 ^ 32 ≤ session_number line.owner) lines.now }
{
    let mut state = first.copy()?;
    let mut seen = Vec::with_capacity(alloc, lines.len())?;
    for line in lines {
        let one = seen_line(alloc, contents, &state, line)?;
        one.effect.make(alloc, &mut state)?;
        seen.push(one)?;
    }
    Ok(seen)
}

/// Returns the state before all lines of a spool, and for each line what it was seen to do.
///
/// `first` is the first look. Bytes that aren't among the contents count as not kept.
///
/// # Errors
///
/// Returns `ImportError::TooManySessions` if 32 bits can't number the sessions.
pub fn import(
    alloc: Global,
    contents: &Contents,
    first: &Listing,
    typed: &Typed<'_>,
) -> Result<Imported, ImportError>
    ensures first { IfOk result (λ imported. imported.first ≡ first_state contents.now
        first.now.said (map session_value typed.now.sessions.items)
        (map line_value typed.now.lines.items)) }
    ensures lines { IfOk result (λ imported. map seen_value imported.lines.items
        ≡ seen_from contents.now imported.first (map line_value typed.now.lines.items)) }
    ensures many { result ≡ Err errors.TooManySessions
        → 2 ^ 32 ≤ length typed.now.sessions.items
        ⊎ Any (λ line. 2 ^ 32 ≤ session_number line.owner) typed.now.lines.items }
{
    let sessions = typed.sessions.as_slice();
    let lines = typed.lines.as_slice();
    if sessions.len() >= SESSION_LIMIT {
        return Err(ImportError::TooManySessions);
    }
    let first = first_state(alloc, contents, first.notes(), sessions, lines)?;
    let lines = seen_lines(alloc, contents, &first, lines)?;
    Ok(Imported { first, lines })
}
