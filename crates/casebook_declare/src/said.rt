//! Quoted values.
ghost use Rattle.std.specs.Prelude.{◌≡◌, IfOk, option_and_then, option_map};
ghost use Rattle.casebook_declare.specs.Quoted.{needed, quoted, said_from};
ghost use Rattle.casebook_declare.specs.declared.quoting.Quoting.TheVariants.{Ansi};
ghost use Rattle.casebook_declare.specs.inner.Views.{said_view};

use crate::NoMem;
use crate::quoting::Quoting;
use retro_path::Bytes;
use std::alloc::Global;

/// What a quoted value says.
#[derive(Drop)]
pub(crate) struct Said<'t> {
    /// The value.
    pub value: Bytes,
    /// Whether some byte couldn't be printed as it is.
    pub has_code: bool,
    /// The text after the closing quote.
    pub rest: &'t [u8],
}

/// Returns what a text after an opening quote says, or `None` if bash doesn't print it.
fn said_after<'t>(
    alloc: Global,
    quoting: Quoting,
    text: &'t [u8],
) -> Result<Option<Said<'t>>, NoMem>
    ensures { IfOk result (λ said. option_map said_view said ≡ said_from quoting 0 text.now) }
{
    let mut value = Vec::new(alloc);
    let mut has_code = false;
    let mut rest = text;
    while let [first, after @ ..] = rest {
        if *first == quoting.quote() {
            let value = Bytes::of(value);
            return Ok(Some(Said {
                value,
                has_code,
                rest: after,
            }));
        }
        let Some(unit) = quoting.unit_of(rest) else {
            return Ok(None);
        };
        value.push(unit.byte)?;
        has_code |= unit.is_code;
        rest = &rest[unit.width..];
    }
    Ok(None)
}

/// Returns what a text after `$'` says, or `None` if bash doesn't print it.
fn said_after_dollar<'t>(alloc: Global, text: &'t [u8]) -> Result<Option<Said<'t>>, NoMem>
    ensures { IfOk result (λ said. option_map said_view said
        ≡ option_and_then needed (said_from Ansi 0 text.now)) }
{
    match said_after(alloc, Quoting::Ansi, text)? {
        Some(said) if said.has_code => Ok(Some(said)),
        _ => Ok(None),
    }
}

/// Returns what a text says that begins with a quoted value, or `None` if bash doesn't print it.
#[tactic(auto, unfolding(crate::specs::Quoted::quoted))]
pub(crate) fn quoted<'t>(alloc: Global, text: &'t [u8]) -> Result<Option<Said<'t>>, NoMem>
    ensures { IfOk result (λ said. option_map said_view said ≡ quoted text.now) }
{
    match text {
        [b'"', rest @ ..] => said_after(alloc, Quoting::Double, rest),
        [b'$', b'\'', rest @ ..] => said_after_dollar(alloc, rest),
        _ => Ok(None),
    }
}
