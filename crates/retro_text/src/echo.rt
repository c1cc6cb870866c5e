//! `echo` (XCU echo).
ghost use Rattle.std.specs.Prelude.{◌≡◌, ◌++◌, ◌∷◌, IfOk, OnOk, map, string_bytes};
ghost use Rattle.std.specs.List.{join_with_byte};
ghost use Rattle.retro_text.specs.Ascii.{space};
ghost use Rattle.retro_text.specs.Output.{echo_text, spaced};

use retro_path::{Bytes, NoMem};
use std::alloc::Global;

/// Appends the operands, each after a space.
fn push_spaced(text: &mut Bytes, operands: &[String]) -> Result<(), NoMem>
    ensures { OnOk result (text.new ≡ text.old ++ spaced (map string_bytes operands.now)) }
{
    for operand in operands {
        text.extend(b" ")?;
        text.extend(operand.as_bytes())?;
    }
    Ok(())
}

/// Appends the operands, with a space between each two.
#[tactic(auto, using(crate::proofs::Joining::text_joins))]
fn push_joined(text: &mut Bytes, operands: &[String]) -> Result<(), NoMem>
    ensures { OnOk result (text.new
        ≡ text.old ++ join_with_byte space (map string_bytes operands.now)) }
{
    if let [first, rest @ ..] = operands {
        text.extend(first.as_bytes())?;
        push_spaced(text, rest)?;
    }
    Ok(())
}

/// Returns what `echo` prints: the operands, with a space between each two, and a newline. A first
/// operand `-n` omits the newline.
pub fn echo_text(alloc: Global, operands: &[String]) -> Result<Bytes, NoMem>
    ensures { IfOk result (λ text. text ≡ echo_text (map string_bytes operands.now)) }
{
    let mut text = Bytes::new(alloc);
    match operands {
        [option, rest @ ..] if option.as_str() == "-n" => push_joined(&mut text, rest)?,
        _ => {
            push_joined(&mut text, operands)?;
            text.extend(b"\n")?;
        }
    }
    Ok(text)
}
