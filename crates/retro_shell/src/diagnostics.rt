//! Diagnostics of the shell.
ghost use Rattle.std.specs.Prelude.{◌≡◌, ◌++◌, IfOk, OnOk};
ghost use Rattle.retro_shell.specs.Outcomes.{complaint, failure, refusal};

use retro_tree::{Bytes, NoMem};
use retro_utils::{Done, Reason};
use std::alloc::Global;

/// Appends the diagnostic `sh: MESSAGE` and a newline.
#[tactic(auto, unfolding(crate::specs::Outcomes::complaint))]
pub(crate) fn push_complaint(text: &mut Bytes, message: &str) -> Result<(), NoMem>
    ensures { OnOk result (text.new ≡ text.old ++ complaint message.now) }
{
    text.extend(b"sh: ")?;
    text.extend(message.as_bytes())?;
    text.extend(b"\n")
}

/// Returns the result of a command that is refused: a diagnostic and a status.
pub(crate) fn refusal(alloc: Global, message: &str, status: u8) -> Result<Done, NoMem>
    ensures { IfOk result (λ done. done ≡ refusal message.now status) }
{
    let mut done = Done::nothing(alloc, status);
    push_complaint(&mut done.err, message)?;
    Ok(done)
}

/// Returns the result of a command with a redirection that failed at a word.
pub(crate) fn failure(alloc: Global, word: &str, reason: Reason) -> Result<Done, NoMem>
    ensures { IfOk result (λ done. done ≡ failure word.now reason) }
{
    let mut done = Done::nothing(alloc, 1);
    reason.push_fault(&mut done.err, "sh", word)?;
    Ok(done)
}
