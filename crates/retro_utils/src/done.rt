//! Results of utilities.
ghost use Rattle.std.specs.Prelude.{◌≡◌, IfOk, OnOk};
ghost use Rattle.retro_utils.specs.Outcomes.{nothing_done, usage, with_fault, with_outcome};
ghost use Rattle.retro_utils.specs.Outcomes.{with_output, with_reading};
ghost use Rattle.retro_utils.specs.Transfers.{with_transfer};

use crate::reason::Reason;
use crate::transfer_fault::TransferFault;
use retro_text::usage_text;
use retro_tree::{Bytes, NoMem};
use std::alloc::Global;

/// The result of a utility.
#[derive(Drop)]
pub struct Done {
    /// The output.
    pub out: Bytes,
    /// The diagnostics.
    pub err: Bytes,
    /// The exit status.
    pub status: u8,
}

impl Done {
    /// Returns a result without output and diagnostics.
    pub fn nothing(alloc: Global, status: u8) -> Done
        ensures { result ≡ nothing_done status }
    {
        Done {
            out: Bytes::new(alloc),
            err: Bytes::new(alloc),
            status,
        }
    }

    /// Returns the result of a utility whose fields aren't a form of its synopsis.
    pub(crate) fn usage(alloc: Global, name: &str) -> Result<Done, NoMem>
        ensures { IfOk result (λ done. done ≡ usage name.now) }
    {
        Ok(Done {
            out: Bytes::new(alloc),
            err: usage_text(alloc, name)?,
            status: 2,
        })
    }

    /// Adds the diagnostic of a fault on an operand, and sets the status to 1.
    pub(crate) fn fault(&mut self, name: &str, operand: &str, reason: Reason) -> Result<(), NoMem>
        ensures { OnOk result (self.new ≡ with_fault name.now operand.now reason self.old) }
    {
        reason.push_fault(&mut self.err, name, operand)?;
        self.status = 1;
        Ok(())
    }

    /// Adds the fault of an operation on an operand, if it failed.
    pub(crate) fn outcome(
        &mut self,
        name: &str,
        operand: &str,
        outcome: Result<(), Reason>,
    ) -> Result<(), NoMem>
        ensures { OnOk result (self.new ≡ with_outcome name.now operand.now outcome self.old) }
    {
        match outcome {
            Ok(()) => Ok(()),
            Err(reason) => self.fault(name, operand, reason),
        }
    }

    /// Adds the fault of a copy or a move, if it failed, on the operand that it names.
    pub(crate) fn transfer(
        &mut self,
        name: &str,
        source: &str,
        last: &str,
        outcome: Result<(), TransferFault>,
    ) -> Result<(), NoMem>
        ensures { OnOk result
            (self.new ≡ with_transfer name.now source.now last.now outcome self.old) }
    {
        match outcome {
            Ok(()) => Ok(()),
            Err(TransferFault::Source(reason)) => self.fault(name, source, reason),
            Err(TransferFault::Target(reason)) => self.fault(name, last, reason),
        }
    }

    /// Adds output.
    pub(crate) fn print(&mut self, bytes: &[u8]) -> Result<(), NoMem>
        ensures { OnOk result (self.new ≡ with_output bytes.now self.old) }
    {
        self.out.extend(bytes)
    }

    /// Adds the bytes that were read of an operand, or the fault on it.
    pub(crate) fn reading(
        &mut self,
        name: &str,
        operand: &str,
        reading: Result<Bytes, Reason>,
    ) -> Result<(), NoMem>
        ensures { OnOk result (self.new ≡ with_reading name.now operand.now reading self.old) }
    {
        match reading {
            Ok(bytes) => self.print(bytes.as_slice()),
            Err(reason) => self.fault(name, operand, reason),
        }
    }
}
