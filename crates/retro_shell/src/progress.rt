//! The progress of a line.
ghost use Rattle.std.specs.Prelude.{◌≡◌, if◌then◌else◌, OnOk};
ghost use Rattle.retro_shell.specs.Commands as Commands;

use crate::diagnostics::push_complaint;
use retro_syntax::tree::Connector;
use retro_tree::{Bytes, NoMem};
use retro_utils::Done;
use std::alloc::Global;

/// What a line has printed so far, and the status of its last pipeline.
#[derive(Drop)]
pub(crate) struct Progress {
    /// The text that the terminal gets.
    pub text: Bytes,
    /// The status of the last completed pipeline, or `None` before the first.
    pub last: Option<u8>,
}

impl Progress {
    /// Returns the progress of a line that hasn't run anything.
    pub(crate) fn nothing(alloc: Global) -> Progress
        ensures { result ≡ Commands.nothing_run }
    {
        Progress {
            text: Bytes::new(alloc),
            last: None,
        }
    }

    /// Returns the status of the last pipeline, or 0 if none has completed.
    pub(crate) fn status(&self) -> u8
        ensures { result ≡ Commands.status_of self.now }
    {
        self.last.unwrap_or(0)
    }

    /// Returns whether the status is 0.
    pub(crate) fn succeeded(&self) -> bool
        ensures { result ≡ Commands.succeeded self.now }
    {
        self.status() == 0
    }

    /// Returns whether the pipeline after a connector runs.
    pub(crate) fn goes_on(&self, connector: Connector) -> bool
        ensures { result ≡ Commands.goes_on connector self.now }
    {
        match connector {
            Connector::AndIf => self.succeeded(),
            Connector::OrIf => !self.succeeded(),
        }
    }

    /// Sets the status.
    pub(crate) fn set_status(&mut self, status: u8)
        ensures { self.new ≡ Commands.with_status status self.old }
    {
        self.last = Some(status);
    }

    /// Sets the status to 1 if it is 0, and to 0 otherwise.
    pub(crate) fn negate(&mut self)
        ensures { self.new
            ≡ Commands.with_status (if Commands.succeeded self.old then 1 else 0) self.old }
    {
        self.last = Some(if self.succeeded() { 1 } else { 0 });
    }

    /// Prints text.
    pub(crate) fn print(&mut self, text: &[u8]) -> Result<(), NoMem>
        ensures { OnOk result (self.new ≡ Commands.printed text.now self.old) }
    {
        self.text.extend(text)
    }

    /// Prints a diagnostic of the shell, and sets the status.
    pub(crate) fn complain(&mut self, message: &str, status: u8) -> Result<(), NoMem>
        ensures { OnOk result (self.new ≡ Commands.complained message.now status self.old) }
    {
        push_complaint(&mut self.text, message)?;
        self.last = Some(status);
        Ok(())
    }

    /// Prints what the last command of a pipe left, and sets the status to the command's.
    pub(crate) fn complete(&mut self, done: Done) -> Result<(), NoMem>
        ensures { OnOk result (self.new ≡ Commands.completed done self.old) }
    {
        let Done { out, err, status } = done;
        self.text.extend(out.as_slice())?;
        self.text.extend(err.as_slice())?;
        self.last = Some(status);
        Ok(())
    }
}
