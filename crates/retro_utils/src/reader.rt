//! Reading of operands.
ghost use Rattle.std.specs.Prelude.{◌≡◌, IfOk};
ghost use Rattle.retro_local.specs.Runs.{Computes, Extends};
ghost use Rattle.retro_utils.specs.Reading.{input_after, source};

use crate::input::Input;
use crate::operand::read_source;
use crate::reason::Reason;
use retro_local::Local;
use retro_tree::{Bytes, NoMem, View};
use std::alloc::Global;

/// What a utility reads from: the files that operands name in a session, and standard input.
#[derive(Drop)]
pub(crate) struct Reader {
    pub sid: u32,
    pub input: Input,
}

impl Reader {
    /// Returns the bytes of the file that an operand names, or the reason why it can't be read. For
    /// `-` reads standard input.
    pub(crate) fn read<V: View>(
        &mut self,
        alloc: Global,
        operand: &str,
        local: &mut Local<V>,
    ) -> Result<Result<Bytes, Reason>, NoMem>
        ensures means { IfOk result (λ bytes. Computes local.old local.new
            (λ s. (s, source self.old.sid operand.now self.old.input s)) bytes) }
        ensures input { self.new.input ≡ input_after operand.now self.old.input }
        ensures sid { self.new.sid ≡ self.old.sid }
        ensures extends { Extends self.old.sid local.old local.new }
    {
        Ok(read_source(alloc, self.sid, operand, &mut self.input, local)?)
    }
}
