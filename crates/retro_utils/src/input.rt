//! Standard input.
ghost use Rattle.std.specs.Prelude.{◌≡◌, IfOk};
ghost use Rattle.retro_local.specs.Runs.{Computes, ExtendsTree};
ghost use Rattle.retro_utils.specs.Reading.{input_in};
ghost use Rattle.retro_utils.specs.declared.input.Input.TheVariants as Input;

use retro_local::Local;
use retro_tree::{Bytes, NoMem, Node, Path, View};
use std::alloc::Global;
use std::mem::replace;

/// Standard input. It is read once: the second reading is empty.
#[derive(Drop)]
pub enum Input {
    /// Nothing.
    Empty,
    /// These bytes.
    Bytes(Bytes),
    /// The file at a path at the time of reading. If the path isn't a file then, the input is
    /// empty.
    File(Path),
}

impl Input {
    /// Returns all bytes, and leaves the input empty.
    #[tactic(auto, unfolding(crate::specs::Reading::input_in))]
    pub(crate) fn read<V: View>(
        &mut self,
        alloc: Global,
        local: &mut Local<V>,
    ) -> Result<Bytes, NoMem>
        ensures means { IfOk result (λ bytes. Computes local.old local.new
            (λ s. (s, input_in self.old s)) bytes) }
        ensures once { self.new ≡ Input.Empty }
        ensures extends { ExtendsTree local.old local.new }
    {
        match replace(self, Input::Empty) {
            Input::Empty => Ok(Bytes::new(alloc)),
            Input::Bytes(bytes) => Ok(bytes),
            Input::File(path) => {
                if path.is_null() {
                    return Ok(Bytes::new(alloc));
                }
                match local.node(alloc, &path)? {
                    Node::File(bytes) => Ok(bytes),
                    Node::Missing | Node::Dir => Ok(Bytes::new(alloc)),
                }
            }
        }
    }
}
