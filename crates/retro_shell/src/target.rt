//! The target of a command's output.
ghost use Rattle.std.specs.Prelude.{◌≡◌, IfOk};
ghost use Rattle.retro_local.specs.Runs.{Computes, ExtendsTree};
ghost use Rattle.retro_shell.specs.Redirections.{delivery};

use retro_tree::{Bytes, NoMem, Path, Text, View};
use retro_utils::{Done, Local, append};
use std::alloc::Global;

/// The target of a command's output.
#[derive(Drop)]
pub(crate) enum Target {
    /// The pipe or the terminal.
    Standard,
    /// The open file at a path, and the word that named it.
    File(Text, Path),
}

impl Target {
    /// Delivers the output of a command to its file, if it has one. The output that is left is for
    /// the pipe or the terminal.
    #[tactic(auto, unfolding(crate::specs::Redirections::delivery))]
    pub(crate) fn deliver<V: View>(
        self,
        alloc: Global,
        done: Done,
        local: &mut Local<V>,
    ) -> Result<Done, NoMem>
        ensures means { IfOk result (λ left. Computes local.old local.new
            (delivery self done) left) }
        ensures extends { ExtendsTree local.old local.new }
    {
        let Target::File(word, path) = self else {
            return Ok(done);
        };
        if done.out.is_empty() {
            return Ok(done);
        }
        let Done { out, err, status } = done;
        let mut left = Done {
            out: Bytes::new(alloc),
            err,
            status,
        };
        if let Err(reason) = append(alloc, &out, &path, local)? {
            reason.push_fault(&mut left.err, "sh", word.as_str())?;
            left.status = 1;
        }
        Ok(left)
    }
}
