//! Views of a state.
ghost use Rattle.std.specs.Prelude.{◌≡◌, IfOk};
ghost use Rattle.retro_tree.specs.Ask.{answer, names_in};
ghost use Rattle.retro_tree.specs.declared.state.State.{State};

use crate::answer::Answer;
use crate::ask::Ask;
use retro_path::{Listing, NoMem, Path};
use std::alloc::Global;

/// A source of answers about one state. `State` is a view of itself.
pub trait View {
    /// The view's state.
    ghost state: { Self → State };

    /// Returns the state's answer to a query.
    fn answer(&self, alloc: Global, ask: &Ask) -> Result<Answer, NoMem>
        ensures { IfOk result (λ a. a ≡ answer ask.now (state self.now)) };

    /// Returns the names of the children of a path in byte order, whatever node is at the path
    /// itself.
    fn children(&self, alloc: Global, path: &Path) -> Result<Listing, NoMem>
        ensures { IfOk result (λ names. names ≡ names_in path.now (state self.now).tree) };
}

impl<V: View> View for &V {
    ghost state = { λ v. V.state v.now };

    fn answer(&self, alloc: Global, ask: &Ask) -> Result<Answer, NoMem> {
        (**self).answer(alloc, ask)
    }

    fn children(&self, alloc: Global, path: &Path) -> Result<Listing, NoMem> {
        (**self).children(alloc, path)
    }
}
