//! The utilities, over any view of a state.
//!
//! Each utility is a function on whole states, defined in `specs/`: it gives the state after it,
//! its output, its diagnostics and its status. The code runs over a `Local`, and its notes say what
//! was read and changed. `utility` runs the utility with a name on the fields after the name.
//!
//! If allocation fails, calls return `NoMem`. A `Local` then has its earlier notes and maybe
//! some later ones, which hold.
//!
//! Start reading at `call.rt`, then `utilities/cat.rt`, then `operand.rt` and `reader.rt`.
//!
//! # What is proved
//!
//! - `utility` runs the utility with a name on its fields, over any view. In every lawful state in
//!   which its notes hold, the utility's definition on whole states (`specs/Utility.antt`) gives
//!   the result and the state after the notes [`means`]. It returns `None` exactly if no utility
//!   has the name [`known`], and then notes nothing [`none`]. If the notes before named no session
//!   but the place's, those after it don't either [`extends`].
#![tactic(auto)]

mod call;
mod done;
mod fields;
mod input;
mod mode;
mod opened;
mod operand;
mod output;
mod path_test;
mod place;
mod progress;
mod reader;
mod reason;
mod removal;
mod request;
mod target;
mod transfer_fault;
mod utilities;

pub use call::utility;
pub use done::Done;
pub use input::Input;
pub use mode::Mode;
pub use operand::locate;
pub use output::{append, open};
pub use place::Place;
pub use reason::Reason;
pub use retro_local::{Local, apply_notes, holds};
