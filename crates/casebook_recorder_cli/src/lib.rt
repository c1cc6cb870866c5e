//! The commands of `casebook` about spools: by `observe` a recorder takes what the hook in people's
//! shells sends, and `import` writes what it took as one document.
//!
//! [`observe_command`], [`import_command`] and [`status_command`] are the commands, as `clap` reads
//! them, and [`observe_request`], [`start_request`], [`import_request`] and [`status_request`] are
//! what their words ask for.
//! [`start_in`] makes a spool for some folders, and writes what they hold to it. [`observe_in`]
//! opens a spool and its folders, and takes a record. [`import_in`] returns the document of a
//! spool's case, which `casebook_case` makes; the folders of the spool needn't be there.
//! [`RecorderFault::line`] says why there is no spool, why a record wasn't taken, or why there is
//! no case. The spools are those of a [`Spools`].
//!
//! If allocation fails, calls return `NoMem`.
//!
//! Start reading at `request.rt`, then `spools.rt`, `observing.rt` and `importing.rt`.
//!
//! # What is proved
//!
//! - What words ask for is an equation over `clap`'s definition of the commands
//!   (`specs/Words.antt`).
//! - [`start_in`] returns a spool that holds what `start` of `casebook_observe` writes to an empty
//!   one, and [`observe_in`] one that holds what `observe` leaves in the spool with the name: what
//!   differs since the last look and then the record that was sent follow what was whole. What was
//!   sent is a record, isn't too long, and says that it is of the user who sent it, if the system
//!   says who that is [`ok`]. If a record or a spool is refused, it is wrong in this way [`err`].
//! - [`import_in`] returns the document of the case of what the spool with the name holds: it has
//!   the spool's first look and its observations as they are, and all bytes that their notes name,
//!   and is read as what these say (`IsCaseOf` of `casebook_case`).
//! - What is said of a fault is a constant with numbers (`specs/Faults.antt`).
#![tactic(auto)]

mod case_line;
mod fault;
mod importing;
mod observing;
mod request;
mod spools;
mod words;

pub use fault::RecorderFault;
pub use importing::import_in;
pub use observing::{observe_in, start_in};
pub use request::{
    ImportRequest, ObserveRequest, RecorderProblem, StartRequest, StatusRequest, WordsFault,
    import_request, observe_request, start_request, status_request,
};
pub use spools::{OpenError, OpenSpool, SENT_LIMIT, Spools};
pub use words::{import_command, observe_command, status_command};

/// Allocation failed.
pub use retro_path::NoMem;
