//! Texts that stand in a recording for what a case doesn't have.
//!
//! A recorder keeps no bytes of links, devices and large files. In the states of a recording there
//! is a file in the place of each, whose text says what it stands for, and tells it from others. So
//! it can be read, copied and removed as what it stands for, but must never be written to a folder.
//!
//! Such a text begins with [`opaque_mark`], and [`is_opaque`] recognizes it. [`stands_for`] says
//! what it stands for. A file that has such a text itself is taken for one as well.
//!
//! # What is proved
//!
//! All three are equations (`specs/Opaque.antt`).
#![tactic(auto)]

mod opaque;

pub use opaque::{is_opaque, opaque_mark, stands_for};
