//! Writes logs.
mod line;
mod log;

pub use log::write_log;
