//! Reads documents.
mod document;
mod line;
mod lines;
mod log;
mod log_line;
mod members;
mod parts;
mod script;
mod script_line;

pub use document::line_number;
pub use log::read_log;
pub use log_line::read_log_line;
pub use script::read_script;
pub use script_line::read_script_line;
