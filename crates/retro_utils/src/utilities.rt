//! The utilities, one a file.

pub(crate) mod cat;
pub(crate) mod cd;
pub(crate) mod condition;
pub(crate) mod cp;
pub(crate) mod cut;
pub(crate) mod grep;
pub(crate) mod id;
pub(crate) mod mkdir;
pub(crate) mod mkdir_parents;
pub(crate) mod mv;
pub(crate) mod pwd;
pub(crate) mod rm;
pub(crate) mod tee;
