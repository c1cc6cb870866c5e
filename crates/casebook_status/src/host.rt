//! What a machine says of itself.
use casebook_host::Login;
use retro_path::Path;

/// What a machine says of itself, and of the folders that are watched.
#[derive(Drop)]
pub struct Host<'a> {
    /// The folders that are watched.
    pub folders: &'a [Path],
    /// Those of them in which it isn't seen what lines only read. `None` if it isn't known how they
    /// are mounted.
    pub unseen: Option<Vec<&'a Path>>,
    /// Who is logged in. `None` if that isn't asked.
    pub logins: Option<Vec<Login<'a>>>,
}
