//! Previous settings of a session.
use crate::setting::Setting;
use retro_path::VarName;

/// What a session had before a setting was made.
#[derive(Drop)]
pub(crate) enum Previous {
    /// The previous setting.
    Set(Setting),
    /// The variable wasn't set.
    Unset(VarName),
}
