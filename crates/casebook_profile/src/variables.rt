//! Variables to which a shell on a real machine gives a meaning of its own.
ghost use Rattle.std.specs.Prelude.{◌≡◌};
ghost use Rattle.casebook_profile.specs.Variables as Variables;

use retro_tree::VarName;

/// Returns whether the shell changes the value of a variable by itself.
#[tactic(auto, unfolding(crate::specs::Variables::is_changing))]
pub(crate) fn is_changing(name: &VarName) -> bool
    ensures { result ≡ Variables.is_changing name.now }
{
    is_changing_text(name.as_str())
}

/// Returns whether a text is the name of a variable that the shell changes by itself.
fn is_changing_text(name: &str) -> bool
    ensures { result ≡ Variables.is_one_of Variables.changing name.now }
{
    matches!(
        name,
        "_" | "BASHPID"
            | "BASH_ARGV0"
            | "BASH_COMMAND"
            | "BASH_SUBSHELL"
            | "COLUMNS"
            | "DIRSTACK"
            | "EPOCHREALTIME"
            | "EPOCHSECONDS"
            | "FUNCNAME"
            | "GROUPS"
            | "HISTCMD"
            | "LINENO"
            | "LINES"
            | "PIPESTATUS"
            | "RANDOM"
            | "SECONDS"
            | "SRANDOM"
    )
}

/// Returns whether a text is the name of another variable whose change changes how the shell works.
fn is_ruling_text(name: &str) -> bool
    ensures { result ≡ Variables.is_one_of Variables.ruling name.now }
{
    matches!(
        name,
        "BASHOPTS"
            | "BASH_COMPAT"
            | "BASH_ENV"
            | "BASH_VERSINFO"
            | "BASH_XTRACEFD"
            | "ENV"
            | "EUID"
            | "EXECIGNORE"
            | "GLOBIGNORE"
            | "LANG"
            | "LC_ALL"
            | "LC_COLLATE"
            | "LC_CTYPE"
            | "LC_MESSAGES"
            | "PATH"
            | "POSIXLY_CORRECT"
            | "PPID"
            | "PROMPT_COMMAND"
            | "PS0"
            | "PS1"
            | "PS2"
            | "PS4"
            | "SHELLOPTS"
            | "TMOUT"
            | "UID"
            | "histchars"
    )
}

/// Returns whether a line may not set a variable if it is to mean the same to both shells.
#[tactic(auto, unfolding(crate::specs::Variables::is_special))]
pub(crate) fn is_special(name: &VarName) -> bool
    ensures { result ≡ Variables.is_special name.now }
{
    is_changing_text(name.as_str()) || is_ruling_text(name.as_str())
}
