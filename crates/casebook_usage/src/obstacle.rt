//! Why it isn't known what a line does.

/// Why it isn't known what a line does, or would do, on a real machine.
///
/// The first four are about texts: a shell on a machine may do something else with such a text than
/// Retro's shell does. The last two are about lines that a recorder saw on a machine, whatever
/// their texts are. No call of this crate returns those.
#[derive(Clone, Copy, Debug, PartialEq, Eq)]
pub enum Obstacle {
    /// A command that Retro's shell doesn't have.
    Command,
    /// An option or a form that Retro's shell doesn't have.
    Form,
    /// Something that a shell expands and Retro's shell doesn't, as a pattern.
    Expansion,
    /// A command that reads the terminal.
    Terminal,
    /// The line was observed on a machine, and stands as what it was seen to do.
    Observed,
    /// The line was observed on a machine, and something that it depends on would be another. So
    /// what it would do isn't known.
    Need,
}
