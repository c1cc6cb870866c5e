//! Accounts of what happened.
use crate::NoMem;
use crate::attributes::SeenAttributes;
use crate::machine_line::MachineLine;
use casebook_about::SessionUser;
use retro_keep::Recording;
use retro_tree::Text;
use std::alloc::Global;

/// What a recorder saw of a machine, beside the recording that explains it.
#[derive(Drop)]
pub struct Machine {
    /// The lines, in order.
    pub lines: Vec<MachineLine>,
    /// The users of sessions by their login names, where these are known.
    pub users: Vec<SessionUser>,
    /// The sessions of which some lines have no record, in order.
    pub incomplete: Vec<u32>,
    /// The watched folders in which it wasn't always seen what lines only read.
    pub unseen: Vec<Text>,
    /// The modes and owners that paths were seen to have, in order.
    pub attributes: Vec<SeenAttributes>,
}

/// What a document says that is read as a log: a recording, and if the document is a case, what its
/// recording explains.
#[derive(Drop)]
pub struct Account {
    /// The recording of a log, or of the texts that explain a case. What a line of a case needs is
    /// noted before what its first text does.
    pub recording: Recording,
    /// The lines of a case. A log has none.
    pub machine: Option<Machine>,
}

impl Machine {
    ghost use Rattle.std.specs.Prelude.{◌≡◌, IfOk};
    ghost use Rattle.std.specs.Option.{option_copied};
    ghost use Rattle.casebook_account.specs.Edits.{line_at, observed_numbers, outside_numbers};
    ghost use Rattle.casebook_account.specs.Edits.{overlapping_numbers};

    /// Returns the line with a number, or `None` if there is none.
    pub fn line(&self, number: u32) -> Option<&MachineLine>
        ensures { option_copied result ≡ line_at number self.now.lines.items }
    {
        if number == 0 {
            return None;
        }
        self.lines.as_slice().get(number as usize - 1)
    }

    /// Returns the numbers of the lines that stand as they were observed, in order.
    pub fn observed(&self, alloc: Global) -> Result<Vec<u32>, NoMem>
        ensures { IfOk result (λ numbers.
            numbers.items ≡ observed_numbers self.now.lines.items) }
    {
        self.lines
            .iter()
            .filter(|line| line.is_observed)
            .map(|line| line.number)
            .collect(alloc)
    }

    /// Returns the numbers of the lines while which others were open, in order.
    pub fn overlapping(&self, alloc: Global) -> Result<Vec<u32>, NoMem>
        ensures { IfOk result (λ numbers.
            numbers.items ≡ overlapping_numbers self.now.lines.items) }
    {
        self.lines
            .iter()
            .filter(|line| line.overlaps)
            .map(|line| line.number)
            .collect(alloc)
    }

    /// Returns the numbers of the changes that no line made, in order.
    pub fn outside(&self, alloc: Global) -> Result<Vec<u32>, NoMem>
        ensures { IfOk result (λ numbers.
            numbers.items ≡ outside_numbers self.now.lines.items) }
    {
        self.lines
            .iter()
            .filter(|line| line.session == 0)
            .map(|line| line.number)
            .collect(alloc)
    }
}
