//! Lines with the texts by which a recording has them.
ghost use Rattle.std.specs.Prelude.{◌≡◌, IsTrue};
ghost use Rattle.retro_tree.specs.Lawful.{IsLawful};
ghost use Rattle.retro_keep.specs.Script.{have_sessions};
ghost use Rattle.casebook_explain.specs.inner.Sound.{AreSound, after_lines, sessions_of};

use casebook_needs::Need;
use retro_shell::Run;
use retro_tree::State;
use std::marker::Model;

/// A line with the texts by which a recording has it.
#[derive(Drop)]
pub struct ToldLine {
    /// The number of its session.
    pub session: u32,
    /// Whether its only text is the one that was typed.
    pub is_modelled: bool,
    /// What it depends on, besides what its texts ask.
    pub needs: Vec<Need>,
    /// The runs of its texts, one after the other.
    pub runs: Vec<Run>,
}

/// The first state of a recording, and the lines that explain what was seen from there on.
///
/// The type guarantees that the first state is lawful, and that in the state before each line its
/// session exists, its needs have their answers, and its texts run as noted, one after the other.
#[derive(Drop)]
pub struct Told {
    first: State,
    lines: Vec<ToldLine>,
    last: State,
}

impl Model for Told {
    ghost use Rattle.casebook_explain.specs.Value.{ToldValue};
    ghost use Rattle.casebook_explain.specs.inner.Kept.{IsKept};
    ghost use Rattle.casebook_explain.specs.inner.ToldCode.{coded_told};

    ghost Value = { ToldValue };

    ghost coded = { coded_told };

    ghost view = { λ t. record { first = t.first; lines = t.lines.items } };

    ghost invariant = { λ t. IsKept (record { first = t.first; lines = t.lines.items }) t.last };
}

impl Told {
    /// Makes told lines of their parts. `last` is the state after the lines.
    pub(crate) fn of(first: State, lines: Vec<ToldLine>, last: State) -> Told
        requires lawful { IsLawful first }
        requires known { IsTrue (have_sessions first (sessions_of lines.items)) }
        requires sound { AreSound lines.items first }
        requires last { last ≡ after_lines lines.items first }
        ensures { result ≡ record { first = first; lines = lines.items } }
    {
        Told { first, lines, last }
    }

    /// Returns the first state, which has the shelves of the lines.
    pub fn first(&self) -> &State
        ensures { result.now ≡ self.now.first }
    {
        &self.first
    }

    /// Returns the lines.
    pub fn lines(&self) -> &[ToldLine]
        ensures { result.now ≡ self.now.lines }
    {
        self.lines.as_slice()
    }

    /// Returns the first state, the lines, and the state after them.
    pub(crate) fn into_parts(self) -> (State, Vec<ToldLine>, State)
        ensures first { result.0 ≡ self.first }
        ensures lines { result.1.items ≡ self.lines }
        ensures last { result.2 ≡ after_lines self.lines self.first }
        ensures lawful { IsLawful self.first }
        ensures known { IsTrue (have_sessions self.first (sessions_of self.lines)) }
        ensures sound { AreSound self.lines self.first }
    {
        let Told { first, lines, last } = self;
        (first, lines, last)
    }
}
