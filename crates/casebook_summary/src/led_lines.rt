//! The lines that are run again because of others.
ghost use Rattle.std.specs.Prelude.{◌≡◌, ◌++◌, ◌∷◌, [], ℕ, IfOk, OnOk};
ghost use Rattle.std.specs.List.{filter};
ghost use Rattle.casebook_summary.specs.Effects.{is_led_to};
ghost use Rattle.casebook_summary.specs.inner.LedLines.{is_from, led_at, other_origin};

use crate::NoMem;
use casebook_view::CaseLine;
use std::alloc::Global;
use std::collections::BTreeMap;

/// For each line, the other lines at whose chains of causes it is the end, in order.
#[derive(Drop)]
pub(crate) struct LedLines {
    by_origin: BTreeMap<u32, Vec<CaseLine>>,
}

/// Returns the other line that led to a line, if there is one.
fn led_by(line: &CaseLine) -> Option<u32>
    ensures { result ≡ other_origin line.now.number line.now.reason }
{
    match line.reason {
        Some(reason) if line.number != reason.origin => Some(reason.origin),
        _ => None,
    }
}

impl LedLines {
    /// Returns no lines. Takes no memory.
    fn new(alloc: Global) -> LedLines
        ensures { (n : ℕ) → led_at result n ≡ [] }
    {
        LedLines {
            by_origin: BTreeMap::new(alloc),
        }
    }

    /// Adds a line to which another one led.
    fn add(&mut self, alloc: Global, origin: u32, line: CaseLine) -> Result<(), NoMem>
        ensures { OnOk result ((n : ℕ) → led_at self.new n
            ≡ led_at self.old n ++ filter (is_from origin n) (line ∷ [])) }
    {
        if let Some(lines) = self.by_origin.get_mut(&origin) {
            lines.push(line)?;
            return Ok(());
        }
        let mut lines = Vec::new(alloc);
        lines.push(line)?;
        self.by_origin.insert(origin, lines)?;
        Ok(())
    }

    /// Adds a line, if another one led to it.
    fn add_line(&mut self, alloc: Global, line: CaseLine) -> Result<(), NoMem>
        ensures { OnOk result ((n : ℕ) → led_at self.new n
            ≡ led_at self.old n ++ filter (is_led_to n) (line ∷ [])) }
    {
        match led_by(&line) {
            Some(origin) => self.add(alloc, origin, line),
            None => Ok(()),
        }
    }

    /// Returns the lines that are run again because of others.
    pub(crate) fn of(alloc: Global, lines: &[CaseLine]) -> Result<LedLines, NoMem>
        ensures { IfOk result (λ led.
            (n : ℕ) → led_at led n ≡ filter (is_led_to n) lines.now) }
    {
        let mut led = LedLines::new(alloc);
        for line in lines {
            led.add_line(alloc, *line)?;
        }
        Ok(led)
    }

    /// Returns the lines to which the one with a number led.
    pub(crate) fn at(&self, alloc: Global, number: u32) -> Result<Vec<CaseLine>, NoMem>
        ensures { IfOk result (λ lines. lines.items ≡ led_at self.now number) }
    {
        match self.by_origin.get(&number) {
            Some(lines) => Vec::from_slice(alloc, lines.as_slice()),
            None => Ok(Vec::new(alloc)),
        }
    }
}
