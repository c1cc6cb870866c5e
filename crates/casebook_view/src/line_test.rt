//! Tests of lines.
ghost use Rattle.std.specs.Prelude.{◌≡◌};
ghost use Rattle.casebook_view.specs.Filters.{passes_test};

use crate::path_test::PathTest;
use retro_keep::Noted;

/// A test that a line passes or doesn't.
#[derive(Drop)]
pub enum LineTest {
    /// One of these sessions ran the line.
    Sessions(Vec<u32>),
    /// The line's number is at least this one.
    From(u32),
    /// The line's number is at most this one.
    To(u32),
    /// The line asked about such a path.
    Reads(PathTest),
    /// The line changed what is at such a path.
    Writes(PathTest),
    /// The line asked about such a path, or changed what is there.
    Touches(PathTest),
}

impl LineTest {
    /// Returns whether a line passes.
    pub(crate) fn passes(&self, line: &(u32, Noted)) -> bool
        ensures { result ≡ passes_test line.now self.now }
    {
        let notes = line.1.notes.as_slice();
        match self {
            LineTest::Sessions(sessions) => sessions.contains(&line.1.sid),
            LineTest::From(number) => *number <= line.0,
            LineTest::To(number) => line.0 <= *number,
            LineTest::Reads(test) => test.is_read(notes),
            LineTest::Writes(test) => test.is_written(notes),
            LineTest::Touches(test) => test.is_read(notes) || test.is_written(notes),
        }
    }
}
