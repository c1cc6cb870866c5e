//! Filters of lines.
ghost use Rattle.std.specs.Prelude.{◌≡◌, not, option_map};
ghost use Rattle.std.specs.List.{list_all};
ghost use Rattle.regex.specs.Bytes.{matcher_pattern};
ghost use Rattle.casebook_view.specs.Filters.{filters_of, finds, finds_both, passes_as, passes_test};

use crate::line_test::LineTest;
use regex::bytes::Matcher;
use retro_keep::Noted;

/// What a line must be to be shown. All of it must hold.
#[derive(Drop)]
pub struct Filters<'r> {
    /// Tests of the line's number, its session and its notes.
    pub tests: Vec<LineTest>,
    /// A pattern that is found in the line's text.
    pub text: Option<Matcher<'r>>,
    /// A pattern that is found in what the line printed.
    pub shown: Option<Matcher<'r>>,
    /// Whether only lines pass that aren't understood, or that stand as they were observed.
    pub is_unknown: bool,
}

/// Returns whether a pattern is found in bytes, or true if there is no pattern.
fn finds(pattern: &mut Option<Matcher<'_>>, bytes: &[u8]) -> bool
    ensures value { result ≡ finds (option_map matcher_pattern pattern.old) bytes.now }
    ensures same { option_map matcher_pattern pattern.new
        ≡ option_map matcher_pattern pattern.old }
{
    match pattern {
        Some(matcher) => matcher.is_match(bytes),
        None => true,
    }
}

/// Returns whether a line passes all tests.
fn passes_tests(tests: &[LineTest], line: &(u32, Noted)) -> bool
    ensures { result ≡ list_all (passes_test line.now) tests.now }
{
    tests.iter().all(|test| test.passes(line))
}

impl<'r> Filters<'r> {
    /// Returns whether both patterns are found.
    fn finds_both(&mut self, noted: &Noted) -> bool
        ensures value { result ≡ finds_both (filters_of self.old) noted.now }
        ensures same { filters_of self.new ≡ filters_of self.old }
    {
        if !finds(&mut self.text, noted.text.bytes()) {
            return false;
        }
        finds(&mut self.shown, noted.output.as_slice())
    }

    /// Returns whether a line passes all tests, both patterns are found, and the line isn't
    /// understood if only such lines pass.
    pub(crate) fn passes(&mut self, line: &(u32, Noted), is_understood: bool) -> bool
        ensures value { result ≡ passes_as (not is_understood) (filters_of self.old) line.now }
        ensures same { filters_of self.new ≡ filters_of self.old }
    {
        if self.is_unknown && is_understood {
            return false;
        }
        if !passes_tests(self.tests.as_slice(), line) {
            return false;
        }
        self.finds_both(&line.1)
    }
}
