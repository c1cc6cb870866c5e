//! Patterns of requests.
ghost use Rattle.std.specs.Prelude.{◌≡◌, Some, IfOk, IfErr, option_map};
ghost use Rattle.regex.specs.Bytes.{matcher_pattern, regex_pattern};
ghost use Rattle.casebook_view.specs.Filters.{filters_of};
ghost use Rattle.casebook_request.specs.Views.{lines_view};
ghost use Rattle.casebook_cli.specs.Lines.{AreRead, IsPattern};
ghost use Rattle.casebook_cli.specs.Stops.{StopsPattern, StopsPatterns};
ghost use Rattle.casebook_cli.specs.inner.Views.{filters_by};

use crate::NoMem;
use casebook_repairs::{SearchedPart, Stop};
use casebook_request::LinesRequest;
use casebook_view::{Filters, LineTest};
use regex::bytes::{Matcher, Regex};
use regex::{Error, RegexBuilder};
use std::alloc::Global;

/// The patterns of a request, if there are any.
#[derive(Drop)]
pub(crate) struct Patterns {
    /// The one that is found in each line's text.
    text: Option<Regex>,
    /// The one that is found in what each line printed.
    shown: Option<Regex>,
}

/// Returns the pattern that a text is, in which `^` and `$` are the ends of a line.
fn pattern_of<'a>(alloc: Global, text: &str, searched: SearchedPart) -> Result<Regex, Stop<'a>>
    ensures ok { IfOk result (λ pattern. IsPattern text.now (regex_pattern pattern)) }
    ensures err { IfErr result (StopsPattern (Some text.now) searched) }
{
    match RegexBuilder::new(text).multi_line(true).build_bytes(alloc) {
        Ok(pattern) => Ok(pattern),
        Err(Error::OutOfMemory) => Err(Stop::OutOfMemory),
        Err(_) => Err(Stop::BadPattern(searched)),
    }
}

/// Returns the pattern that a text is, if there is a text.
fn pattern_given<'a>(
    alloc: Global,
    text: Option<&str>,
    searched: SearchedPart,
) -> Result<Option<Regex>, Stop<'a>>
    ensures ok { IfOk result (λ pattern.
        AreRead (option_map (λ s. s.now) text.entry) (option_map regex_pattern pattern)) }
    ensures err { IfErr result (StopsPattern (option_map (λ s. s.now) text.entry) searched) }
{
    match text {
        Some(text) => Ok(Some(pattern_of(alloc, text, searched)?)),
        None => Ok(None),
    }
}

/// Returns what searches for a pattern, if there is one.
fn matcher_of(alloc: Global, pattern: &Option<Regex>) -> Result<Option<Matcher<'_>>, NoMem>
    ensures { IfOk result (λ matcher.
        option_map matcher_pattern matcher ≡ option_map regex_pattern pattern.entry.now) }
{
    match pattern {
        Some(pattern) => Ok(Some(pattern.matcher(alloc)?)),
        None => Ok(None),
    }
}

impl Patterns {
    /// Returns the patterns that a request gives.
    pub(crate) fn of<'a>(alloc: Global, request: &LinesRequest<'a>) -> Result<Patterns, Stop<'a>>
        ensures text { IfOk result (λ patterns.
            AreRead (lines_view request.now).text (option_map regex_pattern patterns.text)) }
        ensures shown { IfOk result (λ patterns.
            AreRead (lines_view request.now).shown (option_map regex_pattern patterns.shown)) }
        ensures err { IfErr result (StopsPatterns (lines_view request.now)) }
    {
        let text = pattern_given(alloc, request.text, SearchedPart::Text)?;
        let shown = pattern_given(alloc, request.shown, SearchedPart::Outputs)?;
        Ok(Patterns { text, shown })
    }

    /// Returns the filters of these patterns and of tests. `is_unknown` says whether only lines
    /// pass that aren't understood.
    pub(crate) fn filters(
        &self,
        alloc: Global,
        tests: Vec<LineTest>,
        is_unknown: bool,
    ) -> Result<Filters<'_>, NoMem>
        ensures { IfOk result (λ filters.
            filters_of filters ≡ filters_by tests.items self.now is_unknown) }
    {
        Ok(Filters {
            tests,
            text: matcher_of(alloc, &self.text)?,
            shown: matcher_of(alloc, &self.shown)?,
            is_unknown,
        })
    }
}
