//! Filters as the texts of rows.
use casebook_view::{Filters, LineTest, PathTest};
use regex::bytes::{Matcher, Regex};
use retro_rows::path;
use retro_tree::NoMem;
use std::alloc::Global;
use std::test::Fail;

/// Returns a test of a path, and of the paths below it if there is a slash after it.
fn path_test(alloc: Global, given: &str) -> Result<PathTest, Fail> {
    let path = path(alloc, given)?;
    let below = given.ends_with('/');
    Ok(PathTest { path, below })
}

/// Adds the test of a filter, if it is one.
fn add_test(alloc: Global, tests: &mut Vec<LineTest>, name: &str, of: &str) -> Result<(), Fail> {
    let test = match name {
        "session" => LineTest::Sessions(Vec::from_slice(alloc, &[of.parse()?])?),
        "from" => LineTest::From(of.parse()?),
        "to" => LineTest::To(of.parse()?),
        "reads" => LineTest::Reads(path_test(alloc, of)?),
        "writes" => LineTest::Writes(path_test(alloc, of)?),
        "touches" => LineTest::Touches(path_test(alloc, of)?),
        _ => return Ok(()),
    };
    tests.push(test)?;
    Ok(())
}

/// Returns the tests among filters.
pub fn tests_of(alloc: Global, filters: &[String]) -> Result<Vec<LineTest>, Fail> {
    let mut tests = Vec::new(alloc);
    for filter in filters {
        if let Some((name, of)) = filter.split_once(' ') {
            add_test(alloc, &mut tests, name, of)?;
        }
    }
    Ok(tests)
}

/// Returns what the filter with a name has, if it is among filters.
pub fn value_of<'f>(filters: &'f [String], name: &str) -> Option<&'f str> {
    for filter in filters {
        match filter.split_once(' ') {
            Some((found, value)) if found == name => return Some(value),
            _ => {}
        }
    }
    None
}

/// Returns the pattern of the filter with a name, if it is among filters.
fn pattern(alloc: Global, filters: &[String], name: &str) -> Result<Option<Regex>, Fail> {
    match value_of(filters, name) {
        Some(text) => Ok(Some(Regex::new(alloc, text)?)),
        None => Ok(None),
    }
}

/// Returns what searches for a pattern, if there is one.
fn matcher_of(alloc: Global, pattern: &Option<Regex>) -> Result<Option<Matcher<'_>>, NoMem> {
    match pattern {
        Some(pattern) => Ok(Some(pattern.matcher(alloc)?)),
        None => Ok(None),
    }
}

/// The patterns among filters.
#[derive(Drop)]
pub struct Patterns {
    text: Option<Regex>,
    shown: Option<Regex>,
}

impl Patterns {
    /// Returns the patterns among filters.
    pub fn of(alloc: Global, filters: &[String]) -> Result<Patterns, Fail> {
        let text = pattern(alloc, filters, "text")?;
        let shown = pattern(alloc, filters, "shown")?;
        Ok(Patterns { text, shown })
    }

    /// Returns filters with these patterns.
    pub fn filters(
        &self,
        alloc: Global,
        tests: Vec<LineTest>,
        is_unknown: bool,
    ) -> Result<Filters<'_>, NoMem> {
        Ok(Filters {
            tests,
            text: matcher_of(alloc, &self.text)?,
            shown: matcher_of(alloc, &self.shown)?,
            is_unknown,
        })
    }
}
