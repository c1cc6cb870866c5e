//! The tests that the lines of a request pass.
ghost use Rattle.std.specs.Prelude.{◌≡◌, ◌++◌, IfOk, OnOk, map, option_map};
ghost use Rattle.casebook_cli.specs.Tests.{listed, of_numbers, of_paths, of_session, read_path};
ghost use Rattle.casebook_cli.specs.Tests.{test_of, test_view, touched_path, wrote_path};

use crate::NoMem;
use casebook_request::{Bounds, NamedPath, PathFilters};
use casebook_view::{LineTest, PathTest};
use std::alloc::Global;

/// Returns the test of a session, if one is given.
fn session_test(alloc: Global, session: Option<u32>) -> Result<Option<LineTest>, NoMem>
    ensures { IfOk result (λ test. option_map test_view test ≡ option_map of_session session) }
{
    match session {
        Some(session) => Ok(Some(LineTest::Sessions(Vec::from_slice(alloc, &[session])?))),
        None => Ok(None),
    }
}

/// Appends a test, if there is one.
fn push_test(tests: &mut Vec<LineTest>, test: Option<LineTest>) -> Result<(), NoMem>
    ensures { OnOk result (map test_view tests.new.items
        ≡ map test_view tests.old.items ++ listed (option_map test_view test)) }
{
    if let Some(test) = test {
        tests.push(test)?;
    }
    Ok(())
}

/// Returns the tests of a session and of the numbers among bounds.
fn number_tests(alloc: Global, session: Option<u32>, bounds: Bounds) -> Result<Vec<LineTest>, NoMem>
    ensures { IfOk result (λ tests. map test_view tests.items ≡ of_numbers session bounds) }
{
    let mut tests = Vec::new(alloc);
    push_test(&mut tests, session_test(alloc, session)?)?;
    push_test(&mut tests, bounds.first_line().map(LineTest::From))?;
    push_test(&mut tests, bounds.last_line().map(LineTest::To))?;
    Ok(tests)
}

/// Returns the test of a path.
fn test_of(named: NamedPath) -> PathTest
    ensures { result ≡ test_of named }
{
    PathTest {
        path: named.path,
        below: named.below,
    }
}

/// Returns the test that a line reads such a path, if there is one.
fn reads_test(reads: Option<NamedPath>) -> Option<LineTest>
    ensures { option_map test_view result
        ≡ option_map (λ named. read_path (test_of named)) reads }
{
    match reads {
        Some(named) => Some(LineTest::Reads(test_of(named))),
        None => None,
    }
}

/// Returns the test that a line writes to such a path, if there is one.
fn writes_test(writes: Option<NamedPath>) -> Option<LineTest>
    ensures { option_map test_view result
        ≡ option_map (λ named. wrote_path (test_of named)) writes }
{
    match writes {
        Some(named) => Some(LineTest::Writes(test_of(named))),
        None => None,
    }
}

/// Returns the test that a line reads such a path or writes to it, if there is one.
fn touches_test(touches: Option<NamedPath>) -> Option<LineTest>
    ensures { option_map test_view result
        ≡ option_map (λ named. touched_path (test_of named)) touches }
{
    match touches {
        Some(named) => Some(LineTest::Touches(test_of(named))),
        None => None,
    }
}

/// Returns the tests of paths.
fn path_tests(alloc: Global, paths: PathFilters) -> Result<Vec<LineTest>, NoMem>
    ensures { IfOk result (λ tests. map test_view tests.items ≡ of_paths paths) }
{
    let mut tests = Vec::new(alloc);
    push_test(&mut tests, reads_test(paths.reads))?;
    push_test(&mut tests, writes_test(paths.writes))?;
    push_test(&mut tests, touches_test(paths.touches))?;
    Ok(tests)
}

/// Returns the tests of a session, of the numbers among bounds and of paths.
pub(crate) fn tests_of(
    alloc: Global,
    session: Option<u32>,
    bounds: Bounds,
    paths: PathFilters,
) -> Result<Vec<LineTest>, NoMem>
    ensures { IfOk result (λ tests.
        map test_view tests.items ≡ of_numbers session bounds ++ of_paths paths) }
{
    let mut tests = number_tests(alloc, session, bounds)?;
    let mut others = path_tests(alloc, paths)?;
    tests.append(&mut others)?;
    Ok(tests)
}
