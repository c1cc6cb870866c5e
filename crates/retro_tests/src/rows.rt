//! The call that each row names, and the test that makes these calls.
use crate::layout::{LAYOUT, codes, fault, fields};
use crate::paths::{
    below, child, is_name, joined_path, parent, prefixes, relative, resolved, variable,
};
use crate::scripts::parts;
use crate::state_tables::{SCRIPTS, STATES};
use crate::states::{allows, lawfulness, played, state_answer};
use crate::tables::{EXPANSIONS, PATHS, TREES};
use crate::trees::{tilde, tree};
use retro_rows::{rows, text};
use retro_tree::NoMem;
use std::alloc::Global;
use std::test::Fail;

/// Returns the result of a call about texts, names and tables, as text.
fn text_called(alloc: Global, call: &str, given: &[String]) -> Result<String, NoMem> {
    match (call, given) {
        ("fields", given) => fields(alloc, given),
        ("same", [given]) => text(alloc, given),
        ("codes", [text]) => codes(alloc, text),
        ("fault", [table]) => fault(alloc, table),
        ("relative", [text]) => relative(alloc, text),
        ("name", [name]) => is_name(alloc, name),
        ("variable", [name]) => variable(alloc, name),
        ("path", names) => joined_path(alloc, names),
        ("tree", [line]) => tree(alloc, line),
        ("tilde", [line]) => tilde(alloc, line),
        _ => text(alloc, "no such call"),
    }
}

/// Returns the result of a call about paths, as text.
fn path_called(alloc: Global, call: &str, given: &[String]) -> Result<String, Fail> {
    match (call, given) {
        ("resolve", [cwd, text]) => resolved(alloc, cwd, text),
        ("parent", [path]) => parent(alloc, path),
        ("prefixes", [path]) => prefixes(alloc, path),
        ("child", [path, name]) => child(alloc, path, name),
        ("below", [path, prefix]) => below(alloc, path, prefix),
        _ => Ok(text_called(alloc, call, given)?),
    }
}

/// Returns the result of a call for these fields, as text.
fn called(alloc: Global, call: &str, given: &[String]) -> Result<String, Fail> {
    match (call, given) {
        ("state", [changes, question]) => state_answer(alloc, changes, question),
        ("allows", [changes, change]) => allows(alloc, changes, change),
        ("lawful", [changes]) => lawfulness(alloc, changes),
        ("play", [changes, line]) => played(alloc, changes, line),
        ("parts", [changes, lines]) => parts(alloc, changes, lines),
        _ => path_called(alloc, call, given),
    }
}

/// Makes the calls of a table. Fails with the first row whose call returns something else than it
/// wants.
fn hold(alloc: Global, table: &str) -> Result<(), Fail> {
    for row in &rows(alloc, table)? {
        let returned = called(alloc, &row.call, &row.given)?;
        row.compare(alloc, &returned)?;
    }
    Ok(())
}

#[test]
fn rows_hold(rt: HostRuntime) -> Result<(), Fail> {
    for table in [LAYOUT, PATHS, TREES, EXPANSIONS, STATES, SCRIPTS] {
        hold(rt.alloc(), table)?;
    }
    Ok(())
}
