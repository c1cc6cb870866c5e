//! The rules by which needs are found, one after the other.
ghost use Rattle.std.specs.Prelude.{◌≡◌, ◌++◌, [], IfOk, OnOk, filter, flat_map, map};
ghost use Rattle.std.specs.List.{filter_map, list_any};
ghost use Rattle.casebook_needs.specs.FirstOfEach.{first_of_each};
ghost use Rattle.casebook_needs.specs.Line.{line_value};
ghost use Rattle.casebook_needs.specs.Named.{is_home_word};
ghost use Rattle.casebook_needs.specs.Needs.{asked_of, home_query, is_directory, named};
ghost use Rattle.casebook_needs.specs.Needs.{named_directories, named_queries, names_at, nodes_at};
ghost use Rattle.casebook_needs.specs.Needs.{overwritten, queries_in_file, same_query};
ghost use Rattle.casebook_needs.specs.Needs.{script_queries, session_queries, status_query};
ghost use Rattle.casebook_needs.specs.Needs.{trace_queries, variable_queries};
ghost use Rattle.casebook_needs.specs.Variables.{variables_of};
ghost use Rattle.casebook_needs.specs.Words.{words_of};
ghost use Rattle.casebook_needs.specs.declared.query.Query.TheVariants as queries;
ghost use Rattle.casebook_needs.specs.declared.source.Source.TheVariants as sources;
ghost use Rattle.casebook_needs.specs.inner.Steps.{with_items};

use crate::NoMem;
use crate::asking::{home_in, is_directory, is_file, node_at};
use crate::below::touched_below;
use crate::effect::Effect;
use crate::named::{is_home_word, paths_of};
use crate::observed_line::ObservedLine;
use crate::query::Query;
use crate::scripts::paths_in_node;
use crate::sought::Sought;
use crate::source::Source;
use crate::variables::{names_status, variables_of};
use crate::words::words_of;
use retro_path::{Path, VarName};
use retro_tree::View;
use std::alloc::Global;

/// Returns the paths that a line changed other than by an append and at which a file was.
fn overwritten<V: View>(
    alloc: Global,
    view: &V,
    line: &ObservedLine<'_>,
) -> Result<Vec<Path>, NoMem>
    ensures { IfOk result (λ paths. paths.items ≡ overwritten (V.state view.now) (line_value line.now)) }
{
    let mut paths = Vec::new(alloc);
    for effect in line.effects {
        if let Effect::Other(path) = effect {
            if is_file(alloc, view, path)? {
                paths.push(path.copy()?)?;
            }
        }
    }
    Ok(paths)
}

/// Adds what a line read, listed, and wrote other than by an append.
fn add_traces<V: View>(
    alloc: Global,
    view: &V,
    line: &ObservedLine<'_>,
    sought: Sought,
) -> Result<Sought, NoMem>
    ensures { IfOk result (λ more.
        more ≡ with_items same_query sought (trace_queries (V.state view.now) (line_value line.now))) }
{
    sought
        .add_nodes(line.read, &Source::Read)?
        .add_names(line.listed, &Source::Listed)?
        .add_nodes(overwritten(alloc, view, line)?.as_slice(), &Source::Written)
}

/// Returns the paths that words of a line name.
fn named<V: View>(alloc: Global, view: &V, line: &ObservedLine<'_>) -> Result<Vec<Path>, NoMem>
    ensures { IfOk result (λ paths. paths.items ≡ named (V.state view.now) (line_value line.now)) }
{
    let home = home_in(alloc, view, line.session)?;
    paths_of(alloc, line.directory, home.as_ref(), line.text)
}

/// Returns those of some paths that are directories.
fn directories_of<V: View>(alloc: Global, view: &V, paths: &[Path]) -> Result<Vec<Path>, NoMem>
    ensures { IfOk result (λ directories.
        directories.items ≡ filter (is_directory (V.state view.now)) paths.now) }
{
    let mut directories = Vec::new(alloc);
    for path in paths {
        if is_directory(alloc, view, path)? {
            directories.push(path.copy()?)?;
        }
    }
    Ok(directories)
}

/// Adds paths that words name, those of them that are directories, and what was touched below them.
fn add_paths(
    named: &[Path],
    directories: &[Path],
    below: &[Path],
    sought: Sought,
) -> Result<Sought, NoMem>
    ensures { IfOk result (λ more. more ≡ with_items same_query sought
        (nodes_at named.now sources.Named ++ names_at directories.now sources.Named
        ++ nodes_at below.now sources.Named)) }
{
    sought
        .add_nodes(named, &Source::Named)?
        .add_names(directories, &Source::Named)?
        .add_nodes(below, &Source::Named)
}

/// Adds what words of a line name; of directories their names too, and what the line touched below
/// them.
fn add_named<V: View>(
    alloc: Global,
    view: &V,
    line: &ObservedLine<'_>,
    sought: Sought,
) -> Result<Sought, NoMem>
    ensures { IfOk result (λ more.
        more ≡ with_items same_query sought (named_queries (V.state view.now) (line_value line.now))) }
{
    let named = named(alloc, view, line)?;
    let directories = directories_of(alloc, view, named.as_slice())?;
    let below = touched_below(alloc, directories.as_slice(), line)?;
    add_paths(
        named.as_slice(),
        directories.as_slice(),
        below.as_slice(),
        sought,
    )
}

/// Adds what a file names, if it is a script.
fn add_script<V: View>(
    alloc: Global,
    view: &V,
    directory: &Path,
    path: &Path,
    sought: Sought,
) -> Result<Sought, NoMem>
    ensures { IfOk result (λ more. more ≡ with_items same_query sought
        (queries_in_file (V.state view.now) directory.now path.now)) }
{
    let node = node_at(alloc, view, path)?;
    let paths = paths_in_node(alloc, directory, &node)?;
    sought.add_nodes(paths.as_slice(), &Source::InScript(path.copy()?))
}

/// Adds what scripts name that a line read.
fn add_scripts<V: View>(
    alloc: Global,
    view: &V,
    line: &ObservedLine<'_>,
    sought: Sought,
) -> Result<Sought, NoMem>
    ensures { IfOk result (λ more.
        more ≡ with_items same_query sought (script_queries (V.state view.now) (line_value line.now))) }
{
    let mut more = sought;
    for path in line.read {
        more = add_script(alloc, view, line.directory, path, more)?;
    }
    Ok(more)
}

/// Returns whether a text has a word with a tilde that stands for the value of `HOME`.
fn names_home(alloc: Global, text: &[u8]) -> Result<bool, NoMem>
    ensures { IfOk result (λ names. names ≡ list_any is_home_word (words_of text.now)) }
{
    for word in &words_of(alloc, text)? {
        if is_home_word(word) {
            return Ok(true);
        }
    }
    Ok(false)
}

/// Adds the variables that a text names after a dollar sign.
fn add_variables(alloc: Global, text: &[u8], sought: Sought) -> Result<Sought, NoMem>
    ensures { IfOk result (λ more. more ≡ with_items same_query sought
        (map (λ name. (queries.Var name, sources.Variable)) (variables_of text.now))) }
{
    let mut more = sought;
    for name in &variables_of(alloc, text)? {
        more = more.add(Query::Var(name.copy()?), Source::Variable)?;
    }
    Ok(more)
}

/// Adds `HOME`, if a word has a tilde that stands for its value.
fn add_home(alloc: Global, text: &[u8], sought: Sought) -> Result<Sought, NoMem>
    ensures { IfOk result (λ more.
        more ≡ with_items same_query sought (home_query text.now)) }
{
    if names_home(alloc, text)? {
        sought.add(Query::Var(VarName::home(alloc)?), Source::Variable)
    } else {
        Ok(sought)
    }
}

/// Adds the status, if a text names it.
fn add_status(alloc: Global, text: &[u8], sought: Sought) -> Result<Sought, NoMem>
    ensures { IfOk result (λ more.
        more ≡ with_items same_query sought (status_query text.now)) }
{
    if names_status(alloc, text)? {
        sought.add(Query::Status, Source::Variable)
    } else {
        Ok(sought)
    }
}

/// Adds the variables and the status that a text names.
fn add_named_variables(alloc: Global, text: &[u8], sought: Sought) -> Result<Sought, NoMem>
    ensures { IfOk result (λ more.
        more ≡ with_items same_query sought (variable_queries text.now)) }
{
    let more = add_variables(alloc, text, sought)?;
    let more = add_home(alloc, text, more)?;
    add_status(alloc, text, more)
}

/// Adds the session's directory, and the file with its functions, aliases and options.
fn add_session(line: &ObservedLine<'_>, sought: Sought) -> Result<Sought, NoMem>
    ensures { IfOk result (λ more.
        more ≡ with_items same_query sought (session_queries (line_value line.now))) }
{
    let more = sought.add(Query::Cwd, Source::Directory)?;
    match line.shell {
        Some(path) => more.add(Query::Bytes(path.copy()?), Source::Shell),
        None => Ok(more),
    }
}

/// Returns the queries of all rules with their sources, each query once.
#[tactic(auto, unfolding(crate::specs::Needs::asked_of))]
pub(crate) fn asked_of<V: View>(
    alloc: Global,
    view: &V,
    line: &ObservedLine<'_>,
) -> Result<Vec<(Query, Source)>, NoMem>
    ensures { IfOk result (λ asked.
        asked.items ≡ first_of_each same_query (asked_of (V.state view.now) (line_value line.now))) }
{
    let sought = add_traces(alloc, view, line, Sought::new(alloc))?;
    let sought = add_named(alloc, view, line, sought)?;
    let sought = add_scripts(alloc, view, line, sought)?;
    let sought = add_named_variables(alloc, line.text, sought)?;
    Ok(add_session(line, sought)?.into_vec())
}
