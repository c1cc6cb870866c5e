//! Reads the sessions of a document: a list of `[sid,cwd,status,[[name,value],..]]`.
ghost use Rattle.std.specs.Prelude.{◌≡◌, ◌<◌, Err, None, Ok, Some, map, IfOk, option_map, true};
ghost use Rattle.serde_json.specs.Data.{Data};
ghost use Rattle.retro_value.specs.Left.{items_left, value_left};
ghost use Rattle.retro_value.specs.declared.error.ReadError.TheVariants.{NotJson};
ghost use Rattle.retro_json.specs.Rows.{IsReadOf, session_rows, sessions_of_all};
ghost use Rattle.std.specs.Ordering.{nat_cmp};
ghost use Rattle.std.specs.FinMap as map;
ghost use Rattle.retro_value.specs.Borrowed.{value_data};
ghost use Rattle.retro_tree.specs.Lawful.{is_lawful_tree};
ghost use Rattle.retro_tree.specs.Limits.{are_lawful_sessions, values_fit};
ghost use Rattle.retro_tree.specs.Order.{text_cmp};
ghost use Rattle.retro_tree.specs.State.{put_session};
ghost use Rattle.retro_json.specs.Keyed.{are_distinct, keys_of, map_of};
ghost use Rattle.retro_json.specs.ReadsAs.{ReadsAs, seen};
ghost use Rattle.retro_json.specs.SessionsPart.{row_cells, row_of, session_in};
ghost use Rattle.retro_json.specs.SessionsPart.{sessions_of_rows, var_cells, var_of, vars_of};
ghost use Rattle.retro_json.specs.SessionsPart.{vars_of_entries};
ghost use Rattle.retro_json.specs.Views.{row_view, session_view};
ghost use Rattle.retro_json.specs.Worst.{both, every};

use crate::accepted;
use crate::fault::{LogFault, Part, Refusal};
use crate::reading::path::path_in;
use crate::reading::shape::{cells, text, u8_in, u32_in};
use crate::reading::worst::{OrRefusal, both, with_item};
use json::{Reader, Value};
use retro_tree::{NoMem, Path, State, Text, VALUE_LIMIT, VarName};
use retro_value::{ReadError, begins_array, next_item};
use std::alloc::Global;
use std::collections::{BTreeMap, BTreeSet};

/// The working directory, the status and the variables of a session.
#[derive(Drop)]
pub struct SessionParts {
    /// The working directory.
    pub cwd: Path,
    /// The status of the last line.
    pub status: u8,
    /// The values of the variables, by name.
    pub vars: BTreeMap<VarName, Text>,
}

/// A row of the list: the number of a session, and the session or its worst refusal.
#[derive(Drop)]
pub struct Row {
    /// The number of the session.
    pub sid: u32,
    /// The session, or its worst refusal.
    pub session: OrRefusal<SessionParts>,
}

/// Reads a variable from the items of its array.
fn var_of_cells(alloc: Global, cells: &[Value<'_>]) -> Result<OrRefusal<(VarName, Text)>, NoMem>
    ensures { IfOk result (λ var. var ≡ var_cells (map value_data cells.now)) }
{
    let [name, value] = cells else {
        return Ok(Err(Refusal::WrongShape(Part::Sessions)));
    };
    let name = accepted!(text(Part::Sessions, name));
    let value = accepted!(text(Part::Sessions, value));
    let Some(name) = VarName::of(alloc, name)? else {
        return Ok(Err(Refusal::WrongShape(Part::Sessions)));
    };
    Ok(Ok((name, Text::of(String::from_str(alloc, value)?))))
}

/// Reads a variable: `[name,value]`. The length of the value isn't tested.
#[tactic(auto, unfolding(crate::specs::SessionsPart::var_of))]
fn read_var(alloc: Global, value: &Value<'_>) -> Result<OrRefusal<(VarName, Text)>, NoMem>
    ensures { IfOk result (λ var. var ≡ var_of (value_data value.now)) }
{
    var_of_cells(alloc, accepted!(cells(Part::Sessions, value)))
}

/// Reads variables, or returns their worst refusal.
#[tactic(auto, using(crate::proofs::Worst::validating_starts))]
fn read_vars(alloc: Global, items: &[Value<'_>]) -> Result<OrRefusal<Vec<(VarName, Text)>>, NoMem>
    ensures { IfOk result (λ vars. seen (λ v. v.items) vars ≡ every var_of (map value_data items.now)) }
{
    let mut vars = Ok(Vec::new(alloc));
    for item in items {
        let var = read_var(alloc, item)?;
        vars = with_item(vars, var)?;
    }
    Ok(vars)
}

/// Returns the map of the variables, or `None` if two have the same name.
fn var_map(
    alloc: Global,
    vars: Vec<(VarName, Text)>,
) -> Result<Option<BTreeMap<VarName, Text>>, NoMem>
    ensures { IfOk result (λ found.
        option_map (λ values. map.from_entries values.entries) found
        ≡ map_of text_cmp vars.items) }
{
    let mut values = BTreeMap::new(alloc);
    for var in vars {
        let (name, value) = var;
        if values.contains_key(&name) {
            return Ok(None);
        }
        values.insert(name, value)?;
    }
    Ok(Some(values))
}

/// Returns whether each value has at most `VALUE_LIMIT` bytes.
fn values_fit(vars: &BTreeMap<VarName, Text>) -> bool
    ensures { result ≡ values_fit (map.from_entries vars.now.entries) }
{
    for (_, value) in vars.iter() {
        if value.bytes().len() > VALUE_LIMIT {
            return false;
        }
    }
    true
}

/// Returns the map of the variables. Refuses two variables of the same name, and then a value over
/// `VALUE_LIMIT`.
fn fitting_map(
    alloc: Global,
    vars: Vec<(VarName, Text)>,
) -> Result<OrRefusal<BTreeMap<VarName, Text>>, NoMem>
    ensures { IfOk result (λ read. seen (λ values. map.from_entries values.entries) read
        ≡ vars_of_entries vars.items) }
{
    let Some(values) = var_map(alloc, vars)? else {
        return Ok(Err(Refusal::WrongShape(Part::Sessions)));
    };
    if !values_fit(&values) {
        return Ok(Err(Refusal::OverLimit));
    }
    Ok(Ok(values))
}

/// Reads the variables of a session.
#[tactic(auto, unfolding(crate::specs::SessionsPart::vars_of))]
fn vars_in(alloc: Global, value: &Value<'_>) -> Result<OrRefusal<BTreeMap<VarName, Text>>, NoMem>
    ensures { IfOk result (λ read. seen (λ values. map.from_entries values.entries) read
        ≡ vars_of (value_data value.now)) }
{
    let items = accepted!(cells(Part::Sessions, value));
    let vars = accepted!(read_vars(alloc, items)?);
    fitting_map(alloc, vars)
}

/// Reads a session from its working directory, its status and its variables, or returns their
/// worst refusal.
fn session_in(
    alloc: Global,
    cwd: &Value<'_>,
    status: &Value<'_>,
    vars: &Value<'_>,
) -> Result<OrRefusal<SessionParts>, NoMem>
    ensures { IfOk result (λ session. seen session_view session
        ≡ session_in (value_data cwd.now) (value_data status.now) (value_data vars.now)) }
{
    let cwd = path_in(alloc, Part::Sessions, cwd)?;
    let status = u8_in(Part::Sessions, status);
    let (cwd, (status, vars)) = accepted!(both(cwd, both(status, vars_in(alloc, vars)?)));
    Ok(Ok(SessionParts { cwd, status, vars }))
}

/// Reads a row from the items of its array.
fn row_of_cells(alloc: Global, cells: &[Value<'_>]) -> Result<OrRefusal<Row>, NoMem>
    ensures { IfOk result (λ row. seen row_view row ≡ row_cells (map value_data cells.now)) }
{
    let [sid, cwd, status, vars] = cells else {
        return Ok(Err(Refusal::WrongShape(Part::Sessions)));
    };
    let sid = accepted!(u32_in(Part::Sessions, sid));
    let session = session_in(alloc, cwd, status, vars)?;
    Ok(Ok(Row { sid, session }))
}

/// Reads a row of the sessions. A fault of the session itself is kept in the row, so that the rows'
/// numbers can be compared first.
#[tactic(auto, unfolding(crate::specs::SessionsPart::row_of))]
pub fn read_session_row(alloc: Global, value: &Value<'_>) -> Result<OrRefusal<Row>, NoMem>
    ensures { IfOk result (λ row. seen row_view row ≡ row_of (value_data value.now)) }
{
    row_of_cells(alloc, accepted!(cells(Part::Sessions, value)))
}

/// Reads a row, and frees its value.
fn take_row(alloc: Global, value: Value<'_>) -> Result<OrRefusal<Row>, NoMem>
    ensures { IfOk result (λ row. seen row_view row ≡ row_of (value_data value.entry)) }
{
    read_session_row(alloc, &value)
}

/// Reads the rows that are left of an array, or returns the worst refusal of their shapes and
/// numbers.
fn read_rows(
    alloc: Global,
    reader: &mut Reader<'_>,
    depth: usize,
) -> Result<OrRefusal<Vec<Row>>, ReadError>
    ensures value { IfOk result (λ rows.
        IsReadOf row_of depth reader.old reader.new (seen (λ v. map row_view v.items) rows)) }
    ensures not_json { result ≡ Err NotJson → items_left depth reader.old ≡ None }
{
    let mut rows = Ok(Vec::new(alloc));
    'items: while let Some(item) = next_item(alloc, reader, depth)? {
        let row = take_row(alloc, item)?;
        rows = with_item(rows, row)?;
    }
    Ok(rows)
}

/// Reads the rows of sessions from the next value of a text, one after another, or returns the
/// worst refusal of their shapes and numbers.
pub fn read_session_rows(
    alloc: Global,
    reader: &mut Reader<'_>,
    depth: usize,
) -> Result<OrRefusal<Vec<Row>>, ReadError>
    requires { 0 < depth }
    ensures value { IfOk result (λ rows. (d : Data)
        × (value_left depth reader.old ≡ Some (d, reader.new))
        × (seen (λ v. map row_view v.items) rows ≡ session_rows d)) }
    ensures not_json { result ≡ Err NotJson → value_left depth reader.old ≡ None }
{
    if begins_array(alloc, reader, depth)? {
        read_rows(alloc, reader, depth - 1)
    } else {
        Ok(Err(Refusal::WrongShape(Part::Sessions)))
    }
}

/// Returns whether all rows have different numbers.
fn are_distinct(alloc: Global, rows: &[Row]) -> Result<bool, NoMem>
    ensures { IfOk result (λ distinct. distinct
        ≡ are_distinct nat_cmp (keys_of (map row_view rows.now))) }
{
    let mut sids = BTreeSet::new(alloc);
    for row in rows {
        if !sids.insert(row.sid)? {
            return Ok(false);
        }
    }
    Ok(true)
}

/// Returns the state with the session of a row added, or the worse of the refusals of the state
/// and the session.
fn with_row(state: OrRefusal<State>, row: Row) -> Result<OrRefusal<State>, NoMem>
    ensures { IfOk result (λ more. more ≡ seen (λ p. put_session row.sid p.1 p.0)
        (both state (seen session_view row.session))) }
{
    let (mut state, session) = accepted!(both(state, row.session));
    let SessionParts { cwd, status, vars } = session;
    state.add_session(row.sid, cwd, status, vars)?;
    Ok(Ok(state))
}

/// Returns a state without sessions, with the sessions of these rows added, or the worst refusal
/// of the sessions.
fn state_with_rows(state: State, rows: Vec<Row>) -> Result<OrRefusal<State>, NoMem>
    requires none { state.sessions ≡ map.empty }
    requires distinct { are_distinct nat_cmp (keys_of (map row_view rows.items)) ≡ true }
    ensures value { IfOk result (λ whole. seen (λ s. s.sessions) whole
        ≡ sessions_of_rows (map row_view rows.items)) }
    ensures tree { IfOk result (λ whole. IfOk whole (λ s. s.tree ≡ state.tree)) }
{
    let mut whole = Ok(state);
    for row in rows {
        whole = with_row(whole, row)?;
    }
    Ok(whole)
}

/// Adds the sessions of these rows to a state without sessions, and returns that state. Refuses a
/// number that is listed twice, and then a session that breaks a limit. The tree is unchanged.
pub fn with_sessions(alloc: Global, state: State, rows: Vec<Row>) -> Result<State, LogFault>
    requires none { state.sessions ≡ map.empty }
    requires tree { is_lawful_tree state.tree ≡ true }
    requires read { (d : Data) × (Ok (map row_view rows.items) ≡ session_rows d) }
    ensures value { ReadsAs (λ s. s.sessions) result
        (sessions_of_all (map row_view rows.items)) }
    ensures tree { IfOk result (λ s. s.tree ≡ state.tree) }
    ensures lawful { IfOk result (λ s. are_lawful_sessions s.sessions ≡ true) }
{
    if !are_distinct(alloc, rows.as_slice())? {
        return Err(LogFault::Refused(Refusal::WrongShape(Part::Sessions)));
    }
    Ok(state_with_rows(state, rows)??)
}
