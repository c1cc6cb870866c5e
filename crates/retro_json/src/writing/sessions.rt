//! Makes the JSON value of the sessions of a state.
ghost use Rattle.std.specs.Prelude.{◌≡◌, IfOk, OnOk, true};
ghost use Rattle.serde_json.specs.View.{view};
ghost use Rattle.retro_json.specs.Values.{vars_data, session_data, sessions_data};
ghost use Rattle.retro_json.specs.Typed.{vars_typed, session_typed, sessions_typed};

use crate::writing::fields::path_text;
use retro_tree::{NoMem, Session, State, Vars};
use serde_json::{Value, json};
use std::alloc::Global;

/// Returns the value of variables: a list of `[name,value]`, in the order of names.
#[tactic(auto, unfolding(crate::specs::Values::vars_data, crate::specs::Typed::vars_typed))]
fn vars_value(alloc: Global, vars: &Vars) -> Result<Value, NoMem>
    ensures value { IfOk result (λ v. view v ≡ vars_data vars.now) }
    ensures typed { OnOk result (vars_typed vars.now ≡ true) }
{
    let mut rows = Vec::new(alloc);
    for (name, value) in vars.iter() {
        let row: Value = json!(in alloc; [name.as_str(), value.as_str()])?;
        rows.push(row)?;
    }
    Ok(Value::Array(rows))
}

/// Returns the value of a session: `[sid,cwd,status,[[name,value],..]]`.
#[tactic(auto, unfolding(crate::specs::Values::session_data, crate::specs::Typed::session_typed))]
fn session_value(alloc: Global, sid: u32, session: &Session) -> Result<Value, NoMem>
    ensures value { IfOk result (λ v. view v ≡ session_data (sid, session.now)) }
    ensures typed { OnOk result (session_typed (sid, session.now) ≡ true) }
{
    let cwd = path_text(alloc, &session.cwd)?;
    let vars = vars_value(alloc, &session.vars)?;
    json!(in alloc; [sid, cwd, session.status, vars])
}

/// Returns the value of the sessions of a state: a list of `[sid,cwd,status,[[name,value],..]]`,
/// in the order of numbers and, in each row, of names.
#[tactic(auto, unfolding(crate::specs::Values::sessions_data, crate::specs::Typed::sessions_typed))]
pub fn sessions_value(alloc: Global, state: &State) -> Result<Value, NoMem>
    ensures value { IfOk result (λ v. view v ≡ sessions_data state.now.sessions) }
    ensures typed { OnOk result (sessions_typed state.now.sessions ≡ true) }
{
    let mut rows = Vec::new(alloc);
    for (sid, session) in state.sessions().iter() {
        rows.push(session_value(alloc, *sid, session)?)?;
    }
    Ok(Value::Array(rows))
}
