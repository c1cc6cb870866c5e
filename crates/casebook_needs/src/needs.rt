//! The needs of a line.
ghost use Rattle.std.specs.Prelude.{◌≡◌, ◌++◌, IfOk, map};
ghost use Rattle.casebook_needs.specs.Line.{line_value};
ghost use Rattle.casebook_needs.specs.Needs.{need_of, needs_of};

use crate::NoMem;
use crate::need::Need;
use crate::observed_line::ObservedLine;
use crate::query::Query;
use crate::rules::asked_of;
use crate::source::Source;
use retro_tree::View;
use std::alloc::Global;

/// Returns a query about a session with its answer.
fn need_of<V: View>(
    alloc: Global,
    view: &V,
    session: u32,
    query: Query,
    source: Source,
) -> Result<Need, NoMem>
    ensures { IfOk result (λ need.
        need ≡ need_of session (V.state view.now) (query, source)) }
{
    let ask = query.into_ask(session);
    let answer = view.answer(alloc, &ask)?;
    Ok(Need {
        ask,
        answer,
        source,
    })
}

/// Returns the needs of a line that began in the state of a view: the queries on whose answers it
/// can depend, with the answers of that state, and each with its first source. Each query is there
/// once.
#[tactic(auto, unfolding(crate::specs::Needs::needs_of))]
pub fn needs_of<V: View>(
    alloc: Global,
    view: &V,
    line: &ObservedLine<'_>,
) -> Result<Vec<Need>, NoMem>
    ensures { IfOk result (λ needs. needs.items ≡ needs_of (V.state view.now) (line_value line.now)) }
{
    let mut needs = Vec::new(alloc);
    for (query, source) in asked_of(alloc, view, line)? {
        needs.push(need_of(alloc, view, line.session, query, source)?)?;
    }
    Ok(needs)
}
