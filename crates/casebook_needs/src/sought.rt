//! Queries that are found, each once.
ghost use Rattle.std.specs.Prelude.{◌≡◌, [], IfOk};
ghost use Rattle.casebook_needs.specs.Needs.{names_at, nodes_at, same_query};
ghost use Rattle.casebook_needs.specs.inner.Steps.{with_item, with_items};

use crate::NoMem;
use crate::query::Query;
use crate::source::Source;
use retro_path::Path;
use std::alloc::Global;
use std::collections::BTreeSet;
use std::marker::Model;

/// Queries with their sources, in the order in which they were found. Each query is there once,
/// with its first source.
#[derive(Drop)]
pub(crate) struct Sought {
    found: Vec<(Query, Source)>,
    queries: BTreeSet<Query>,
}

impl Model for Sought {
    ghost use Rattle.std.specs.Prelude.{List};
    ghost use Rattle.casebook_needs.specs.declared.query.Query.{Query};
    ghost use Rattle.casebook_needs.specs.declared.source.Source.{Source};
    ghost use Rattle.casebook_needs.specs.inner.Sets.{HasQueries};

    ghost Value = { List (Query × Source) };

    ghost view = { λ a. a.found.items };

    ghost invariant = { λ a. HasQueries a.queries a.found.items };
}

impl Sought {
    /// Returns no queries. Takes no memory.
    pub(crate) fn new(alloc: Global) -> Sought
        ensures { result ≡ [] }
    {
        Sought {
            found: Vec::new(alloc),
            queries: BTreeSet::new(alloc),
        }
    }

    /// Adds a query with its source, unless the query is there.
    pub(crate) fn add(self, query: Query, source: Source) -> Result<Sought, NoMem>
        ensures { IfOk result (λ sought. sought ≡ with_item same_query self (query, source)) }
    {
        if self.queries.contains(&query) {
            return Ok(self);
        }
        let Sought {
            mut found,
            mut queries,
        } = self;
        queries.insert(query.copy()?)?;
        found.push((query, source))?;
        Ok(Sought { found, queries })
    }

    /// Adds the queries of the nodes at paths.
    pub(crate) fn add_nodes(self, paths: &[Path], source: &Source) -> Result<Sought, NoMem>
        ensures { IfOk result (λ sought.
            sought ≡ with_items same_query self (nodes_at paths.now source.now)) }
    {
        let mut sought = self;
        for path in paths {
            sought = sought.add(Query::Bytes(path.copy()?), source.copy()?)?;
        }
        Ok(sought)
    }

    /// Adds the queries of the names in directories.
    pub(crate) fn add_names(self, paths: &[Path], source: &Source) -> Result<Sought, NoMem>
        ensures { IfOk result (λ sought.
            sought ≡ with_items same_query self (names_at paths.now source.now)) }
    {
        let mut sought = self;
        for path in paths {
            sought = sought.add(Query::Names(path.copy()?), source.copy()?)?;
        }
        Ok(sought)
    }

    /// Returns the queries with their sources, in order.
    pub(crate) fn into_vec(self) -> Vec<(Query, Source)>
        ensures { result.items ≡ self }
    {
        let Sought { found, queries: _ } = self;
        found
    }
}
