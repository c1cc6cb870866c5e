//! Places: what lines are found by.
ghost use Rattle.std.specs.Prelude.{◌≡◌, ◌∷◌, [], IfOk};
ghost use Rattle.retro_tree.specs.declared.cell.Cell.TheVariants.{At};
ghost use Rattle.casebook_cause.specs.declared.place.SearchPlace.TheVariants as PlaceOf;
ghost use Rattle.casebook_cause.specs.inner.Places.{places_for};

use retro_tree::{Ask, Cell, NoMem, Path};
use std::alloc::Global;

/// Cells that are looked up together.
#[derive(Drop, PartialEq, Eq, PartialOrd, Ord)]
pub(crate) enum SearchPlace {
    /// One cell.
    Cell(Cell),
    /// The cells of the children of a path.
    ChildrenOf(Path),
}

impl SearchPlace {
    /// Returns a copy.
    pub(crate) fn copy(&self) -> Result<SearchPlace, NoMem>
        ensures { IfOk result (λ copy. copy ≡ self.now) }
    {
        match self {
            SearchPlace::Cell(cell) => Ok(SearchPlace::Cell(cell.copy()?)),
            SearchPlace::ChildrenOf(path) => Ok(SearchPlace::ChildrenOf(path.copy()?)),
        }
    }
}

/// Returns one place.
fn one_place(alloc: Global, place: SearchPlace) -> Result<Vec<SearchPlace>, NoMem>
    ensures { IfOk result (λ places. places.items ≡ place ∷ []) }
{
    let mut places = Vec::new(alloc);
    places.push(place)?;
    Ok(places)
}

/// Returns two places.
fn two_places(alloc: Global, one: SearchPlace, two: SearchPlace) -> Result<Vec<SearchPlace>, NoMem>
    ensures { IfOk result (λ places. places.items ≡ one ∷ two ∷ []) }
{
    let mut places = Vec::new(alloc);
    places.push(one)?;
    places.push(two)?;
    Ok(places)
}

/// Returns the cell of a path.
fn at(path: &Path) -> Result<SearchPlace, NoMem>
    ensures { IfOk result (λ place. place ≡ PlaceOf.Cell (At path.now)) }
{
    Ok(SearchPlace::Cell(Cell::At(path.copy()?)))
}

/// Returns the places of the cells on which the answer to a query can depend.
pub(crate) fn places_for(alloc: Global, ask: &Ask) -> Result<Vec<SearchPlace>, NoMem>
    ensures { IfOk result (λ places. places.items ≡ places_for ask.now) }
{
    match ask {
        Ask::Kind(path) | Ask::Bytes(path) => one_place(alloc, at(path)?),
        Ask::Names(path) => two_places(alloc, at(path)?, SearchPlace::ChildrenOf(path.copy()?)),
        Ask::CanWrite(path, _) => two_places(alloc, at(path)?, at(&path.parent(alloc)?)?),
        Ask::User(_) => one_place(alloc, at(&Path::passwd(alloc)?)?),
        Ask::VarOf(sid, name) => one_place(alloc, SearchPlace::Cell(Cell::Var(*sid, name.copy()?))),
        Ask::CwdOf(sid) => one_place(alloc, SearchPlace::Cell(Cell::Cwd(*sid))),
        Ask::StatusOf(sid) => one_place(alloc, SearchPlace::Cell(Cell::Status(*sid))),
    }
}
