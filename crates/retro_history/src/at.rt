//! The recorded state before a line.
ghost use Rattle.std.specs.Prelude.{◌≡◌, IfOk};
ghost use Rattle.std.specs.FinMap as map;
ghost use Rattle.retro_tree.specs.Ask.{answer, listing, names_in};
ghost use Rattle.retro_tree.specs.Cell.{value};
ghost use Rattle.retro_tree.specs.Node.{kind_of, permit_at};
ghost use Rattle.retro_tree.specs.Session.{session_in};
ghost use Rattle.retro_tree.specs.Tree.{node_in};
ghost use Rattle.retro_tree.specs.State.{permit_of};
ghost use Rattle.retro_tree.specs.User.{user_in};
ghost use Rattle.retro_tree.specs.Path.{passwd};
ghost use Rattle.retro_tree.specs.declared.node.Node.{Node as NodeValue};
ghost use Rattle.retro_tree.specs.declared.value.Value.TheVariants.{Node as OfNode};
ghost use Rattle.retro_tree.specs.ValueRef.{ref_value};

use crate::history::History;
use retro_tree::{
    Answer, Ask, Bytes, Cell, Cells, FILE_LIMIT, Kind, Listing, NoMem, Node, Path, Permit, Text,
    User, ValueRef, VarName, View, find_user,
};
use std::alloc::Global;
use std::marker::Model;

/// The recorded state before a line: the state after all lines with lesser numbers.
#[derive(Drop)]
pub struct At<'h, 'a> {
    history: &'h History<'a>,
    number: u32,
}

impl<'h, 'a> Model for At<'h, 'a> {
    ghost use Rattle.retro_tree.specs.declared.state.State.{State};
    ghost use Rattle.retro_keep.specs.inner.ScriptCode.{coded_state};
    ghost use Rattle.retro_keep.specs.Recorded.{recorded_before};

    ghost Value = { State };

    ghost coded = { coded_state };

    ghost view = { λ a. recorded_before a.number a.history.now };
}

impl<'h, 'a> At<'h, 'a> {
    ghost use Rattle.retro_keep.specs.Recorded.{recorded_before};

    /// Returns the recorded state before the line with the given number. Takes no memory.
    pub(crate) fn new(history: &'h History<'a>, number: u32) -> At<'h, 'a>
        ensures { result ≡ recorded_before number history.now }
    {
        At { history, number }
    }

    /// Borrows the value of a cell.
    fn cell(&self, cell: &Cell) -> ValueRef<'h>
        ensures { ref_value result ≡ value cell.now self.now }
    {
        self.history.get(cell, self.number)
    }

    /// Borrows the node at a path.
    #[tactic(auto, unfolding(retro_tree::specs::Cell::value))]
    fn node(&self, path: &Path) -> Result<ValueRef<'h>, NoMem>
        ensures { IfOk result (λ node. ref_value node ≡ OfNode (node_in path.now self.now.tree)) }
    {
        Ok(self.cell(&Cell::At(path.copy()?)))
    }

    /// Returns whether `more` bytes can be appended to the file at a path.
    fn permit(&self, alloc: Global, path: &Path, more: u32) -> Result<Permit, NoMem>
        ensures { IfOk result (λ permit. permit ≡ permit_of path.now more self.now) }
    {
        let parent = path.parent(alloc)?;
        let above = kind(self.node(&parent)?);
        Ok(permit(self.node(path)?, above, u64::from(more)))
    }

    /// Returns the names of the children of a directory, or `None` if the path isn't a directory.
    pub(crate) fn listing(&self, alloc: Global, path: &Path) -> Result<Option<Listing>, NoMem>
        ensures { IfOk result (λ names.
            names ≡ listing (node_in path.now self.now.tree) (names_in path.now self.now.tree)) }
    {
        match self.node(path)? {
            ValueRef::Dir => Ok(Some(self.history.children(alloc, path, self.number)?)),
            _ => Ok(None),
        }
    }

    /// Returns the user with a login name, or `None` if there is none.
    pub(crate) fn user(&self, alloc: Global, name: &Text) -> Result<Option<User>, NoMem>
        ensures { IfOk result (λ user. user
            ≡ user_in name.now (node_in passwd self.now.tree)) }
    {
        match self.node(&Path::passwd(alloc)?)? {
            ValueRef::File(bytes) => find_user(alloc, name, bytes),
            _ => Ok(None),
        }
    }

    /// Returns the value of a variable, or `None` if it isn't set.
    #[tactic(auto, unfolding(retro_tree::specs::Cell::value))]
    fn var(&self, sid: u32, name: &VarName) -> Result<Option<Text>, NoMem>
        ensures { IfOk result (λ text. text
            ≡ map.get (session_in sid self.now.sessions).vars name.now) }
    {
        match self.cell(&Cell::Var(sid, name.copy()?)) {
            ValueRef::Text(text) => Ok(Some(text.copy()?)),
            _ => Ok(None),
        }
    }

    /// Returns the directory of a session.
    #[tactic(auto, unfolding(retro_tree::specs::Cell::value))]
    fn cwd(&self, alloc: Global, sid: u32) -> Result<Path, NoMem>
        ensures { IfOk result (λ cwd. cwd ≡ (session_in sid self.now.sessions).cwd) }
    {
        match self.cell(&Cell::Cwd(sid)) {
            ValueRef::Cwd(path) => Ok(path.copy()?),
            _ => Ok(Path::root(alloc)),
        }
    }

    /// Returns the status of a session.
    #[tactic(auto, unfolding(retro_tree::specs::Cell::value))]
    fn status(&self, sid: u32) -> u8
        ensures { result ≡ (session_in sid self.now.sessions).status }
    {
        match self.cell(&Cell::Status(sid)) {
            ValueRef::Status(status) => status,
            _ => unreachable!(),
        }
    }
}

impl<'h, 'a> Cells for At<'h, 'a> {
    ghost state = { λ s. s };

    fn get(&self, cell: &Cell) -> ValueRef<'_> {
        self.cell(cell)
    }
}

impl<'h, 'a> View for At<'h, 'a> {
    ghost state = { λ s. s };

    #[tactic(auto, unfolding(retro_tree::specs::Ask::answer))]
    fn answer(&self, alloc: Global, ask: &Ask) -> Result<Answer, NoMem> {
        match ask {
            Ask::Kind(path) => Ok(Answer::Kind(kind(self.node(path)?))),
            Ask::Bytes(path) => Ok(Answer::Bytes(to_node(alloc, self.node(path)?)?)),
            Ask::Names(path) => Ok(Answer::Names(self.listing(alloc, path)?)),
            Ask::CanWrite(path, more) => Ok(Answer::CanWrite(self.permit(alloc, path, *more)?)),
            Ask::User(name) => Ok(Answer::User(self.user(alloc, name)?)),
            Ask::VarOf(sid, name) => Ok(Answer::Var(self.var(*sid, name)?)),
            Ask::CwdOf(sid) => Ok(Answer::Cwd(self.cwd(alloc, *sid)?)),
            Ask::StatusOf(sid) => Ok(Answer::Status(self.status(*sid))),
        }
    }

    fn children(&self, alloc: Global, path: &Path) -> Result<Listing, NoMem> {
        self.history.children(alloc, path, self.number)
    }
}

/// Returns the kind of a borrowed node.
fn kind(node: ValueRef<'_>) -> Kind
    ensures { (n : NodeValue) → ref_value node.entry ≡ OfNode n → result ≡ kind_of n }
{
    match node {
        ValueRef::Dir => Kind::Dir,
        ValueRef::File(_) => Kind::File,
        _ => Kind::Missing,
    }
}

/// Returns a copy of a borrowed node.
fn to_node(alloc: Global, node: ValueRef<'_>) -> Result<Node, NoMem>
    ensures { IfOk result (λ copy. (n : NodeValue) → ref_value node.entry ≡ OfNode n → copy ≡ n) }
{
    match node {
        ValueRef::Dir => Ok(Node::Dir),
        ValueRef::File(bytes) => {
            let mut copy = Bytes::new(alloc);
            copy.extend(bytes)?;
            Ok(Node::File(copy))
        }
        _ => Ok(Node::Missing),
    }
}

/// Returns whether `more` bytes can be appended to a node whose parent has the given kind.
fn permit(node: ValueRef<'_>, parent: Kind, more: u64) -> Permit
    ensures { (n above : NodeValue) → ref_value node.entry ≡ OfNode n → parent ≡ kind_of above
        → result ≡ permit_at n above more }
{
    let size = match node {
        ValueRef::Dir => return Permit::IsDir,
        ValueRef::File(bytes) => bytes.len() as u64,
        _ => 0,
    };
    match parent {
        Kind::Missing => Permit::NoParent,
        Kind::File => Permit::NotDir,
        Kind::Dir => {
            if more > FILE_LIMIT || size > FILE_LIMIT - more {
                Permit::TooLarge
            } else {
                Permit::Yes
            }
        }
    }
}
