//! The combined state of a view and an overlay.
ghost use Rattle.std.specs.Prelude.{◌≡◌, ◌+◌, IfOk, length, min};
ghost use Rattle.std.specs.Option.{option_copied};
ghost use Rattle.std.specs.FinMap as map;
ghost use Rattle.retro_tree.specs.Node.{kind_of};
ghost use Rattle.retro_tree.specs.Tree.{node_in};
ghost use Rattle.retro_tree.specs.Session.{session_in};
ghost use Rattle.retro_tree.specs.State.{permit_of};
ghost use Rattle.retro_tree.specs.User.{user_in};
ghost use Rattle.retro_tree.specs.Path.{passwd};
ghost use Rattle.retro_tree.specs.Cell.{value};
ghost use Rattle.retro_tree.specs.Ask.{answer, listing, names_in};
ghost use Rattle.retro_tree.specs.Overlay.{Overlays};
ghost use Rattle.retro_tree.specs.inner.Marks.{overlay_from, children_tree, mark_entries};
ghost use Rattle.retro_tree.specs.declared.cell.Cell.TheVariants as Cell;
ghost use Rattle.retro_tree.specs.declared.state.State.{State};

use crate::answer::Answer;
use crate::ask::Ask;
use crate::cell::Cell;
use crate::kind::Kind;
use crate::node::Node;
use crate::overlay::Overlay;
use crate::overlay_entry::OverlayEntry;
use crate::permit::Permit;
use crate::tree::Tree;
use crate::user::{User, find_user};
use crate::value::Value;
use crate::view::View;
use retro_path::{Bytes, Listing, Name, NoMem, Path, Text, VarName};
use std::alloc::Global;

/// A view with an overlay on it. Its methods answer from the combined state, which is any state
/// `now` with `Overlays overlay (V.state view) now`.
#[derive(Drop)]
pub(crate) struct Combined<'a, V: View> {
    view: &'a V,
    overlay: &'a Overlay,
}

impl<'a, V: View> Combined<'a, V> {
    /// Combines a view and an overlay. Takes no memory.
    pub(crate) fn new(view: &'a V, overlay: &'a Overlay) -> Self
        ensures view { result.view.now ≡ view.now }
        ensures overlay { result.overlay.now ≡ overlay.now }
    {
        Combined { view, overlay }
    }

    /// Returns the entry of a path's cell, or `None` if the cell has no entry.
    fn entry(&self, path: &Path) -> Result<Option<&OverlayEntry>, NoMem>
        ensures { IfOk result (λ entry.
            option_copied entry ≡ map.get self.now.overlay.now (Cell.At path.now)) }
    {
        Ok(self.overlay.get(&Cell::At(path.copy()?)))
    }

    /// Returns the node at a path of the view's state.
    #[tactic(auto, unfolding(crate::specs::Ask::answer))]
    fn view_node(&self, alloc: Global, path: &Path) -> Result<Node, NoMem>
        ensures { IfOk result (λ node.
            node ≡ node_in path.now (V.state self.now.view.now).tree) }
    {
        match self.view.answer(alloc, &Ask::Bytes(path.copy()?))? {
            Answer::Bytes(node) => Ok(node),
            _ => unreachable!(),
        }
    }

    /// Returns the kind of the node at a path of the view's state.
    #[tactic(auto, unfolding(crate::specs::Ask::answer))]
    fn view_kind(&self, alloc: Global, path: &Path) -> Result<Kind, NoMem>
        ensures { IfOk result (λ kind.
            kind ≡ kind_of (node_in path.now (V.state self.now.view.now).tree)) }
    {
        match self.view.answer(alloc, &Ask::Kind(path.copy()?))? {
            Answer::Kind(kind) => Ok(kind),
            _ => unreachable!(),
        }
    }

    /// Returns whether `more` bytes can be appended to the file at a path of the view's state.
    #[tactic(auto, unfolding(crate::specs::Ask::answer))]
    fn view_permit(&self, alloc: Global, path: &Path, more: u32) -> Result<Permit, NoMem>
        ensures { IfOk result (λ permit.
            permit ≡ permit_of path.now more (V.state self.now.view.now)) }
    {
        match self.view.answer(alloc, &Ask::CanWrite(path.copy()?, more))? {
            Answer::CanWrite(permit) => Ok(permit),
            _ => unreachable!(),
        }
    }

    /// Returns the user with a login name in the view's state, or `None` if there is none.
    #[tactic(auto, unfolding(crate::specs::Ask::answer))]
    fn view_user(&self, alloc: Global, name: &Text) -> Result<Option<User>, NoMem>
        ensures { IfOk result (λ user. user
            ≡ user_in name.now (node_in passwd (V.state self.now.view.now).tree)) }
    {
        match self.view.answer(alloc, &Ask::User(name.copy()?))? {
            Answer::User(user) => Ok(user),
            _ => unreachable!(),
        }
    }

    /// Returns the node at a path.
    #[tactic(auto, unfolding(crate::specs::Cell::value))]
    fn node(&self, alloc: Global, path: &Path) -> Result<Node, NoMem>
        ensures { IfOk result (λ node. (now : State)
            → Overlays self.now.overlay.now (V.state self.now.view.now) now
            → node ≡ node_in path.now now.tree) }
    {
        match self.entry(path)? {
            Some(OverlayEntry::Value(Value::Node(node))) => Ok(node.copy()?),
            Some(OverlayEntry::Growth(bytes)) => {
                let mut node = self.view_node(alloc, path)?;
                node.grow(bytes)?;
                Ok(node)
            }
            Some(OverlayEntry::Value(_)) | None => self.view_node(alloc, path),
        }
    }

    /// Returns the kind of the node at a path.
    #[tactic(auto, using(crate::proofs::Answering::kinds), unfolding(crate::specs::Cell::value))]
    fn kind(&self, alloc: Global, path: &Path) -> Result<Kind, NoMem>
        ensures { IfOk result (λ kind. (now : State)
            → Overlays self.now.overlay.now (V.state self.now.view.now) now
            → kind ≡ kind_of (node_in path.now now.tree)) }
    {
        match self.entry(path)? {
            Some(OverlayEntry::Value(Value::Node(node))) => Ok(node.kind()),
            Some(OverlayEntry::Growth(_)) => Ok(self.view_kind(alloc, path)?.after_growth()),
            Some(OverlayEntry::Value(_)) | None => self.view_kind(alloc, path),
        }
    }

    /// Returns whether `more` bytes can be appended to the file at a path. Of the parent, queries
    /// only the kind. An entry of the path is read in place. If it is a growth, its bytes count
    /// with those that are to be appended.
    #[tactic(auto, using(crate::proofs::Answering::permits), unfolding(crate::specs::Cell::value))]
    fn permit(&self, alloc: Global, path: &Path, more: u32) -> Result<Permit, NoMem>
        ensures { IfOk result (λ permit. (now : State)
            → Overlays self.now.overlay.now (V.state self.now.view.now) now
            → permit ≡ permit_of path.now more now) }
    {
        let parent = path.parent(alloc)?;
        let entry = self.entry(path)?;
        if self.entry(&parent)?.is_none() {
            match entry {
                Some(OverlayEntry::Value(_)) => (),
                Some(OverlayEntry::Growth(bytes)) => {
                    return self.view_permit(alloc, path, with_more(bytes, more));
                }
                None => return self.view_permit(alloc, path, more),
            }
        }
        let above = self.kind(alloc, &parent)?;
        let more = u64::from(more);
        if let Some(OverlayEntry::Value(Value::Node(node))) = entry {
            return Ok(Permit::of(node.kind(), node.size(), above, more));
        }
        let node = self.node(alloc, path)?;
        Ok(Permit::of(node.kind(), node.size(), above, more))
    }

    /// Returns the value of a variable, or `None` if it isn't set.
    #[tactic(auto, unfolding(crate::specs::Ask::answer, crate::specs::Cell::value))]
    fn var(&self, alloc: Global, sid: u32, name: &VarName) -> Result<Option<Text>, NoMem>
        ensures { IfOk result (λ text. (now : State)
            → Overlays self.now.overlay.now (V.state self.now.view.now) now
            → text ≡ map.get (session_in sid now.sessions).vars name.now) }
    {
        let cell = Cell::Var(sid, name.copy()?);
        if let Some(OverlayEntry::Value(Value::Text(text))) = self.overlay.get(&cell) {
            return Ok(text.clone()?);
        }
        match self.view.answer(alloc, &Ask::VarOf(sid, name.copy()?))? {
            Answer::Var(text) => Ok(text),
            _ => unreachable!(),
        }
    }

    /// Returns the directory of a session.
    #[tactic(auto, unfolding(crate::specs::Ask::answer, crate::specs::Cell::value))]
    fn cwd(&self, alloc: Global, sid: u32) -> Result<Path, NoMem>
        ensures { IfOk result (λ cwd. (now : State)
            → Overlays self.now.overlay.now (V.state self.now.view.now) now
            → cwd ≡ (session_in sid now.sessions).cwd) }
    {
        if let Some(OverlayEntry::Value(Value::Cwd(path))) = self.overlay.get(&Cell::Cwd(sid)) {
            return Ok(path.copy()?);
        }
        match self.view.answer(alloc, &Ask::CwdOf(sid))? {
            Answer::Cwd(path) => Ok(path),
            _ => unreachable!(),
        }
    }

    /// Returns the status of a session.
    #[tactic(auto, unfolding(crate::specs::Ask::answer, crate::specs::Cell::value))]
    fn status(&self, alloc: Global, sid: u32) -> Result<u8, NoMem>
        ensures { IfOk result (λ status. (now : State)
            → Overlays self.now.overlay.now (V.state self.now.view.now) now
            → status ≡ (session_in sid now.sessions).status) }
    {
        let entry = self.overlay.get(&Cell::Status(sid));
        if let Some(OverlayEntry::Value(Value::Status(status))) = entry {
            return Ok(*status);
        }
        match self.view.answer(alloc, &Ask::StatusOf(sid))? {
            Answer::Status(status) => Ok(status),
            _ => unreachable!(),
        }
    }

    /// Returns the user with a login name, or `None` if there is none.
    #[tactic(auto, unfolding(crate::specs::Ask::answer, crate::specs::Cell::value))]
    fn user(&self, alloc: Global, name: &Text) -> Result<Option<User>, NoMem>
        ensures { IfOk result (λ user. (now : State)
            → Overlays self.now.overlay.now (V.state self.now.view.now) now
            → user ≡ user_in name.now (node_in passwd now.tree)) }
    {
        let path = Path::passwd(alloc)?;
        match self.entry(&path)? {
            Some(OverlayEntry::Value(Value::Node(node))) => user_of(alloc, name, node),
            Some(OverlayEntry::Growth(_)) => {
                let node = self.node(alloc, &path)?;
                user_of(alloc, name, &node)
            }
            Some(OverlayEntry::Value(_)) | None => self.view_user(alloc, name),
        }
    }

    /// Returns the answer to a query.
    #[tactic(auto, unfolding(crate::specs::Ask::answer))]
    pub(crate) fn answer(&self, alloc: Global, ask: &Ask) -> Result<Answer, NoMem>
        ensures { IfOk result (λ a. (now : State)
            → Overlays self.now.overlay.now (V.state self.now.view.now) now
            → a ≡ answer ask.now now) }
    {
        match ask {
            Ask::Kind(path) => Ok(Answer::Kind(self.kind(alloc, path)?)),
            Ask::Bytes(path) => Ok(Answer::Bytes(self.node(alloc, path)?)),
            Ask::Names(path) => Ok(Answer::Names(self.listing(alloc, path)?)),
            Ask::CanWrite(path, more) => Ok(Answer::CanWrite(self.permit(alloc, path, *more)?)),
            Ask::User(name) => Ok(Answer::User(self.user(alloc, name)?)),
            Ask::VarOf(sid, name) => Ok(Answer::Var(self.var(alloc, *sid, name)?)),
            Ask::CwdOf(sid) => Ok(Answer::Cwd(self.cwd(alloc, *sid)?)),
            Ask::StatusOf(sid) => Ok(Answer::Status(self.status(alloc, *sid)?)),
        }
    }

    /// Returns the value of a cell.
    #[tactic(auto, unfolding(crate::specs::Cell::value))]
    pub(crate) fn value(&self, alloc: Global, cell: &Cell) -> Result<Value, NoMem>
        ensures { IfOk result (λ held. (now : State)
            → Overlays self.now.overlay.now (V.state self.now.view.now) now
            → held ≡ value cell.now now) }
    {
        match cell {
            Cell::At(path) => Ok(Value::Node(self.node(alloc, path)?)),
            Cell::Cwd(sid) => Ok(Value::Cwd(self.cwd(alloc, *sid)?)),
            Cell::Var(sid, name) => Ok(Value::Text(self.var(alloc, *sid, name)?)),
            Cell::Status(sid) => Ok(Value::Status(self.status(alloc, *sid)?)),
        }
    }

    /// Returns the names of the children of a path, in byte order, whatever node is at the path
    /// itself.
    pub(crate) fn children(&self, alloc: Global, path: &Path) -> Result<Listing, NoMem>
        ensures { IfOk result (λ names. (now : State)
            → Overlays self.now.overlay.now (V.state self.now.view.now) now
            → names ≡ names_in path.now now.tree) }
    {
        let below = self.view.children(alloc, path)?;
        if !self.overlay.has_entry_below(path)? {
            return Ok(below);
        }
        let tree = children_tree(alloc, path, below.names())?;
        let children = self.mark(alloc, tree, path)?;
        Ok(children.names(alloc, path)?)
    }

    /// Returns the names of the children of a directory, or `None` if the path isn't a directory.
    fn listing(&self, alloc: Global, path: &Path) -> Result<Option<Listing>, NoMem>
        ensures { IfOk result (λ names. (now : State)
            → Overlays self.now.overlay.now (V.state self.now.view.now) now
            → names ≡ listing (node_in path.now now.tree) (names_in path.now now.tree)) }
    {
        match self.kind(alloc, path)? {
            Kind::Dir => Ok(Some(self.children(alloc, path)?)),
            Kind::Missing | Kind::File => Ok(None),
        }
    }

    /// Marks in a tree the children of a path that have entries: puts a directory for each one that
    /// exists, and removes each one that is missing. Seeks past the entries below a child.
    fn mark(&self, alloc: Global, tree: Tree, path: &Path) -> Result<Tree, NoMem>
        ensures { IfOk result (λ marked. marked ≡ mark_entries path.now
            (overlay_from (Cell.At path.now) self.now.overlay.now) tree) }
    {
        let mut tree = tree;
        let start = Cell::At(path.copy()?);
        let mut rest = self.overlay.from(&start);
        while let Some((cell, entry)) = rest.next() {
            let Cell::At(at) = cell else { break };
            if !at.starts_with(path) {
                break;
            }
            if at.is_child_of(path) {
                if let Some(mark) = entry.mark() {
                    tree.put(at.copy()?, mark)?;
                }
            } else if let Some(after) = at.after_child(alloc, path)? {
                rest = self.overlay.from(&Cell::At(after));
            }
        }
        Ok(tree)
    }
}

/// Returns a small tree with a directory for each child of a path.
fn children_tree(alloc: Global, path: &Path, names: &[Name]) -> Result<Tree, NoMem>
    ensures { IfOk result (λ tree. tree ≡ children_tree path.now names.now map.empty) }
{
    let mut tree = Tree::new(alloc);
    for name in names {
        tree.put(path.child(alloc, name)?, Node::Dir)?;
    }
    Ok(tree)
}

/// Returns the number of these bytes and `more`, or `u32::MAX` if it is greater. Both exceed
/// `FILE_LIMIT` then.
fn with_more(bytes: &Bytes, more: u32) -> u32
    ensures { result ≡ min (length bytes.now + more) 4294967295 }
{
    match u32::try_from(bytes.len()) {
        Ok(length) => length.saturating_add(more),
        Err(_) => u32::MAX,
    }
}

/// Returns the user with a login name, if the node is the password file.
fn user_of(alloc: Global, name: &Text, node: &Node) -> Result<Option<User>, NoMem>
    ensures { IfOk result (λ user. user ≡ user_in name.now node.now) }
{
    match node {
        Node::File(bytes) => find_user(alloc, name, bytes.as_slice()),
        Node::Missing | Node::Dir => Ok(None),
    }
}
