//! Views with notes.
ghost use Rattle.std.specs.Prelude.{◌≡◌, ◌↔◌, ◌≤◌, ℕ, true, false, List, [], length, min, reverse};
ghost use Rattle.std.specs.Prelude.{IfOk, None, OnErr, OnOk, Some};
ghost use Rattle.std.specs.FinMap as map;
ghost use Rattle.retro_tree.specs.Ask.{answer, listing, names_in};
ghost use Rattle.retro_tree.specs.Change.{may_make, put_cwd, put_var};
ghost use Rattle.retro_tree.specs.Lawful.{IsLawful};
ghost use Rattle.retro_tree.specs.Node.{file_limit, kind_of};
ghost use Rattle.retro_tree.specs.Notes.{after, Holds, AllAllowed};
ghost use Rattle.retro_tree.specs.Path.{is_null, is_root, parent_of, passwd};
ghost use Rattle.retro_tree.specs.Resolving.{is_relative, resolve};
ghost use Rattle.retro_tree.specs.Session.{session_in, value_limit};
ghost use Rattle.retro_tree.specs.State.{grow_file, permit_of, put_node, put_status};
ghost use Rattle.retro_tree.specs.Tree.{node_in};
ghost use Rattle.retro_tree.specs.User.{user_in};
ghost use Rattle.retro_tree.specs.declared.answer.Answer.TheVariants as answers;
ghost use Rattle.retro_tree.specs.declared.answer.Answer.TheVariants.{Cwd};
ghost use Rattle.retro_tree.specs.declared.ask.Ask.TheVariants as asks;
ghost use Rattle.retro_tree.specs.declared.ask.Ask.TheVariants.{CwdOf};
ghost use Rattle.retro_tree.specs.declared.change.Change.TheVariants.{Put};
ghost use Rattle.retro_tree.specs.declared.node.Node.TheVariants.{Missing, Dir, File};
ghost use Rattle.retro_tree.specs.declared.note.Note.{Note as NoteValue};
ghost use Rattle.retro_tree.specs.declared.note.Note.TheVariants.{Asked, Made};
ghost use Rattle.retro_tree.specs.declared.permit.Permit.TheVariants.{Yes};
ghost use Rattle.retro_tree.specs.declared.state.State.{State};
ghost use Rattle.retro_local.specs.Runs.{Always, Computes, Extends, ExtendsTree, Transforms};
ghost use Rattle.retro_local.specs.Kinds.{kind_at};
ghost use Rattle.retro_local.specs.Trace.{AllHold, IsEarlier, IsOwn, asked_session};
ghost use Rattle.retro_local.specs.Trace.{changed_session, named_sessions, noted, reached};

use retro_tree::{
    Answer, Ask, Bytes, Change, Kind, Listing, NoMem, Node, Note, Notes, Overlay, Path, Permit,
    Resolved, Text, User, VarName, View, is_relative, resolve,
};
use std::alloc::Global;
use std::marker::Model;

/// A view with the notes made over it. It answers queries from the view's state after the noted
/// changes.
#[derive(Drop)]
pub struct Local<'a, V: View> {
    view: &'a V,
    overlay: Overlay,
    notes: Vec<Note>,
}

impl<'a, V: View> Model for Local<'a, V> {
    ghost use Rattle.std.specs.Prelude.{reverse};
    ghost use Rattle.retro_tree.specs.Overlay.{Overlays};
    ghost use Rattle.retro_local.specs.Trace.{AllHold, KeepsLaw, Trace, reached};
    ghost use Rattle.retro_local.specs.inner.TraceCode.{coded_trace};

    ghost Value = { Trace };

    ghost coded = { coded_trace };

    ghost view = { λ l. record { start = V.state l.view.now; notes = reverse l.notes.items } };

    ghost invariant = { λ l. AllHold (reverse l.notes.items) (V.state l.view.now)
        × KeepsLaw (reverse l.notes.items)
        × Overlays l.overlay (V.state l.view.now)
        (reached (reverse l.notes.items) (V.state l.view.now)) };
}

impl<'a, V: View> Local<'a, V> {
    /// Returns a `Local` over a view, without notes. Takes no memory.
    pub fn new(alloc: Global, view: &'a V) -> Self
        ensures { result ≡ record { start = V.state view.now; notes = [] } }
    {
        Local {
            view,
            overlay: Overlay::new(alloc),
            notes: Vec::new(alloc),
        }
    }

    /// Answers a query from the state after the notes, and notes the query with its answer. If
    /// allocation fails, the notes are unchanged.
    #[tactic(auto, using(crate::proofs::Noting::noting))]
    pub fn ask(&mut self, alloc: Global, ask: Ask) -> Result<Answer, NoMem>
        ensures ok { IfOk result (λ r. self.new ≡ noted self.old (Asked ask r)) }
        ensures value { IfOk result (λ r. r ≡ answer ask (reached self.old.notes self.old.start)) }
        ensures start { self.new.start ≡ self.old.start }
        ensures later { (base : List NoteValue)
            → IsEarlier base self.old.notes → IsEarlier base self.new.notes }
        ensures own { (sid : ℕ) → asked_session ask ≡ Some sid
            → IsOwn sid self.old.notes → IsOwn sid self.new.notes }
        ensures tree { asked_session ask ≡ None
            → named_sessions self.new.notes ≡ named_sessions self.old.notes }
        ensures err { OnErr result (self.new ≡ self.old) }
    {
        let answer = self.overlay.answer(alloc, self.view, &ask)?;
        let copy = answer.copy()?;
        self.notes.push(Note::Asked(ask, copy))?;
        Ok(answer)
    }

    /// Makes and notes a change. The change must keep a lawful state lawful wherever the notes
    /// hold. If allocation fails, the notes are unchanged.
    #[tactic(auto, using(crate::proofs::Noting::noting))]
    pub fn make(&mut self, alloc: Global, change: Change) -> Result<(), NoMem>
        requires { Always (λ s. may_make change s ≡ true) self.old }
        ensures ok { OnOk result (self.new ≡ noted self.old (Made change)) }
        ensures start { self.new.start ≡ self.old.start }
        ensures later { (base : List NoteValue)
            → IsEarlier base self.old.notes → IsEarlier base self.new.notes }
        ensures own { (sid : ℕ) → changed_session change ≡ Some sid
            → IsOwn sid self.old.notes → IsOwn sid self.new.notes }
        ensures tree { changed_session change ≡ None
            → named_sessions self.new.notes ≡ named_sessions self.old.notes }
        ensures err { OnErr result (self.new ≡ self.old) }
    {
        let copy = change.copy()?;
        self.notes.push(Note::Made(change))?;
        match self.overlay.apply(copy) {
            Ok(()) => Ok(()),
            Err(error) => {
                self.notes.pop();
                Err(error)
            }
        }
    }

    /// Tells the prover that the notes hold in the view's state, and that in each lawful state in
    /// which they hold, the state after them is lawful. The function does nothing: its contract is
    /// what a caller needs.
    #[tactic(auto, using(crate::proofs::Noting::noting))]
    pub fn keeps_law(&self)
        ensures hold { AllHold self.now.notes self.now.start }
        ensures lawful { (s : State) → IsLawful s → AllHold self.now.notes s
            → IsLawful (reached self.now.notes s) }
    {
        let _ = &self.notes;
    }

    /// Returns the notes in the order in which they were made. They hold in the view's state. In
    /// each lawful state in which they hold, the state after them is lawful. If they name one
    /// session alone, which exists, each change is lawful where it is made.
    #[tactic(auto, using(crate::proofs::Order::both_orders))]
    pub fn into_notes(self, alloc: Global) -> Result<Notes, NoMem>
        ensures notes { IfOk result (λ made. reverse made ≡ self.entry.notes) }
        ensures state { IfOk result (λ made. (s : State)
            → after made s ≡ reached self.entry.notes s) }
        ensures holding { IfOk result (λ made. (s : State)
            → Holds made s ↔ AllHold self.entry.notes s) }
        ensures hold { IfOk result (λ made. Holds made self.entry.start) }
        ensures lawful { IfOk result (λ made. (s : State)
            → IsLawful s → Holds made s → IsLawful (after made s)) }
        ensures own { IfOk result (λ made. (sid : ℕ)
            → IsOwn sid self.entry.notes → IsOwn sid made) }
        ensures allowed { IfOk result (λ made. (sid : ℕ) → IsOwn sid self.entry.notes
            → (s : State) → IsLawful s → map.contains_key s.sessions sid ≡ true
            → Holds made s → AllAllowed made s) }
    {
        let Local {
            view: _,
            overlay: _,
            notes,
        } = self;
        Notes::of(alloc, notes)
    }
}

/// Queries. Each method makes one query, notes it, and returns the answer of the state after the
/// notes.
#[tactic(auto, unfolding(retro_tree::specs::Ask::answer))]
impl<'a, V: View> Local<'a, V> {
    /// Returns the kind of the node at a path.
    pub fn kind(&mut self, alloc: Global, path: &Path) -> Result<Kind, NoMem>
        ensures means { IfOk result (λ kind. Computes self.old self.new
            (λ s. (s, kind_of (node_in path.now s.tree))) kind) }
        ensures note { IfOk result (λ kind.
            self.new ≡ noted self.old (Asked (asks.Kind path.now) (answers.Kind kind))) }
        ensures extends { ExtendsTree self.old self.new }
    {
        match self.ask(alloc, Ask::Kind(path.copy()?))? {
            Answer::Kind(kind) => Ok(kind),
            _ => unreachable!(),
        }
    }

    /// Returns the node at a path.
    pub fn node(&mut self, alloc: Global, path: &Path) -> Result<Node, NoMem>
        ensures means { IfOk result (λ node. Computes self.old self.new
            (λ s. (s, node_in path.now s.tree)) node) }
        ensures note { IfOk result (λ node.
            self.new ≡ noted self.old (Asked (asks.Bytes path.now) (answers.Bytes node))) }
        ensures extends { ExtendsTree self.old self.new }
    {
        match self.ask(alloc, Ask::Bytes(path.copy()?))? {
            Answer::Bytes(node) => Ok(node),
            _ => unreachable!(),
        }
    }

    /// Returns the names of the children of a directory, or `None` if the path isn't one.
    pub fn names(&mut self, alloc: Global, path: &Path) -> Result<Option<Listing>, NoMem>
        ensures means { IfOk result (λ names. Computes self.old self.new
            (λ s. (s, listing (node_in path.now s.tree) (names_in path.now s.tree))) names) }
        ensures note { IfOk result (λ names.
            self.new ≡ noted self.old (Asked (asks.Names path.now) (answers.Names names))) }
        ensures extends { ExtendsTree self.old self.new }
    {
        match self.ask(alloc, Ask::Names(path.copy()?))? {
            Answer::Names(names) => Ok(names),
            _ => unreachable!(),
        }
    }

    /// Returns whether `more` bytes can be appended to the file at a path, and if not, why.
    #[tactic(auto, unfolding(retro_tree::specs::Ask::answer), using(crate::proofs::Passing::clamp))]
    pub fn can_write(&mut self, alloc: Global, path: &Path, more: usize) -> Result<Permit, NoMem>
        ensures means { IfOk result (λ permit. Computes self.old self.new
            (λ s. (s, permit_of path.now more s)) permit) }
        ensures extends { ExtendsTree self.old self.new }
    {
        match self.ask(alloc, Ask::CanWrite(path.copy()?, clamp(more)))? {
            Answer::CanWrite(permit) => Ok(permit),
            _ => unreachable!(),
        }
    }

    /// Returns the number and the home directory of a login name, or `None` if it has no entry.
    pub fn user(&mut self, alloc: Global, name: &Text) -> Result<Option<User>, NoMem>
        ensures means { IfOk result (λ user. Computes self.old self.new
            (λ s. (s, user_in name.now (node_in passwd s.tree))) user) }
        ensures extends { ExtendsTree self.old self.new }
    {
        match self.ask(alloc, Ask::User(name.copy()?))? {
            Answer::User(user) => Ok(user),
            _ => unreachable!(),
        }
    }

    /// Returns the value of a variable of a session, or `None` if it isn't set.
    pub fn var(&mut self, alloc: Global, sid: u32, name: &VarName) -> Result<Option<Text>, NoMem>
        ensures means { IfOk result (λ value. Computes self.old self.new
            (λ s. (s, map.get (session_in sid s.sessions).vars name.now)) value) }
        ensures extends { Extends sid self.old self.new }
    {
        match self.ask(alloc, Ask::VarOf(sid, name.copy()?))? {
            Answer::Var(value) => Ok(value),
            _ => unreachable!(),
        }
    }

    /// Returns the directory of a session.
    pub fn cwd(&mut self, alloc: Global, sid: u32) -> Result<Path, NoMem>
        ensures means { IfOk result (λ cwd. Computes self.old self.new
            (λ s. (s, (session_in sid s.sessions).cwd)) cwd) }
        ensures note { IfOk result (λ cwd.
            self.new ≡ noted self.old (Asked (CwdOf sid) (Cwd cwd))) }
        ensures value { IfOk result (λ cwd.
            cwd ≡ (session_in sid (reached self.old.notes self.old.start).sessions).cwd) }
        ensures extends { Extends sid self.old self.new }
    {
        match self.ask(alloc, Ask::CwdOf(sid))? {
            Answer::Cwd(cwd) => Ok(cwd),
            _ => unreachable!(),
        }
    }

    /// Returns the status of a session.
    pub fn status(&mut self, alloc: Global, sid: u32) -> Result<u8, NoMem>
        ensures means { IfOk result (λ status. Computes self.old self.new
            (λ s. (s, (session_in sid s.sessions).status)) status) }
        ensures extends { Extends sid self.old self.new }
    {
        match self.ask(alloc, Ask::StatusOf(sid))? {
            Answer::Status(status) => Ok(status),
            _ => unreachable!(),
        }
    }
}

/// Changes. Each method makes one change and notes it. The change keeps a lawful state lawful, if
/// the method's conditions hold of the state after the notes wherever the notes hold.
#[tactic(auto, unfolding(retro_tree::specs::Change::apply), using(crate::proofs::Passing::passing))]
impl<'a, V: View> Local<'a, V> {
    /// Puts a file with these bytes at a path that can be written to, except `/dev/null`.
    pub fn put_file(&mut self, alloc: Global, path: Path, bytes: Bytes) -> Result<(), NoMem>
        requires apart { is_null path ≡ false }
        requires permit { Always (λ s. permit_of path 0 s ≡ Yes) self.old }
        requires limit { Always (λ s. length bytes ≤ file_limit) self.old }
        ensures means { OnOk result
            (Transforms self.old self.new (put_node path (File bytes))) }
        ensures extends { ExtendsTree self.old self.new }
    {
        self.make(alloc, Change::Put(path, Node::File(bytes)))
    }

    /// Puts a directory at a path whose parent is one, except `/dev/null`.
    pub fn put_dir(&mut self, alloc: Global, path: Path) -> Result<(), NoMem>
        requires apart { is_null path ≡ false }
        requires parent { Always (λ s. node_in (parent_of path) s.tree ≡ Dir) self.old }
        ensures means { OnOk result (Transforms self.old self.new (put_node path Dir)) }
        ensures extends { ExtendsTree self.old self.new }
    {
        self.make(alloc, Change::Put(path, Node::Dir))
    }

    /// Removes what is at a path that isn't the root and has no children.
    pub fn remove(&mut self, alloc: Global, path: Path) -> Result<(), NoMem>
        requires below { is_root path ≡ false }
        requires childless { Always (λ s. names_in path s.tree ≡ []) self.old }
        ensures means { OnOk result (Transforms self.old self.new (put_node path Missing)) }
        ensures note { OnOk result (self.new ≡ noted self.old (Made (Put path Missing))) }
        ensures extends { ExtendsTree self.old self.new }
    {
        self.make(alloc, Change::Put(path, Node::Missing))
    }

    /// Appends bytes to a file to which as many can be written, except `/dev/null`.
    pub fn grow(&mut self, alloc: Global, path: Path, bytes: Bytes) -> Result<(), NoMem>
        requires apart { is_null path ≡ false }
        requires permit { Always (λ s. permit_of path (length bytes) s ≡ Yes) self.old }
        ensures means { OnOk result (Transforms self.old self.new (grow_file path bytes)) }
        ensures extends { ExtendsTree self.old self.new }
    {
        self.make(alloc, Change::Grow(path, bytes))
    }

    /// Sets a variable of a session to a value within the limit.
    pub fn set_var(
        &mut self,
        alloc: Global,
        sid: u32,
        name: VarName,
        text: Text,
    ) -> Result<(), NoMem>
        requires limit { length text ≤ value_limit }
        ensures means { OnOk result (Transforms self.old self.new (put_var sid name text)) }
        ensures extends { Extends sid self.old self.new }
    {
        self.make(alloc, Change::SetVar(sid, name, text))
    }

    /// Sets the directory of a session.
    pub fn set_cwd(&mut self, alloc: Global, sid: u32, path: Path) -> Result<(), NoMem>
        ensures means { OnOk result (Transforms self.old self.new (put_cwd sid path)) }
        ensures extends { Extends sid self.old self.new }
    {
        self.make(alloc, Change::SetCwd(sid, path))
    }

    /// Sets the status of a session.
    pub fn set_status(&mut self, alloc: Global, sid: u32, status: u8) -> Result<(), NoMem>
        ensures means { OnOk result (Transforms self.old self.new (put_status sid status)) }
        ensures extends { Extends sid self.old self.new }
    {
        self.make(alloc, Change::SetStatus(sid, status))
    }
}

/// Paths that operands name, and the nodes there.
impl<'a, V: View> Local<'a, V> {
    /// Returns the path that a text names in a session. Queries the session's directory if the path
    /// depends on it, and otherwise queries nothing.
    #[tactic(auto, using(retro_tree::proofs::Alike::alike))]
    pub fn resolve(&mut self, alloc: Global, sid: u32, text: &str) -> Result<Resolved, NoMem>
        ensures means { IfOk result (λ resolved. Computes self.old self.new
            (λ s. (s, resolve (session_in sid s.sessions).cwd text.now)) resolved) }
        ensures quiet { is_relative text.now ≡ false → self.new ≡ self.old }
        ensures once { is_relative text.now ≡ true → IfOk result (λ resolved.
            self.new ≡ noted self.old (Asked (CwdOf sid)
            (Cwd (session_in sid (reached self.old.notes self.old.start).sessions).cwd))) }
        ensures extends { Extends sid self.old self.new }
    {
        if !is_relative(alloc, text)? {
            return Ok(resolve(alloc, &Path::root(alloc), text)?);
        }
        let cwd = self.cwd(alloc, sid)?;
        Ok(resolve(alloc, &cwd, text)?)
    }

    /// Returns the kind of the node at a path. `/dev/null` counts as a file, and no query is made
    /// for it.
    #[tactic(auto, unfolding(crate::specs::Kinds::kind_at))]
    pub fn kind_at(&mut self, alloc: Global, path: &Path) -> Result<Kind, NoMem>
        ensures means { IfOk result (λ kind. Computes self.old self.new
            (λ s. (s, kind_at path.now s)) kind) }
        ensures extends { ExtendsTree self.old self.new }
    {
        if path.is_null() {
            return Ok(Kind::File);
        }
        Ok(self.kind(alloc, path)?)
    }
}

/// Returns a number of bytes, or the greatest number that a query can have if it is greater.
fn clamp(more: usize) -> u32
    ensures { result ≡ min more 4294967295 }
{
    match u32::try_from(more) {
        Ok(more) => more,
        Err(_) => u32::MAX,
    }
}
