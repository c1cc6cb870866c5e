//! States of a machine.
ghost use Rattle.std.specs.Prelude.{◌≡◌, ◌↔◌, IfOk, IsTrue, OnOk, OnErr};
ghost use Rattle.std.specs.Option.{option_copied};
ghost use Rattle.std.specs.FinMap as map;
ghost use Rattle.retro_tree.specs.Path.{passwd};
ghost use Rattle.retro_tree.specs.Node.{bytes_in, kind_of};
ghost use Rattle.retro_tree.specs.Tree.{node_in};
ghost use Rattle.retro_tree.specs.Cell.{value};
ghost use Rattle.retro_tree.specs.Ask.{names_in, listing, answer};
ghost use Rattle.retro_tree.specs.User.{user_in};
ghost use Rattle.retro_tree.specs.Session.{session_in};
ghost use Rattle.retro_tree.specs.Limits.{IsWithinLimits, within_limits};
ghost use Rattle.retro_tree.specs.Lawful.{IsLawful, is_lawful};
ghost use Rattle.retro_tree.specs.State.{empty_state, put_node, grow_file, put_session, put_status};
ghost use Rattle.retro_tree.specs.State.{permit_of};
ghost use Rattle.retro_tree.specs.Change.{put_setting, apply, IsLawfulChange};

use crate::answer::Answer;
use crate::ask::Ask;
use crate::cell::Cell;
use crate::change::Change;
use crate::entry::Entry;
use crate::kind::Kind;
use crate::node::Node;
use crate::permit::Permit;
use crate::session::Session;
use crate::sessions::Sessions;
use crate::setting::Setting;
use crate::tree::Tree;
use crate::user::{User, find_user};
use crate::value::Value;
use crate::vars::Vars;
use crate::view::View;
use retro_path::{Bytes, Listing, NoMem, Path, Text, VarName};
use std::alloc::Global;
use std::collections::BTreeMap;

/// A tree of files and the sessions that work in it.
#[derive(Drop, Clone)]
pub struct State {
    pub(crate) tree: Tree,
    pub(crate) sessions: Sessions,
}

impl State {
    /// Returns a state with only the root, and no sessions.
    #[tactic(auto, unfolding(crate::specs::State::empty_state))]
    pub fn empty(alloc: Global) -> Result<State, NoMem>
        ensures { IfOk result (λ state. state ≡ empty_state) }
    {
        let mut state = State {
            tree: Tree::new(alloc),
            sessions: Sessions::new(alloc),
        };
        state.place(Path::root(alloc), Node::Dir)?;
        state.validate(alloc)?;
        Ok(state)
    }

    /// Returns a copy.
    pub fn copy(&self) -> Result<State, NoMem>
        ensures { IfOk result (λ copy. copy ≡ self.now) }
    {
        self.clone()
    }

    /// Returns the files and directories.
    pub fn tree(&self) -> &Tree
        ensures { result.now ≡ self.now.tree }
    {
        &self.tree
    }

    /// Returns the sessions, by their numbers.
    pub fn sessions(&self) -> &Sessions
        ensures { result.now ≡ self.now.sessions }
    {
        &self.sessions
    }

    /// Puts a node at a path. `Missing` removes what the path holds.
    pub fn place(&mut self, path: Path, node: Node) -> Result<(), NoMem>
        ensures ok { OnOk result (self.new ≡ put_node path node self.old) }
        ensures err { OnErr result (self.new ≡ self.old) }
    {
        self.tree.put(path, node)
    }

    /// Appends bytes to a file, in place. A missing file is created, and a directory stays
    /// unchanged.
    pub fn grow(&mut self, path: &Path, bytes: &Bytes) -> Result<(), NoMem>
        ensures ok { OnOk result (self.new ≡ grow_file path.now bytes.now self.old) }
        ensures err { OnErr result (self.new ≡ self.old) }
    {
        self.tree.grow(path, bytes)
    }

    /// Adds a session, or replaces the one with its number.
    pub fn add_session(
        &mut self,
        sid: u32,
        cwd: Path,
        status: u8,
        vars: BTreeMap<VarName, Text>,
    ) -> Result<(), NoMem>
        ensures ok { OnOk result (self.new ≡ put_session sid
            (record { cwd = cwd; vars = map.from_entries vars.entries; status = status })
            self.old) }
        ensures err { OnErr result (self.new ≡ self.old) }
    {
        let session = Session {
            cwd,
            vars: Vars::of(vars),
            status,
        };
        self.sessions.add(sid, session)
    }

    /// Sets the status of a session. One that doesn't exist is created: at the root, without
    /// variables.
    pub fn set_status(&mut self, alloc: Global, sid: u32, status: u8) -> Result<(), NoMem>
        ensures ok { OnOk result (self.new ≡ put_status sid status self.old) }
        ensures err { OnErr result (self.new ≡ self.old) }
    {
        self.set(alloc, sid, Setting::Status(status))
    }

    /// Makes a setting in a session. One that doesn't exist is created: at the root, without
    /// variables, with status 0.
    fn set(&mut self, alloc: Global, sid: u32, setting: Setting) -> Result<(), NoMem>
        ensures ok { OnOk result (self.new ≡ put_setting sid setting self.old) }
        ensures err { OnErr result (self.new ≡ self.old) }
    {
        self.sessions.set(alloc, sid, setting)?;
        Ok(())
    }

    /// Makes a change. Files grow in place.
    #[tactic(auto, unfolding(crate::specs::Change::apply))]
    pub fn apply(&mut self, alloc: Global, change: &Change) -> Result<(), NoMem>
        ensures ok { OnOk result (self.new ≡ apply change.now self.old) }
        ensures err { OnErr result (self.new ≡ self.old) }
    {
        match change {
            Change::Put(path, node) => self.place(path.copy()?, node.copy()?),
            Change::Grow(path, bytes) => self.grow(path, bytes),
            Change::SetVar(sid, name, text) => {
                let setting = Setting::Var(name.copy()?, text.copy()?);
                self.set(alloc, *sid, setting)
            }
            Change::SetCwd(sid, path) => self.set(alloc, *sid, Setting::Cwd(path.copy()?)),
            Change::SetStatus(sid, status) => self.set(alloc, *sid, Setting::Status(*status)),
        }
    }

    /// Returns the kind of the node at a path.
    pub fn kind(&self, path: &Path) -> Kind
        ensures { result ≡ kind_of (node_in path.now self.now.tree) }
    {
        self.tree.kind(path)
    }

    /// Returns a copy of the node at a path.
    pub fn node(&self, path: &Path) -> Result<Node, NoMem>
        ensures { IfOk result (λ node. node ≡ node_in path.now self.now.tree) }
    {
        self.tree.node(path)
    }

    /// Returns the bytes of the file at a path, or `None` if the path isn't a file.
    pub fn file(&self, path: &Path) -> Option<&Bytes>
        ensures { option_copied result ≡ bytes_in (node_in path.now self.now.tree) }
    {
        self.tree.file(path)
    }

    /// Returns the names of the children of a path, in byte order, whatever node is at the path
    /// itself. Takes time in proportion to the children times the logarithm of the tree.
    pub fn names(&self, alloc: Global, path: &Path) -> Result<Listing, NoMem>
        ensures { IfOk result (λ names. names ≡ names_in path.now self.now.tree) }
    {
        self.tree.names(alloc, path)
    }

    /// Returns the names of the children of a directory, or `None` if the path isn't a directory.
    fn listing(&self, alloc: Global, path: &Path) -> Result<Option<Listing>, NoMem>
        ensures { IfOk result (λ names. names
            ≡ listing (node_in path.now self.now.tree) (names_in path.now self.now.tree)) }
    {
        match self.kind(path) {
            Kind::Dir => Ok(Some(self.names(alloc, path)?)),
            _ => Ok(None),
        }
    }

    /// Returns whether `more` bytes can be appended to the file at a path, and if not, why.
    pub fn permit(&self, alloc: Global, path: &Path, more: u64) -> Result<Permit, NoMem>
        ensures { IfOk result (λ permit. permit ≡ permit_of path.now more self.now) }
    {
        let parent = path.parent(alloc)?;
        Ok(self.tree.permit(path, &parent, more))
    }

    /// Returns the user with a login name, or `None` if the password file has none.
    #[tactic(auto, unfolding(crate::specs::Tree::node_in))]
    fn user(&self, alloc: Global, name: &Text) -> Result<Option<User>, NoMem>
        ensures { IfOk result (λ user. user
            ≡ user_in name.now (node_in passwd self.now.tree)) }
    {
        let path = Path::passwd(alloc)?;
        match self.tree.get(&path) {
            Some(Entry::File(bytes)) => find_user(alloc, name, bytes.as_slice()),
            _ => Ok(None),
        }
    }

    /// Returns whether a session exists.
    pub fn has_session(&self, sid: u32) -> bool
        ensures { result ≡ map.contains_key self.now.sessions sid }
    {
        self.sessions.get(sid).is_some()
    }

    /// Returns the directory of a session. It is the root if the session doesn't exist.
    #[tactic(auto, unfolding(crate::specs::Session::default_session))]
    pub fn cwd(&self, alloc: Global, sid: u32) -> Result<Path, NoMem>
        ensures { IfOk result (λ cwd. cwd ≡ (session_in sid self.now.sessions).cwd) }
    {
        match self.sessions.get(sid) {
            Some(session) => Ok(session.cwd.copy()?),
            None => Ok(Path::root(alloc)),
        }
    }

    /// Returns the value of a variable of a session, or `None` if it isn't set.
    #[tactic(auto, using(crate::proofs::Lookups::var_of_none))]
    fn var(&self, sid: u32, name: &VarName) -> Result<Option<Text>, NoMem>
        ensures { IfOk result (λ text. text
            ≡ map.get (session_in sid self.now.sessions).vars name.now) }
    {
        let Some(session) = self.sessions.get(sid) else {
            return Ok(None);
        };
        match session.vars.get(name) {
            Some(text) => Ok(Some(text.copy()?)),
            None => Ok(None),
        }
    }

    /// Returns the status of a session. It is 0 if the session doesn't exist.
    #[tactic(auto, unfolding(crate::specs::Session::default_session))]
    fn status(&self, sid: u32) -> u8
        ensures { result ≡ (session_in sid self.now.sessions).status }
    {
        match self.sessions.get(sid) {
            Some(session) => session.status,
            None => 0,
        }
    }

    /// Returns the answer to a query.
    #[tactic(auto, unfolding(crate::specs::Ask::answer))]
    pub fn answer(&self, alloc: Global, ask: &Ask) -> Result<Answer, NoMem>
        ensures { IfOk result (λ a. a ≡ answer ask.now self.now) }
    {
        match ask {
            Ask::Kind(path) => Ok(Answer::Kind(self.kind(path))),
            Ask::Bytes(path) => Ok(Answer::Bytes(self.node(path)?)),
            Ask::Names(path) => Ok(Answer::Names(self.listing(alloc, path)?)),
            Ask::CanWrite(path, more) => {
                Ok(Answer::CanWrite(self.permit(alloc, path, u64::from(*more))?))
            }
            Ask::User(name) => Ok(Answer::User(self.user(alloc, name)?)),
            Ask::VarOf(sid, name) => Ok(Answer::Var(self.var(*sid, name)?)),
            Ask::CwdOf(sid) => Ok(Answer::Cwd(self.cwd(alloc, *sid)?)),
            Ask::StatusOf(sid) => Ok(Answer::Status(self.status(*sid))),
        }
    }

    /// Returns the value of a cell. A session that doesn't exist is at the root, without variables,
    /// with status 0.
    #[tactic(auto, unfolding(crate::specs::Cell::value))]
    pub fn value(&self, alloc: Global, cell: &Cell) -> Result<Value, NoMem>
        ensures { IfOk result (λ v. v ≡ value cell.now self.now) }
    {
        match cell {
            Cell::At(path) => Ok(Value::Node(self.node(path)?)),
            Cell::Cwd(sid) => Ok(Value::Cwd(self.cwd(alloc, *sid)?)),
            Cell::Var(sid, name) => Ok(Value::Text(self.var(*sid, name)?)),
            Cell::Status(sid) => Ok(Value::Status(self.status(*sid))),
        }
    }

    /// Returns whether the state is within the limits on files, values of variables and statuses.
    pub fn is_within_limits(&self) -> bool
        ensures value { result ≡ within_limits self.now }
        ensures exact { IsTrue result ↔ IsWithinLimits self.now }
    {
        self.passes_limits()
    }

    /// Returns whether the state is within the limits, as `is_within_limits` does. It is a function
    /// of its own for the prover, which proves its two clauses one after the other.
    #[tactic(auto, unfolding(crate::specs::Limits::within_limits))]
    fn passes_limits(&self) -> bool
        ensures { result ≡ within_limits self.now }
    {
        self.tree.fits() && self.sessions.are_lawful()
    }

    /// Returns whether the state is lawful: the root is a directory, as is the parent of each other
    /// path, nothing is at `/dev/null` or below it, and the state is within the limits.
    pub fn is_lawful(&self, alloc: Global) -> Result<bool, NoMem>
        ensures value { IfOk result (λ lawful. lawful ≡ is_lawful self.now) }
        ensures exact { IfOk result (λ lawful. IsTrue lawful ↔ IsLawful self.now) }
    {
        Ok(self.passes_law(alloc)?)
    }

    /// Returns whether the state is lawful, as `is_lawful` does. It is a function of its own for
    /// the prover, which proves its two clauses one after the other.
    #[tactic(auto, unfolding(crate::specs::Lawful::is_lawful))]
    fn passes_law(&self, alloc: Global) -> Result<bool, NoMem>
        ensures { IfOk result (λ lawful. lawful ≡ is_lawful self.now) }
    {
        Ok(self.tree.is_lawful(alloc)? && self.sessions.are_lawful())
    }

    /// Returns whether the state is lawful, and remembers the answer until a change isn't known to
    /// keep it. `allows` is cheap on a state that is known to be lawful. A state that was made from
    /// an empty one by lawful changes is known to be lawful without this call.
    pub fn validate(&mut self, alloc: Global) -> Result<bool, NoMem>
        ensures exact { IfOk result (λ lawful. IsTrue lawful ↔ IsLawful self.old) }
        ensures unchanged { self.new ≡ self.old }
    {
        let tree = self.tree.validate(alloc)?;
        let sessions = self.sessions.validate();
        Ok(tree && sessions)
    }

    /// Returns whether the state is known to be lawful.
    pub(crate) fn is_known_lawful(&self) -> bool
        ensures { IsTrue result → IsLawful self.now }
    {
        self.tree.is_known_lawful() && self.sessions.is_known_lawful()
    }

    /// Marks a lawful state as known to be lawful.
    pub(crate) fn mark_lawful(&mut self)
        requires { IsLawful self.old }
        ensures { self.new ≡ self.old }
    {
        self.tree.mark_lawful();
        self.sessions.mark_lawful();
    }

    /// Returns whether a change is lawful: it grows no directory, its session exists, and the state
    /// after it is lawful. In a state that is known to be lawful, looks only at the path of the
    /// change, its parent and the first entry below it. In any other state, makes the change in a
    /// copy and validates that.
    #[tactic(auto, using(crate::proofs::Allowed::allowed))]
    pub fn allows(&self, alloc: Global, change: &Change) -> Result<bool, NoMem>
        ensures { IfOk result (λ may. IsTrue may ↔ IsLawfulChange change.now self.now) }
    {
        if !change.has_its_session(self) || change.grows_dir(self) {
            return Ok(false);
        }
        if self.is_known_lawful() {
            return change.keeps_lawful(self);
        }
        self.is_lawful_after(alloc, change)
    }

    /// Returns whether the state after a change is lawful.
    fn is_lawful_after(&self, alloc: Global, change: &Change) -> Result<bool, NoMem>
        ensures { IfOk result (λ lawful. IsTrue lawful
            ↔ IsLawful (apply change.now self.now)) }
    {
        let mut after = self.copy()?;
        after.apply(alloc, change)?;
        after.validate(alloc)
    }
}

impl View for State {
    ghost state = { λ s. s };

    fn answer(&self, alloc: Global, ask: &Ask) -> Result<Answer, NoMem> {
        self.answer(alloc, ask)
    }

    fn children(&self, alloc: Global, path: &Path) -> Result<Listing, NoMem> {
        self.names(alloc, path)
    }
}
