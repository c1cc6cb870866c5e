//! What is known of variables where a part of a line runs.
ghost use Rattle.std.specs.Prelude.{◌≡◌, ◌∷◌, [], IfOk, OnOk, map};
ghost use Rattle.std.specs.List.{list_any};
ghost use Rattle.retro_tree.specs.Order.{text_eq};
ghost use Rattle.retro_syntax.specs.View.{parameter_view};
ghost use Rattle.casebook_profile.specs.Scope as Scopes;
ghost use Rattle.casebook_profile.specs.inner.Scopes.{knows, scope_view};

use crate::NoMem;
use crate::knowledge::Knowledge;
use crate::variables::is_changing;
use retro_syntax::tree::{Assignment, Parameter};
use retro_tree::VarName;
use std::alloc::Global;

/// What is known of variables where a part of a line runs.
#[derive(Drop)]
pub(crate) struct Scope<'k, 'a> {
    /// What is set before the line.
    knowledge: &'k Knowledge<'k>,
    /// The session that runs the line.
    session: u32,
    /// The variables that earlier parts of the line set.
    set: Vec<&'a VarName>,
    /// The variables of the `for`s around the part whose words are plain.
    loops: Vec<&'a VarName>,
}

/// Returns whether a name is among others.
fn has_name(names: &[&VarName], name: &VarName) -> bool
    ensures { result ≡ list_any (text_eq name.now) (map (λ n. n.now) names.now) }
{
    let mut rest = names;
    while let [first, more @ ..] = rest {
        if name == *first {
            return true;
        }
        rest = more;
    }
    false
}

impl<'k, 'a> Scope<'k, 'a> {
    /// Returns what is known where a line of a session begins.
    pub(crate) fn of(alloc: Global, knowledge: &'k Knowledge<'k>, session: u32) -> Scope<'k, 'a>
        ensures { scope_view result
            ≡ record { before = knows knowledge.now session; set = []; loops = [] } }
    {
        Scope {
            knowledge,
            session,
            set: Vec::new(alloc),
            loops: Vec::new(alloc),
        }
    }

    /// Returns a copy.
    pub(crate) fn copy(&self, alloc: Global) -> Result<Scope<'k, 'a>, NoMem>
        ensures { IfOk result (λ copy. scope_view copy ≡ scope_view self.now) }
    {
        Ok(Scope {
            knowledge: self.knowledge,
            session: self.session,
            set: Vec::from_slice(alloc, self.set.as_slice())?,
            loops: Vec::from_slice(alloc, self.loops.as_slice())?,
        })
    }

    /// Adds a variable that the line sets.
    pub(crate) fn set(&mut self, name: &'a VarName) -> Result<(), NoMem>
        ensures { OnOk result (scope_view self.new
            ≡ Scopes.with_set (name.entry.now ∷ []) (scope_view self.old)) }
    {
        Ok(self.set.push(name)?)
    }

    /// Adds the variables of assignments.
    pub(crate) fn set_all(&mut self, all: &'a [Assignment]) -> Result<(), NoMem>
        ensures { OnOk result (scope_view self.new
            ≡ Scopes.with_set (map (λ a. a.name) all.entry.now) (scope_view self.old)) }
    {
        for assignment in all {
            self.set(&assignment.name)?;
        }
        Ok(())
    }

    /// Adds the variable of a `for` whose words are plain.
    pub(crate) fn enter(&mut self, name: &'a VarName) -> Result<(), NoMem>
        ensures { OnOk result (scope_view self.new
            ≡ Scopes.with_loop name.entry.now (scope_view self.old)) }
    {
        Ok(self.loops.push(name)?)
    }

    /// Returns whether a variable is that of a `for` whose words are plain.
    pub(crate) fn is_loop(&self, name: &VarName) -> bool
        ensures { result ≡ Scopes.is_loop (scope_view self.now) name.now }
    {
        has_name(self.loops.as_slice(), name)
    }

    /// Returns whether the recording has a value of a variable.
    fn is_set(&self, name: &VarName) -> bool
        ensures { result ≡ Scopes.is_set (scope_view self.now) name.now }
    {
        self.knowledge.knows(self.session, name)
            || has_name(self.set.as_slice(), name)
            || self.is_loop(name)
    }

    /// Returns whether the value of a parameter is known.
    pub(crate) fn is_known(&self, parameter: &Parameter) -> bool
        ensures { result ≡ Scopes.is_known (scope_view self.now) (parameter_view parameter.now) }
    {
        match parameter {
            Parameter::Status => true,
            Parameter::Variable(name) => self.is_set(name) && !is_changing(name),
        }
    }

    /// Returns whether the value of a parameter is a plain word.
    pub(crate) fn is_plain(&self, parameter: &Parameter) -> bool
        ensures { result ≡ Scopes.is_plain (scope_view self.now) (parameter_view parameter.now) }
    {
        match parameter {
            Parameter::Status => true,
            Parameter::Variable(name) => self.is_loop(name),
        }
    }
}
