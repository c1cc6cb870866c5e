//! What in a shell may give a line another meaning.
ghost use Rattle.std.specs.Prelude.{◌≡◌, IfOk, OnErr, OnOk, map};
ghost use Rattle.std.specs.BTreeSet.{contains};
ghost use Rattle.std.specs.FinSet as set;
ghost use Rattle.std.specs.List.{filter_map, list_any};
ghost use Rattle.retro_path.specs.Order.{text_cmp};
ghost use Rattle.casebook_shell.specs.Rows.{is_switch, name_in};
ghost use Rattle.casebook_shell.specs.Rules.{means_itself, rules_of, with_name};

use crate::NoMem;
use crate::key::Key;
use crate::rows::{is_switch, name_in, rows_of};
use casebook_needs::words_of;
use std::alloc::Global;
use std::collections::BTreeSet;
use std::marker::Model;

/// What in a session's shell may give a line another meaning: names of functions and aliases, and
/// options.
#[derive(Drop)]
pub struct ShellRules {
    alloc: Global,
    names: BTreeSet<Key>,
    is_usual: bool,
}

impl Model for ShellRules {
    ghost use Rattle.std.specs.FinSet as set;
    ghost use Rattle.casebook_shell.specs.Rules.{Rules, rules_code};

    ghost Value = { Rules };

    ghost coded = { rules_code };

    ghost view = { λ a. record { names = set.from_list a.names.keys; is_usual = a.is_usual } };
}

/// Returns the names of functions and aliases in rows.
fn names_in(alloc: Global, rows: &[&[u8]]) -> Result<BTreeSet<Key>, NoMem>
    ensures { IfOk result (λ names. set.from_list {R = text_cmp} names.keys
        ≡ set.from_list (filter_map name_in (map (λ row. row.now) rows.now))) }
{
    let mut names = BTreeSet::new(alloc);
    for row in rows {
        if let Some(name) = name_in(row) {
            names.insert(Key::of(alloc, name)?)?;
        }
    }
    Ok(names)
}

/// Returns whether a row switches on an option under which lines mean something else.
fn has_switch(rows: &[&[u8]]) -> bool
    ensures { result ≡ list_any is_switch (map (λ row. row.now) rows.now) }
{
    for row in rows {
        if is_switch(row) {
            return true;
        }
    }
    false
}

/// Returns whether a word is among names.
fn has_any(alloc: Global, names: &BTreeSet<Key>, words: &[&[u8]]) -> Result<bool, NoMem>
    ensures { IfOk result (λ has. has ≡ list_any (contains text_cmp names.now)
        (map (λ word. word.now) words.now)) }
{
    for word in words {
        if names.contains(&Key::of(alloc, word)?) {
            return Ok(true);
        }
    }
    Ok(false)
}

impl ShellRules {
    /// Returns the rules of a shell, by what `declare -f`, `alias -p`, `shopt -p` and `set +o`
    /// print there.
    #[tactic(auto, unfolding(crate::specs::Rules::rules_of))]
    pub fn of(alloc: Global, shell: &[u8]) -> Result<ShellRules, NoMem>
        ensures { IfOk result (λ rules. rules ≡ rules_of shell.now) }
    {
        let rows = rows_of(alloc, shell)?;
        let names = names_in(alloc, rows.as_slice())?;
        let is_usual = !has_switch(rows.as_slice());
        Ok(ShellRules {
            alloc,
            names,
            is_usual,
        })
    }

    /// Adds a name that gives a line with that word another meaning. If allocation fails, the rules
    /// are unchanged.
    pub fn add_name(&mut self, name: &[u8]) -> Result<(), NoMem>
        ensures ok { OnOk result (self.new ≡ with_name name.now self.old) }
        ensures err { OnErr result (self.new ≡ self.old) }
    {
        let key = Key::of(self.alloc, name)?;
        self.names.insert(key)?;
        Ok(())
    }

    /// Returns whether a line may mean what it means in a plain shell. Takes a look-up for each
    /// word.
    #[tactic(auto, unfolding(crate::specs::Rules::means_itself))]
    pub fn leave(&self, alloc: Global, text: &[u8]) -> Result<bool, NoMem>
        ensures { IfOk result (λ leaves. leaves ≡ means_itself self.now text.now) }
    {
        if !self.is_usual {
            return Ok(false);
        }
        let words = words_of(alloc, text)?;
        Ok(!has_any(alloc, &self.names, words.as_slice())?)
    }
}
