//! States and effects of session 1, written as words.
//!
//! `/d/` is a directory, `/f=TEXT` a file, `/f!` a missing path, `@/d` the session's directory,
//! `?N` its status, and `NAME=TEXT` a variable. `NAME*N` is a variable with N letters `n`. In a
//! word `_` is a space.
use casebook_stand_in::Effect;
use retro_rows::{fail, path};
use retro_tree::{Bytes, Change, NoMem, Node, Path, State, Text, VarName};
use std::alloc::Global;
use std::collections::BTreeMap;
use std::test::Fail;

/// What a word says.
#[derive(Drop)]
enum Word {
    /// What is at a path.
    At(Path, Node),
    /// The session's directory.
    Cwd(Path),
    /// The value of a variable.
    Var(VarName, Text),
    /// The session's status.
    Status(u8),
}

/// Returns a text with spaces in place of `_`.
pub fn spaced(alloc: Global, word: &str) -> Result<String, Fail> {
    Ok(word.replace(alloc, '_', " ")?)
}

/// Returns the bytes of a text.
pub fn bytes(alloc: Global, given: &str) -> Result<Bytes, NoMem> {
    Ok(Bytes::of(Vec::from_slice(alloc, given.as_bytes())?))
}

/// Returns a text of so many letters `n`.
fn letters(alloc: Global, count: u32) -> Result<String, NoMem> {
    let mut out = String::new(alloc);
    for _ in 0..count {
        out.push('n')?;
    }
    Ok(out)
}

/// Reads a word that says what is at a path.
fn node_word(alloc: Global, word: &str) -> Result<Word, Fail> {
    if let Some((at, content)) = word.split_once("=") {
        return Ok(Word::At(path(alloc, at)?, Node::File(bytes(alloc, content)?)));
    }
    match word.strip_suffix("!") {
        Some(at) => Ok(Word::At(path(alloc, at)?, Node::Missing)),
        None => Ok(Word::At(path(alloc, word)?, Node::Dir)),
    }
}

/// Returns the word that says the value of a variable.
fn var_word(alloc: Global, name: &str, value: String) -> Result<Word, Fail> {
    match VarName::of(alloc, name)? {
        Some(name) => Ok(Word::Var(name, Text::of(value))),
        None => fail("no variable"),
    }
}

/// Reads a word that says the value of a variable.
fn value_word(alloc: Global, word: &str) -> Result<Word, Fail> {
    if let Some((name, value)) = word.split_once("=") {
        return var_word(alloc, name, String::from_str(alloc, value)?);
    }
    match word.split_once("*") {
        Some((name, count)) => var_word(alloc, name, letters(alloc, count.parse()?)?),
        None => fail("no word"),
    }
}

/// Reads a word.
fn read_word(alloc: Global, given: &str) -> Result<Word, Fail> {
    if let Some(cwd) = given.strip_prefix("@") {
        return Ok(Word::Cwd(path(alloc, cwd)?));
    }
    if let Some(status) = given.strip_prefix("?") {
        return Ok(Word::Status(status.parse()?));
    }
    let given = spaced(alloc, given)?;
    if given.as_str().starts_with("/") {
        node_word(alloc, given.as_str())
    } else {
        value_word(alloc, given.as_str())
    }
}

/// Reads words.
fn words(alloc: Global, given: &str) -> Result<Vec<Word>, Fail> {
    let mut words = Vec::new(alloc);
    for one in given.split(" ") {
        words.push(read_word(alloc, one)?)?;
    }
    Ok(words)
}

/// Returns the state that words say.
pub fn state_of(alloc: Global, given: &str) -> Result<State, Fail> {
    let mut state = State::empty(alloc)?;
    state.add_session(1, Path::root(alloc), 0, BTreeMap::new(alloc))?;
    for word in words(alloc, given)? {
        let change = match word {
            Word::At(path, node) => Change::Put(path, node),
            Word::Cwd(path) => Change::SetCwd(1, path),
            Word::Var(name, text) => Change::SetVar(1, name, text),
            Word::Status(status) => Change::SetStatus(1, status),
        };
        state.apply(alloc, &change)?;
    }
    Ok(state)
}

/// Returns the status that words say, or 0.
fn status_of(words: &[Word]) -> u8 {
    for word in words {
        if let Word::Status(status) = word {
            return *status;
        }
    }
    0
}

/// Returns the effect that words say.
pub fn effect_of(alloc: Global, given: &str) -> Result<Effect, Fail> {
    let words = words(alloc, given)?;
    let mut effect = Effect::new(alloc, 1, status_of(words.as_slice()))?;
    for word in words {
        match word {
            Word::At(path, node) => effect.set_node(path, node)?,
            Word::Cwd(path) => effect.set_cwd(path)?,
            Word::Var(name, text) => effect.set_var(name, text)?,
            Word::Status(_) => (),
        }
    }
    Ok(effect)
}
