//! What sessions and lines are called.
ghost use Rattle.std.specs.Prelude.{◌≡◌, IfOk, OnErr, OnOk, string_bytes};
ghost use Rattle.std.specs.Option.{option_copied};
ghost use Rattle.casebook_about.specs.Labels.{is_named, name_in, name_words, named, no_labels};
ghost use Rattle.casebook_about.specs.Labels.{time_words, timed};

use crate::NoMem;
use crate::label_map::LabelMap;
use casebook_text::SafeLine;
use retro_tree::Text;
use std::alloc::Global;

/// The names of sessions, and the times of lines. A session without a name is shown by its number,
/// and a line without a time without one.
#[derive(Drop)]
pub struct Labels {
    names: LabelMap,
    times: LabelMap,
}

impl Labels {
    /// Returns labels without names and times. Takes no memory.
    pub fn none(alloc: Global) -> Labels
        ensures { result ≡ no_labels }
    {
        Labels {
            names: LabelMap::new(alloc),
            times: LabelMap::new(alloc),
        }
    }

    /// Names a session. The last of several names is kept.
    pub fn add_name(&mut self, session: u32, name: String) -> Result<(), NoMem>
        ensures ok { OnOk result (self.new ≡ named session (string_bytes name) self.old) }
        ensures err { OnErr result (self.new ≡ self.old) }
    {
        self.names.insert(session, Text::of(name))
    }

    /// Says when a line was typed. The last of several times is kept.
    pub fn add_time(&mut self, number: u32, time: String) -> Result<(), NoMem>
        ensures ok { OnOk result (self.new ≡ timed number (string_bytes time) self.old) }
        ensures err { OnErr result (self.new ≡ self.old) }
    {
        self.times.insert(number, Text::of(time))
    }

    /// Returns the name of a session as it was given, or `None` if it has none. It may have
    /// characters that aren't harmless on a terminal.
    pub fn name_in(&self, session: u32) -> Option<&Text>
        ensures { option_copied result ≡ name_in session self.now }
    {
        self.names.get(session)
    }

    /// Returns whether a session has a name, or has none and this is its number.
    pub fn is_named(&self, alloc: Global, name: &str, session: u32) -> Result<bool, NoMem>
        ensures { IfOk result (λ same. same ≡ is_named self.now name.now session) }
    {
        match self.names.get(session) {
            Some(known) => Ok(known.as_str() == name),
            None => Ok(format!(in alloc; "{session}")?.as_str() == name),
        }
    }

    /// Returns the name of a session, or its number if it has none. Spaces in a name are shown by
    /// their code.
    pub fn name_of(&self, alloc: Global, session: u32) -> Result<SafeLine, NoMem>
        ensures { IfOk result (λ name. name ≡ name_words session self.now) }
    {
        let mut name = SafeLine::new(alloc);
        match self.names.get(session) {
            Some(text) => name.push_word(alloc, text.bytes())?,
            None => name.push_number(alloc, u64::from(session))?,
        }
        Ok(name)
    }

    /// Returns the time of a line, or an empty line if it isn't known.
    pub fn time_of(&self, alloc: Global, number: u32) -> Result<SafeLine, NoMem>
        ensures { IfOk result (λ time. time ≡ time_words number self.now) }
    {
        let mut time = SafeLine::new(alloc);
        if let Some(text) = self.times.get(number) {
            time.push_bytes(alloc, text.bytes())?;
        }
        Ok(time)
    }
}
