//! Options that were given.
use std::marker::Model;

/// An option that was given: its letter, and its argument if it takes one.
#[derive(Drop)]
pub(crate) struct Given<'a> {
    pub letter: u8,
    pub argument: Option<&'a [u8]>,
}

impl<'a> Model for Given<'a> {
    ghost use Rattle.std.specs.Option.{option_copied};
    ghost use Rattle.retro_text.specs.Request.{Given};

    ghost Value = { Given };

    ghost view = { λ a. (a.letter, option_copied a.argument) };
}
