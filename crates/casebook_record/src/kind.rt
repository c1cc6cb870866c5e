//! Kinds of records.
ghost use Rattle.std.specs.Prelude.{◌≡◌};
ghost use Rattle.casebook_record.specs.Kinds.{kind_of};

/// What a record is about.
#[derive(Clone, Copy, Debug, Drop)]
pub(crate) enum Kind {
    /// The start of a session.
    Start,
    /// The beginning of a line.
    Begin,
    /// The end of a line.
    End,
    /// The end of a session.
    Exit,
}

impl Kind {
    /// Returns the kind that a field names.
    #[tactic(auto, unfolding(crate::specs::Kinds::kind_of))]
    pub(crate) fn of(field: &[u8]) -> Option<Kind>
        ensures { result ≡ kind_of field.now }
    {
        if field == b"start".as_slice() {
            Some(Kind::Start)
        } else if field == b"begin".as_slice() {
            Some(Kind::Begin)
        } else if field == b"end".as_slice() {
            Some(Kind::End)
        } else if field == b"exit".as_slice() {
            Some(Kind::Exit)
        } else {
            None
        }
    }
}
