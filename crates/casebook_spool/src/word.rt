//! Words with which notes begin.
ghost use Rattle.std.specs.Prelude.{◌≡◌, OnOk, ◌++◌, string_bytes};
ghost use Rattle.casebook_spool.specs.Reading.{word_of};

use casebook_watch::Kind;

/// What a note is about.
#[derive(Clone, Copy, Debug, Drop)]
pub(crate) enum Word {
    /// Something of this kind is at the path.
    Seen(Kind),
    /// Nothing is at the path any more.
    Gone,
    /// The bytes of a file are kept.
    Bytes,
    /// A link leads somewhere.
    Target,
    /// The bytes of a file aren't kept.
    Unkept,
    /// The recorder read what is at the path.
    Looked,
}

impl Word {
    /// Returns the word that a field is.
    #[tactic(auto, unfolding(crate::specs::Reading::word_of))]
    pub(crate) fn of(field: &[u8]) -> Option<Word>
        ensures { result ≡ word_of field.now }
    {
        if field == b"dir".as_slice() {
            Some(Word::Seen(Kind::Dir))
        } else if field == b"file".as_slice() {
            Some(Word::Seen(Kind::File))
        } else if field == b"link".as_slice() {
            Some(Word::Seen(Kind::Link))
        } else if field == b"other".as_slice() {
            Some(Word::Seen(Kind::Other))
        } else if field == b"gone".as_slice() {
            Some(Word::Gone)
        } else if field == b"bytes".as_slice() {
            Some(Word::Bytes)
        } else if field == b"target".as_slice() {
            Some(Word::Target)
        } else if field == b"unkept".as_slice() {
            Some(Word::Unkept)
        } else if field == b"looked".as_slice() {
            Some(Word::Looked)
        } else {
            None
        }
    }
}
