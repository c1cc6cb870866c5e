//! Answers.
ghost use Rattle.std.specs.Prelude.{◌≡◌, false, string_bytes};

/// An answer.
#[derive(Debug, Drop)]
pub(crate) struct Answer {
    /// What is written on standard output.
    pub(crate) text: Vec<u8>,
    /// Whether it says that what was asked about isn't in order.
    pub(crate) is_no: bool,
}

impl Answer {
    /// Returns an answer that says nothing of the kind.
    pub(crate) fn of(text: String) -> Answer
        ensures text { result.text.items ≡ string_bytes text }
        ensures no { result.is_no ≡ false }
    {
        Answer {
            text: text.into_bytes(),
            is_no: false,
        }
    }
}
