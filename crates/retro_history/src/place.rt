//! Where the values of versions are stored.
ghost use Rattle.std.specs.Prelude.{◌≡◌, IfOk, OnErr, length, take};
ghost use Rattle.retro_tree.specs.Change.{value_grown};
ghost use Rattle.retro_history.specs.inner.Version.{EndsAt, place_value};

use retro_tree::{NoMem, ValueRef};

/// Where the value of a version is stored.
#[derive(Clone, Copy)]
pub(crate) enum ValuePlace<'a> {
    /// In the recording.
    Borrowed(ValueRef<'a>),
    /// In the buffer of the track: a file that has grown.
    Buffer(Span),
}

/// A range of a buffer.
#[derive(Clone, Copy)]
pub(crate) struct Span {
    /// The index of the first byte.
    pub(crate) start: usize,
    /// The index after the last byte.
    pub(crate) end: usize,
}

impl<'a> ValuePlace<'a> {
    /// Appends bytes to the value and returns its new place. A file in the recording is first
    /// copied to the end of the buffer. A file in the buffer must end where the buffer ends. A
    /// value that can't grow is returned unchanged. The buffer keeps the bytes that it has, also if
    /// allocation fails.
    pub(crate) fn extend(self, buffer: &mut Vec<u8>, more: &[u8]) -> Result<ValuePlace<'a>, NoMem>
        requires { EndsAt (length buffer.old.items) self }
        ensures value { IfOk result (λ new. place_value buffer.new.items new
            ≡ value_grown more.now (place_value buffer.old.items self.entry)) }
        ensures end { IfOk result (λ new. EndsAt (length buffer.new.items) new) }
        ensures kept { take (length buffer.old.items) buffer.new.items ≡ buffer.old.items }
        ensures err { OnErr result (EndsAt (length buffer.new.items) self.entry) }
    {
        let start = match self {
            ValuePlace::Borrowed(ValueRef::Missing) => buffer.len(),
            ValuePlace::Borrowed(ValueRef::File(bytes)) => {
                let start = buffer.len();
                buffer.extend_from_slice(bytes)?;
                start
            }
            ValuePlace::Buffer(span) => span.start,
            ValuePlace::Borrowed(_) => return Ok(self),
        };
        buffer.extend_from_slice(more)?;
        Ok(ValuePlace::Buffer(Span {
            start,
            end: buffer.len(),
        }))
    }
}
