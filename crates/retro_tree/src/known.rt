//! Values that may be known to be lawful.
ghost use Rattle.std.specs.Prelude.{◌≡◌, false};
ghost use Rattle.std.specs.Borrow.{sem, Lends};
ghost use Rattle.retro_tree.specs.inner.Known.{changed_to};
ghost use Rattle.retro_tree.specs.contracts.known.Known.{the_row};

/// A value with a mark. If the mark is set, the value is known to be lawful.
///
/// Reading the value leaves the mark unchanged. `change` is the only way to change the value, and
/// it sets or clears the mark. A type that holds a marked value has the invariant that a value with
/// the mark is lawful.
#[derive(Drop, Clone)]
pub(crate) struct Known<T> {
    value: T,
    known: bool,
}

impl<T> Known<T> {
    /// Wraps a value that isn't known to be lawful.
    pub(crate) fn new(value: T) -> Known<T>
        ensures value { result.value ≡ value }
        ensures known { result.known ≡ false }
    {
        Known {
            value,
            known: false,
        }
    }

    /// Returns the value.
    pub(crate) fn get(&self) -> &T
        ensures { result.now ≡ self.now.value }
    {
        &self.value
    }

    /// Returns whether the value is known to be lawful.
    pub(crate) fn is_known(&self) -> bool
        ensures { result ≡ self.now.known }
    {
        self.known
    }

    /// Sets the mark, or clears it.
    pub(crate) fn mark(&mut self, known: bool)
        ensures value { self.new.value ≡ self.old.value }
        ensures known { self.new.known ≡ known }
    {
        self.known = known;
    }

    /// Returns the value for a change, and sets or clears the mark: `known` says whether the value
    /// is known to be lawful after the change.
    pub(crate) fn change(&mut self, known: bool) -> &mut T
        ensures* lends { sem 𝓛
            (Lends (the_row T.row) T.row self.entry result (changed_to known)) }
        ensures value { result.now ≡ self.old.value }
    {
        self.known = known;
        &mut self.value
    }
}
