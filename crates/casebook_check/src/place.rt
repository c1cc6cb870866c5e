//! Places in documents.
use crate::key::Key;
use retro_tree::Text;

/// An item of the list at a key.
#[derive(Clone, Copy, Debug, PartialEq, Eq)]
pub struct Item {
    /// The key of the list.
    pub key: Key,
    /// The position of the item in the list, counted from 1.
    pub position: usize,
    /// The number of the line, if the item is one that has a number.
    pub number: Option<u32>,
}

/// Where a document breaks the rule for which it is refused.
#[derive(Drop)]
pub enum Place {
    /// The document: nothing narrower is known.
    Document,
    /// A byte, counted from 1, at which the bytes stop to be UTF-8 or JSON.
    Byte(usize),
    /// A key that such documents don't have.
    OtherKey(Text),
    /// A key that the document lacks.
    MissingKey(Key),
    /// The value of a key.
    Value(Key),
    /// An item of a list.
    Item(Item),
}
