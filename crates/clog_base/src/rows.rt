//! Lists of any kind, that contracts see as the list itself.
ghost use Rattle.std.specs.Prelude.{◌≡◌, length};

use std::marker::Model;

/// A list in memory.
#[derive(Drop)]
pub struct Rows<T> {
    /// Its elements, in their order.
    pub items: Vec<T>,
}

/// Bytes in memory.
pub type Bytes = Rows<u8>;

impl<T> Model for Rows<T> {
    ghost use Rattle.std.specs.Prelude.{List};

    ghost Value = { List T };

    ghost view = { λ r. r.items.items };
}

impl<T> Rows<T> {
    /// The list of a vector; takes no memory.
    pub fn new(items: Vec<T>) -> Rows<T>
        ensures { result ≡ items.items }
    {
        Rows { items }
    }

    /// Its elements, in their order.
    pub fn as_slice(&self) -> &[T]
        ensures { result.now ≡ self.now }
    {
        self.items.as_slice()
    }

    /// How many they are.
    pub fn len(&self) -> usize
        ensures { result ≡ length self.now }
    {
        self.items.len()
    }

    /// The vector that it was made from; takes no memory.
    pub fn into_vec(self) -> Vec<T>
        ensures { result.items ≡ self }
    {
        self.items
    }
}
