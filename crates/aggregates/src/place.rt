//! Where an object holds a value.

use indexmap::Equivalent;
use strings::Text;

/// What a table holds a value for. The integer 1 and the string `1` are apart.
#[derive(Drop, PartialEq, Eq, Hash)]
pub enum Key {
    Integer(i64),
    String(Text),
}

/// A key that is looked up, whose text isn't copied.
#[derive(Clone, Copy, PartialEq, Eq, Hash)]
pub(crate) enum Wanted<'a> {
    Integer(i64),
    String(&'a Text),
}

impl Equivalent<Key> for Wanted<'_> {
    ghost use Rattle.aggregates.specs.Wanted.{fed_as_key, is_wanted, same_as_key};

    ghost equivalent = { is_wanted };

    ghost respects_hash = { fed_as_key };

    ghost respects_eq = { same_as_key };

    #[inline(always)]
    fn equivalent(&self, key: &Key) -> bool {
        match (self, key) {
            (Wanted::Integer(n), Key::Integer(other)) => *n == *other,
            (Wanted::String(text), Key::String(other)) => **text == *other,
            _ => false,
        }
    }
}

/// Where an object holds a value.
#[derive(Drop)]
pub enum ElementPlace {
    /// An element of an array, or a field of a record.
    Element(usize),
    /// A key of a table.
    Key(Key),
}
