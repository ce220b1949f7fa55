//! What objects are made of, seen one by one.

ghost use Rattle.std.specs.Prelude.{◌≡◌, ◌≤◌, IfSome, None, Some, length, slice_get};
ghost use Rattle.aggregates.specs.Keys.{key_of};
ghost use Rattle.heap.specs.Parts.{bounds_in, entries_in, fields_in};

use crate::heap::Heap;
use aggregates::{Bounds, Element, Key, Object};
use strings::Text;

impl<V: Element> Heap<V> {
    /// The dimensions of an array; what isn't an array has none.
    pub fn bounds(&self, object: usize) -> &[Bounds]
        ensures { result.now ≡ bounds_in (slice_get self.now object) }
    {
        match self.object(object) {
            Some(Object::Array(array)) => array.bounds(),
            _ => &[],
        }
    }

    /// The key and the value of the entry of a table that stands at an index, in the order in which the keys were first
    /// assigned.
    pub fn table_entry(&self, object: usize, index: usize) -> Option<(&Key, &V)>
        ensures there { IfSome result (λ e. slice_get (entries_in (slice_get self.now object)) index
            ≡ Some (record { key = key_of e.0.now; value = e.1.now })) }
        ensures all { result ≡ None → length (entries_in (slice_get self.now object)) ≤ index }
    {
        match self.object(object) {
            Some(Object::Table(table)) => table.entry(index),
            _ => None,
        }
    }

    /// The names of the fields of a record; what isn't a record has none.
    pub fn fields(&self, object: usize) -> &[Text]
        ensures { result.now ≡ fields_in (slice_get self.now object) }
    {
        match self.object(object) {
            Some(Object::Record(record)) => record.fields.as_slice(),
            _ => &[],
        }
    }
}
