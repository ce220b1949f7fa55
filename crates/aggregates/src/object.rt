//! An object: an array, a table or a record.

ghost use Rattle.std.specs.Prelude.{◌≡◌, [], Some, IfOk, OnErr, true, false, length, slice_get};
ghost use Rattle.std.specs.Option.{option_copied};
ghost use Rattle.model.specs.Language.Aggregates.{index_of};
ghost use Rattle.model.specs.Language.Operators.{with_element, with_value_for};
ghost use Rattle.model.specs.Language.Values as values;
ghost use Rattle.aggregates.specs.Keys.{key_of};
ghost use Rattle.aggregates.specs.Objects.{held_at, stored_at, if_stored, index_in, value_in};
ghost use Rattle.aggregates.specs.Made.{object_of, kind_of, values_of, StandBelow};

use crate::array::Array;
use crate::element::Element;
use crate::field_values::FieldValues;
use crate::names::Names;
use crate::place::{ElementPlace, Key};
use crate::table::Table;
use std::alloc::{AllocError, Global};
use strings::Text;

/// Which kind of object it is.
#[derive(Clone, Copy)]
pub enum ObjectKind {
    Array,
    Table,
    Record,
}

/// A record: its type, the fields of that type and their values.
#[derive(Drop)]
pub struct Record<V> {
    pub type_name: Text,
    pub fields: Names,
    pub values: FieldValues<V>,
}

/// An array, a table or a record.
#[derive(Drop)]
pub enum Object<V> {
    Array(Array<V>),
    Table(Table<V>),
    Record(Record<V>),
}

impl<V: Element> Object<V> {
    /// Lets go what it holds: an empty table stands in its place. Takes no memory.
    #[inline(always)]
    pub fn clear(&mut self, alloc: Global)
        ensures { object_of self.new ≡ values.TableOf [] }
    {
        if !self.holds_nothing() {
            *self = Object::Table(Table::new(alloc));
        }
    }

    // Whether it is an empty table.
    #[inline(always)]
    #[tactic(auto, using(crate::proofs::Entries::no_values))]
    fn holds_nothing(&self) -> bool
        ensures { result ≡ true → object_of self.now ≡ values.TableOf [] }
    {
        match self {
            Object::Table(table) => table.len() == 0,
            Object::Array(_) | Object::Record(_) => false,
        }
    }

    /// How many values it holds.
    pub fn size(&self) -> usize
        ensures { result ≡ length (values_of (object_of self.now)) }
    {
        match self {
            Object::Array(array) => array.size(),
            Object::Table(table) => table.len(),
            Object::Record(record) => record.values.len(),
        }
    }

    /// Below which place each value stands that it holds: of an array's elements that aren't written one does.
    pub fn held(&self) -> usize
        ensures { StandBelow result (values_of (object_of self.now)) }
    {
        match self {
            Object::Array(array) => array.held(),
            Object::Table(table) => table.held(),
            Object::Record(record) => record.values.held(),
        }
    }

    /// One of the values that it holds. Takes no memory.
    #[inline(always)]
    pub fn value(&self, index: usize) -> Option<&V>
        ensures { option_copied result ≡ slice_get (values_of (object_of self.now)) index }
    {
        match self {
            Object::Array(array) => array.get(index),
            Object::Table(table) => table.nth(index),
            Object::Record(record) => record.values.get(index),
        }
    }

    /// Which kind it is.
    pub fn kind(&self) -> ObjectKind
        ensures { result ≡ kind_of (object_of self.now) }
    {
        match self {
            Object::Array(_) => ObjectKind::Array,
            Object::Table(_) => ObjectKind::Table,
            Object::Record(_) => ObjectKind::Record,
        }
    }

    /// The value at a place, if there is one. Takes no memory.
    #[inline(always)]
    pub fn get(&self, place: &ElementPlace) -> Option<&V>
        ensures { option_copied result ≡ held_at place.now (Some (object_of self.now)) }
    {
        match (self, place) {
            (Object::Array(array), ElementPlace::Element(index)) => array.get(*index),
            (Object::Table(table), ElementPlace::Key(key)) => table.get(key),
            (Object::Record(record), ElementPlace::Element(index)) => record.values.get(*index),
            _ => None,
        }
    }

    /// Where the entry of a table's key stands, if that key was ever assigned.
    #[inline(always)]
    pub fn index_of(&self, key: &Key) -> Option<usize>
        ensures { result ≡ index_in (key_of key.now) (Some (object_of self.now)) }
    {
        match self {
            Object::Table(table) => table.index_of(key),
            Object::Array(_) | Object::Record(_) => None,
        }
    }

    /// Where the entry of a table's string stands, if that key was ever assigned.
    #[inline(always)]
    pub fn index_of_text(&self, text: &Text) -> Option<usize>
        ensures { result ≡ index_in (values.StringAt text.now) (Some (object_of self.now)) }
    {
        match self {
            Object::Table(table) => table.index_of_text(text),
            Object::Array(_) | Object::Record(_) => None,
        }
    }

    /// The value of the entry of a table that stands at an index.
    #[inline(always)]
    pub fn entry(&self, index: usize) -> Option<&V>
        ensures { (key : values.Key) → index_in key (Some (object_of self.now)) ≡ Some index
            → option_copied result ≡ value_in key (Some (object_of self.now)) }
    {
        match self {
            Object::Table(table) => table.at(index),
            Object::Array(_) | Object::Record(_) => None,
        }
    }

    /// Another value in the entry of a table that stands at an index, if one stands there.
    #[inline(always)]
    pub fn put_entry(&mut self, index: usize, value: V) -> bool
        ensures stored { (key : values.Key) → index_in key (Some (object_of self.old)) ≡ Some index
            → if_stored result (object_of self.new) ≡ with_value_for key value (Some (object_of self.old)) }
        ensures nowhere { result ≡ false → object_of self.new ≡ object_of self.old }
    {
        match self {
            Object::Table(table) => table.put(index, value),
            Object::Array(_) | Object::Record(_) => false,
        }
    }

    /// Another element at a place of an array, if one is written there.
    #[inline(always)]
    pub fn put_written(&mut self, index: usize, value: V) -> bool
        ensures stored { result ≡ true
            → with_element index value (Some (object_of self.old)) ≡ Some (object_of self.new) }
        ensures nowhere { result ≡ false → object_of self.new ≡ object_of self.old }
    {
        match self {
            Object::Array(array) => array.put(index, value),
            Object::Table(_) | Object::Record(_) => false,
        }
    }

    /// Another value at a place, if the object has that place.
    #[inline(always)]
    pub fn set(&mut self, place: ElementPlace, value: V) -> Result<bool, AllocError>
        ensures stored { IfOk result (λ stored.
            if_stored stored (object_of self.new)
            ≡ stored_at place value (Some (object_of self.old))) }
        ensures nowhere { IfOk result (λ stored.
            stored ≡ false → object_of self.new ≡ object_of self.old) }
        ensures refused { OnErr result (object_of self.new ≡ object_of self.old) }
    {
        match (self, place) {
            (Object::Array(array), ElementPlace::Element(index)) => array.set(index, value),
            (Object::Table(table), ElementPlace::Key(key)) => {
                table.set(key, value)?;
                Ok(true)
            }
            (Object::Record(record), ElementPlace::Element(index)) => {
                Ok(record.values.put(index, value))
            },
            _ => Ok(false),
        }
    }
}

/// Where a name stands among the names of fields.
pub fn place_among(name: &Text, fields: &[Text]) -> Option<usize>
    ensures { result ≡ index_of 0 name.now fields.now }
{
    for (k, field) in fields.iter().enumerate() {
        if name == field {
            return Some(k);
        }
    }
    None
}
