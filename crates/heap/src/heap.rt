//! The objects of a run.

ghost use Rattle.std.specs.Prelude.{◌≡◌, ◌≤◌, ◌++◌, ◌∷◌, [], length, slice_get, Some, true, false, IfOk};
ghost use Rattle.std.specs.Prelude.{OnOk, OnErr, option_map, if◌then◌else◌, None};
ghost use Rattle.std.specs.Option.{option_copied};
ghost use Rattle.model.specs.Language.Operators.{with_element, with_value_for};
ghost use Rattle.model.specs.Language.Values as values;
ghost use Rattle.model.specs.Language.Values.{ArrayOf, TableOf, RecordOf};
ghost use Rattle.model.specs.Language.Prototypes.{elements_in};
ghost use Rattle.aggregates.specs.Keys.{key_of};
ghost use Rattle.aggregates.specs.Objects.{held_at, stored_at, if_stored, index_in, value_in};
ghost use Rattle.heap.specs.Objects.{put_at, place_in, element_in, dimensions_in, field_in, record_type};
ghost use Rattle.aggregates.specs.Made.{kind_of, object_of, StandBelow};
ghost use Rattle.heap.specs.Made.{filled, copied, rows_in, rows_array, number, with_object, values_in};
ghost use Rattle.heap.specs.Marked.{marks_in};
ghost use Rattle.model.specs.Machine.Living.{cleared};

use crate::marks::Marks;
use crate::page::Page;
use crate::pages::Pages;
use aggregates::{
    Array, Bounds, Element, ElementPlace, FieldValues, Key, Names, Object, ObjectKind, Record,
    Table, are_bounds, place_among,
};
use std::alloc::{AllocError, Global};
use std::marker::Model;
use strings::Text;

/// How many objects have a place without a page.
const FIRST: usize = 4096;

/// As how many values an object counts, beside those that it held when it was made.
const EACH_OBJECT: usize = 2;

/// The objects of a run. Contracts see the list of them in the order of making; an object's number is its place there.
#[derive(Drop)]
pub struct Heap<V> {
    // Those that were made first: one look finds them.
    first: Page<V>,
    // The others.
    rest: Pages<V>,
    // How many were made.
    count: usize,
    // How much was made, counted in values.
    made: usize,
}

impl<V> Model for Heap<V> {
    ghost use Rattle.std.specs.Prelude.{List, ◌≡◌, ◌+◌, ◌++◌, length};
    ghost use Rattle.model.specs.Language.Values as values;

    ghost Value = { List (values.Object V) };

    ghost view = { λ h. h.first ++ h.rest };

    ghost invariant = { λ h. h.count ≡ length h.first + length h.rest };
}

impl<V: Element> Heap<V> {
    /// The heap without objects. Takes no memory.
    pub fn new(alloc: Global) -> Heap<V>
        ensures { result ≡ [] }
    {
        Heap {
            first: Page::new(alloc),
            rest: Pages::new(alloc),
            count: 0,
            made: 0,
        }
    }

    /// How many objects there are.
    #[inline(always)]
    pub fn count(&self) -> usize
        ensures { result ≡ length self.now }
    {
        self.count
    }

    /// Below which place each value stands that an object holds.
    pub fn held(&self, object: usize) -> usize
        ensures { StandBelow result (values_in (slice_get self.now object)) }
    {
        match self.object(object) {
            Some(object) => object.held(),
            None => 0,
        }
    }

    /// One of the values that an object holds: of an array's elements, a table's values in the order of its keys, or a
    /// record's. Takes no memory.
    #[inline(always)]
    pub fn value(&self, object: usize, index: usize) -> Option<&V>
        ensures { option_copied result ≡ slice_get (values_in (slice_get self.now object)) index }
    {
        self.object(object)?.value(index)
    }

    /// Which kind of object has this number, if there is one.
    pub fn kind(&self, object: usize) -> Option<ObjectKind>
        ensures { result ≡ option_map kind_of (slice_get self.now object) }
    {
        Some(self.object(object)?.kind())
    }

    /// What an object holds at a place. Outside an array's bounds, and for a key that was never assigned, it is `None`.
    /// Takes no memory.
    #[inline(always)]
    pub fn get(&self, object: usize, place: &ElementPlace) -> Option<&V>
        ensures { option_copied result ≡ held_at place.now (slice_get self.now object) }
    {
        self.object(object)?.get(place)
    }

    /// How many dimensions an array has; what isn't an array has none. Takes no memory.
    pub fn dimensions(&self, object: usize) -> usize
        ensures count { result ≡ dimensions_in (slice_get self.now object) }
        ensures few { result ≤ 8 }
    {
        match self.object(object) {
            Some(Object::Array(array)) => array.dimensions(),
            _ => 0,
        }
    }

    /// How many rows the array of a table would have; what isn't a table has none. Takes no memory.
    pub fn row_count(&self, object: usize) -> usize
        ensures { result ≡ rows_in V.null_test (slice_get self.now object) }
    {
        match self.object(object) {
            Some(Object::Table(table)) => table.row_count(),
            _ => 0,
        }
    }

    /// The place of an array's element, by its subscripts. Takes no memory.
    pub fn place(&self, object: usize, subscripts: &[i64]) -> Option<usize>
        ensures { result ≡ place_in subscripts.now (slice_get self.now object) }
    {
        match self.object(object) {
            Some(Object::Array(array)) => array.place(subscripts),
            _ => None,
        }
    }

    /// The place of an array's element, by its only subscript. Takes no memory.
    #[inline(always)]
    pub fn place_of_one(&self, object: usize, subscript: i64) -> Option<usize>
        ensures { result ≡ place_in (subscript ∷ []) (slice_get self.now object) }
    {
        match self.object(object) {
            Some(Object::Array(array)) => array.place_of_one(subscript),
            _ => None,
        }
    }

    /// What an array holds for its only subscript, if it has such an element. Takes no memory.
    #[inline(always)]
    pub fn element(&self, object: usize, subscript: i64) -> Option<&V>
        ensures { option_copied result ≡ element_in (subscript ∷ []) (slice_get self.now object) }
    {
        match self.object(object) {
            Some(Object::Array(array)) => array.get(array.place_of_one(subscript)?),
            _ => None,
        }
    }

    /// Where the entry of a table's key stands, if that key was ever assigned; what isn't a table has none. Takes no memory.
    #[inline(always)]
    pub fn index_of(&self, object: usize, key: &Key) -> Option<usize>
        ensures { result ≡ index_in (key_of key.now) (slice_get self.now object) }
    {
        self.object(object)?.index_of(key)
    }

    /// Where the entry of a table's string stands, if that key was ever assigned; what isn't a table has none. Takes no
    /// memory.
    #[inline(always)]
    pub fn index_of_text(&self, object: usize, text: &Text) -> Option<usize>
        ensures { result ≡ index_in (values.StringAt text.now) (slice_get self.now object) }
    {
        self.object(object)?.index_of_text(text)
    }

    /// The value of the entry of a table that stands at an index. Takes no memory.
    #[inline(always)]
    pub fn entry(&self, object: usize, index: usize) -> Option<&V>
        ensures { (key : values.Key) → index_in key (slice_get self.now object) ≡ Some index
            → option_copied result ≡ value_in key (slice_get self.now object) }
    {
        self.object(object)?.entry(index)
    }

    /// Stores a value in the entry of a table that stands at an index, if one stands there. Takes no memory.
    #[inline(always)]
    pub fn put_entry(&mut self, object: usize, index: usize, value: V) -> bool
        ensures stored { (key : values.Key) → index_in key (slice_get self.old object) ≡ Some index
            → if_stored result self.new
            ≡ put_at object (with_value_for key value (slice_get self.old object)) self.old }
        ensures nowhere { result ≡ false → self.new ≡ self.old }
    {
        if object < self.first.count() {
            return self.first.put_entry(object, index, value);
        }
        self.rest
            .put_entry(object - self.first.count(), index, value)
    }

    /// Stores a value in an element of an array that is written, if one is there. Takes no memory.
    #[inline(always)]
    pub fn put_written(&mut self, object: usize, index: usize, value: V) -> bool
        ensures stored { result ≡ true
            → put_at object (with_element index value (slice_get self.old object)) self.old ≡ Some self.new }
        ensures nowhere { result ≡ false → self.new ≡ self.old }
    {
        if object < self.first.count() {
            return self.first.put_written(object, index, value);
        }
        self.rest
            .put_written(object - self.first.count(), index, value)
    }

    /// The place of a record's field, by its name. Takes no memory.
    pub fn field(&self, object: usize, name: &Text) -> Option<usize>
        ensures { result ≡ field_in name.now (slice_get self.now object) }
    {
        match self.object(object) {
            Some(Object::Record(record)) => place_among(name, record.fields.as_slice()),
            _ => None,
        }
    }

    /// The type of a record.
    pub fn record_type(&self, object: usize) -> Option<&Text>
        ensures { option_copied result ≡ record_type (slice_get self.now object) }
    {
        match self.object(object) {
            Some(Object::Record(record)) => Some(&record.type_name),
            _ => None,
        }
    }

    /// Stores a value at a place of an object, if it has that place. A table may take memory, and so may an
    /// array that was copied.
    #[inline(always)]
    pub fn set(&mut self, object: usize, place: ElementPlace, value: V) -> Result<bool, AllocError>
        ensures stored { IfOk result (λ stored.
            if_stored stored self.new
            ≡ put_at object (stored_at place value (slice_get self.old object)) self.old) }
        ensures nowhere { IfOk result (λ stored. stored ≡ false → self.new ≡ self.old) }
        ensures refused { OnErr result (self.new ≡ self.old) }
    {
        if object < self.first.count() {
            return self.first.set(object, place, value);
        }
        self.rest.set(object - self.first.count(), place, value)
    }

    /// A new array with this value everywhere; its number. Bounds that no array may have are refused by `None`.
    pub fn new_array(
        &mut self,
        alloc: Global,
        bounds: Vec<Bounds>,
        value: &V,
    ) -> Result<Option<usize>, AllocError>
        ensures number { IfOk result (λ made.
            made ≡ number (filled bounds.items value.now) self.old) }
        ensures made { OnOk result
            (self.new ≡ with_object (filled bounds.items value.now) self.old) }
        ensures refused { OnErr result (self.new ≡ self.old) }
    {
        if !are_bounds(&bounds) {
            return Ok(None);
        }
        let array = Array::filled(alloc, bounds, value)?;
        Ok(Some(self.add(Object::Array(array))?))
    }

    /// A new table without entries; its number.
    pub fn new_table(&mut self, alloc: Global) -> Result<usize, AllocError>
        ensures number { IfOk result (λ made. made ≡ length self.old) }
        ensures made { OnOk result (self.new ≡ self.old ++ TableOf [] ∷ []) }
        ensures refused { OnErr result (self.new ≡ self.old) }
    {
        self.add(Object::Table(Table::new(alloc)))
    }

    /// A new record of this type, with these fields and their values, which are taken out of the vector; its number.
    pub fn new_record(
        &mut self,
        type_name: Text,
        fields: Names,
        values: &mut Vec<V>,
    ) -> Result<usize, AllocError>
        ensures number { IfOk result (λ made. made ≡ length self.old) }
        ensures made { OnOk result
            (self.new ≡ self.old ++ RecordOf type_name fields values.old.items ∷ []) }
        ensures refused { OnErr result (self.new ≡ self.old) }
    {
        let values = FieldValues::taken(values)?;
        self.add(Object::Record(Record {
            type_name,
            fields,
            values,
        }))
    }

    /// A new array like this one; its number. What isn't an array is refused by `None`.
    pub fn copy_array(&mut self, alloc: Global, object: usize) -> Result<Option<usize>, AllocError>
        ensures number { IfOk result (λ made.
            made ≡ number (copied (slice_get self.old object)) self.old) }
        ensures made { OnOk result
            (self.new ≡ with_object (copied (slice_get self.old object)) self.old) }
        ensures refused { OnErr result (self.new ≡ self.old) }
    {
        let Some(Object::Array(array)) = self.object(object) else {
            return Ok(None);
        };
        let copy = array.copy(alloc)?;
        Ok(Some(self.add(Object::Array(copy))?))
    }

    /// A new array of a table's keys and values, a row for each value that isn't null; its number.
    /// What isn't a table, or has no such value, is refused by `None`.
    pub fn table_to_array(
        &mut self,
        alloc: Global,
        object: usize,
    ) -> Result<Option<usize>, AllocError>
        ensures number { IfOk result (λ made.
            made ≡ number (rows_array V.null_test V.key_value
            (slice_get self.old object)) self.old) }
        ensures made { OnOk result
            (self.new ≡ with_object
            (rows_array V.null_test V.key_value (slice_get self.old object)) self.old) }
        ensures refused { OnErr result (self.new ≡ self.old) }
    {
        let Some(Object::Table(table)) = self.object(object) else {
            return Ok(None);
        };
        let Some(array) = table.to_array(alloc)? else {
            return Ok(None);
        };
        Ok(Some(self.add(Object::Array(array))?))
    }

    /// Gives back each object without a mark: an empty table stands in its place. Numbers past the marks have one. Takes
    /// no memory.
    pub fn clear(&mut self, alloc: Global, marks: &Marks)
        ensures { self.new ≡ cleared (marks_in marks.now) self.old }
    {
        self.first.clear(alloc, marks, 0);
        self.rest.clear(alloc, marks, self.first.count());
    }

    /// How much was made so far, counted in values: each object, and the values that it held when it was made. No contract
    /// speaks of it.
    #[inline(always)]
    pub fn made_size(&self) -> usize {
        self.made
    }

    /// How much is held, told in values: what objects hold, and the room for objects. No contract speaks of it.
    pub fn held_size(&self) -> usize {
        self.rest.held_size().saturating_add(self.first.held_size())
    }

    /// The object of this number.
    #[inline(always)]
    pub(crate) fn object(&self, number: usize) -> Option<&Object<V>>
        ensures { option_map object_of (option_copied result) ≡ slice_get self.now number }
    {
        if number < self.first.count() {
            return self.first.object(number);
        }
        self.rest.object(number - self.first.count())
    }

    // One more object; its number.
    #[inline(always)]
    fn add(&mut self, object: Object<V>) -> Result<usize, AllocError>
        ensures number { IfOk result (λ made. made ≡ length self.old) }
        ensures made { OnOk result (self.new ≡ self.old ++ object_of object ∷ []) }
        ensures refused { OnErr result (self.new ≡ self.old) }
    {
        let number = self.count;
        let made = self
            .made
            .saturating_add(object.size())
            .saturating_add(EACH_OBJECT);
        let Some(next) = number.checked_add(1) else {
            return Err(AllocError);
        };
        if number < FIRST && number == self.first.count() {
            self.first.push(object)?;
        } else {
            self.rest.push(object)?;
        }
        self.count = next;
        self.made = made;
        Ok(number)
    }
}
