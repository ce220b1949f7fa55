//! A page of objects: those that have numbers one after the other.

ghost use Rattle.std.specs.Prelude.{◌≡◌, ◌<◌, ◌≤◌, ◌+◌, ◌++◌, ◌∷◌, [], length, slice_get, slice_set, Some, true, false, IfOk, OnOk, OnErr, option_map};
ghost use Rattle.std.specs.Option.{option_copied};
ghost use Rattle.model.specs.Language.Operators.{with_element, with_value_for};
ghost use Rattle.model.specs.Language.Values as values;
ghost use Rattle.model.specs.Machine.Living.{cleared};
ghost use Rattle.aggregates.specs.Made.{object_of};
ghost use Rattle.heap.specs.Marked.{IsClearedOn, marks_in};
ghost use Rattle.aggregates.specs.Objects.{stored_at, if_stored, index_in};
ghost use Rattle.heap.specs.Objects.{put_at};
ghost use Rattle.heap.specs.Paged.{whole};

use crate::flags::PAGE;
use crate::marks::Marks;
use aggregates::{Element, ElementPlace, Object, Table};
use std::alloc::{AllocError, Global};
use std::marker::Model;

/// As how many values the room for an object counts.
const EACH_PLACE: usize = 2;

/// Objects by their places in the page. Contracts see the list of them; behind those an empty table stands at each place.
#[derive(Drop)]
pub(crate) struct Page<V> {
    objects: Vec<Object<V>>,
}

impl<V> Model for Page<V> {
    ghost use Rattle.std.specs.Prelude.{List};
    ghost use Rattle.model.specs.Language.Values as values;

    ghost Value = { List (values.Object V) };

    ghost use Rattle.heap.specs.Made.{objects_of};

    ghost view = { λ p. objects_of p.objects.items };
}

impl<V: Element> Page<V> {
    /// The page without objects. Takes no memory.
    pub(crate) fn new(alloc: Global) -> Page<V>
        ensures { result ≡ [] }
    {
        Page {
            objects: Vec::new(alloc),
        }
    }

    /// The page without objects, with room for so many.
    pub(crate) fn with_room(alloc: Global, count: usize) -> Result<Page<V>, AllocError>
        ensures { IfOk result (λ page. page ≡ []) }
    {
        Ok(Page {
            objects: Vec::with_capacity(alloc, count)?,
        })
    }

    /// How many objects are held.
    #[inline(always)]
    #[tactic(auto, using(crate::proofs::Objects::objects_length))]
    pub(crate) fn count(&self) -> usize
        ensures { result ≡ length self.now }
    {
        self.objects.len()
    }

    /// The object that is held at a place.
    #[inline(always)]
    #[tactic(auto, using(crate::proofs::Objects::objects_at, crate::proofs::Objects::objects_past))]
    pub(crate) fn object(&self, place: usize) -> Option<&Object<V>>
        ensures { option_map object_of (option_copied result) ≡ slice_get self.now place }
    {
        if place >= self.objects.len() {
            return None;
        }
        Some(&self.objects[place])
    }

    /// Stores a value in the entry of a table that stands at an index, if one stands there. Takes no memory.
    #[inline(always)]
    pub(crate) fn put_entry(&mut self, object: usize, index: usize, value: V) -> bool
        ensures stored { (key : values.Key) → index_in key (slice_get self.old object) ≡ Some index
            → if_stored result self.new
            ≡ put_at object (with_value_for key value (slice_get self.old object)) self.old }
        ensures nowhere { result ≡ false → self.new ≡ self.old }
        ensures long { length self.new ≡ length self.old }
    {
        if object >= self.objects.len() {
            return false;
        }
        let stored = self.objects[object].put_entry(index, value);
        stored
    }

    /// Stores a value in an element of an array that is written, if one is there. Takes no memory.
    #[inline(always)]
    pub(crate) fn put_written(&mut self, object: usize, index: usize, value: V) -> bool
        ensures stored { result ≡ true
            → put_at object (with_element index value (slice_get self.old object)) self.old ≡ Some self.new }
        ensures nowhere { result ≡ false → self.new ≡ self.old }
        ensures long { length self.new ≡ length self.old }
    {
        if object >= self.objects.len() {
            return false;
        }
        let stored = self.objects[object].put_written(index, value);
        stored
    }

    /// Stores a value at a place of an object, if it has that place. A table may take memory, and so may an
    /// array that was copied.
    #[inline(always)]
    pub(crate) fn set(
        &mut self,
        object: usize,
        place: ElementPlace,
        value: V,
    ) -> Result<bool, AllocError>
        ensures stored { IfOk result (λ stored.
            if_stored stored self.new
            ≡ put_at object (stored_at place value (slice_get self.old object)) self.old) }
        ensures nowhere { IfOk result (λ stored. stored ≡ false → self.new ≡ self.old) }
        ensures refused { OnErr result (self.new ≡ self.old) }
        ensures long { length self.new ≡ length self.old }
    {
        if object >= self.objects.len() {
            return Ok(false);
        }
        let stored = self.objects[object].set(place, value)?;
        Ok(stored)
    }

    /// Holds an object at each place up to this one: an empty table stands where none was held.
    #[inline(always)]
    pub(crate) fn hold(&mut self, place: usize) -> Result<(), AllocError>
        requires { place < 512 }
        ensures same { whole self.new ≡ whole self.old }
        ensures held { OnOk result (place < length self.new) }
    {
        if place < self.objects.len() {
            return Ok(());
        }
        self.hold_more(place)
    }

    // The same of a place where none is held.
    #[cold]
    #[inline(never)]
    fn hold_more(&mut self, place: usize) -> Result<(), AllocError>
        requires { place < 512 }
        ensures same { whole self.new ≡ whole self.old }
        ensures held { OnOk result (place < length self.new) }
    {
        let alloc = *self.objects.allocator();
        for _place in self.objects.len()..place + 1 {
            self.objects.push(Object::Table(Table::new(alloc)))?;
        }
        Ok(())
    }

    /// One more object.
    #[inline(always)]
    #[tactic(auto, using(crate::proofs::Objects::objects_push))]
    pub(crate) fn push(&mut self, object: Object<V>) -> Result<(), AllocError>
        ensures made { OnOk result (self.new ≡ self.old ++ object_of object ∷ []) }
        ensures refused { OnErr result (self.new ≡ self.old) }
    {
        push(&mut self.objects, object)
    }

    /// Another object at a place.
    #[inline(always)]
    pub(crate) fn place(&mut self, place: usize, object: Object<V>) -> Result<(), AllocError>
        requires { place < 512 }
        ensures placed { OnOk result (whole self.new ≡ slice_set (whole self.old) place (object_of object)) }
        ensures refused { OnErr result (whole self.new ≡ whole self.old) }
    {
        if place == self.objects.len() {
            push(&mut self.objects, object)?;
            return Ok(());
        }
        self.hold(place)?;
        self.objects[place] = object;
        Ok(())
    }

    /// Gives back each object without a mark: an empty table stands in its place. Their numbers begin with this one.
    pub(crate) fn clear(&mut self, alloc: Global, marks: &Marks, first: usize)
        ensures { self.new ≡ cleared (λ j. marks_in marks.now (first + j)) self.old }
    {
        let count = self.objects.len();
        let mut place = 0;
        while place < count {
            place = self.clear_part(alloc, marks, first, place);
        }
    }

    // The same from a place on, as far as a page of marks goes: the place behind.
    fn clear_part(&mut self, alloc: Global, marks: &Marks, first: usize, place: usize) -> usize
        requires { place < length self.old }
        ensures cleared { IsClearedOn (λ j. marks_in marks.now (first + j)) place result self.old self.new }
        ensures long { length self.new ≡ length self.old }
        ensures on { place < result }
        ensures within { result ≤ length self.old }
    {
        let none = marks.has_none(first, place);
        let end = place.saturating_add(PAGE).min(self.objects.len());
        for i in place..end {
            if is_unmarked(marks, first, i, none) {
                self.objects[i].clear(alloc);
            }
        }
        end
    }

    /// The same, for a page: it holds nothing from then on where none of its objects has a mark. Takes no memory.
    #[inline(always)]
    pub(crate) fn give_back(&mut self, alloc: Global, marks: &Marks, first: usize)
        ensures { whole self.new ≡ cleared (λ j. marks_in marks.now (first + j)) (whole self.old) }
    {
        if self.objects.len() == 0 {
            return;
        }
        self.give_back_held(alloc, marks, first);
    }

    // The same, where some are held.
    #[inline(never)]
    fn give_back_held(&mut self, alloc: Global, marks: &Marks, first: usize)
        ensures { whole self.new ≡ cleared (λ j. marks_in marks.now (first + j)) (whole self.old) }
    {
        if marks.has_none(first, 0) {
            *self = Page::new(alloc);
            return;
        }
        self.clear(alloc, marks, first);
    }

    /// How much is held, told in values. No contract speaks of it.
    pub(crate) fn held_size(&self) -> usize {
        let mut size = self.objects.len().saturating_mul(EACH_PLACE);
        for object in self.objects.as_slice() {
            size = size.saturating_add(object.size());
        }
        size
    }
}

// Whether an object has no mark, or none of those beside it has one.
#[inline(always)]
fn is_unmarked(marks: &Marks, first: usize, index: usize, none: bool) -> bool
    requires { none ≡ true → marks_in marks.now (first + index) ≡ false }
    ensures unmarked { result ≡ true → marks_in marks.now (first + index) ≡ false }
    ensures marked { result ≡ false → marks_in marks.now (first + index) ≡ true }
{
    if none {
        return true;
    }
    !marks.is_marked(first, index)
}

// One more item, which is moved once.
#[inline(always)]
fn push<T: Drop>(items: &mut Vec<T>, item: T) -> Result<(), AllocError>
    ensures made { OnOk result (items.new.items ≡ items.old.items ++ item ∷ []) }
    ensures refused { OnErr result (items.new.items ≡ items.old.items) }
{
    if items.len() >= items.capacity() {
        items.reserve(1)?;
    }
    items.push_reserved(item);
    Ok(())
}
