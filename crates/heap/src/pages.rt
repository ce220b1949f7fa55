//! Objects by their numbers, in pages. A page is given back as a whole once nothing reaches an object of it.

ghost use Rattle.std.specs.Prelude.{◌≡◌, ◌+◌, ◌*◌, ◌<◌, ◌≤◌, ◌++◌, ◌∷◌, [], take, length, slice_get, Some, true, false, IfOk, OnOk, OnErr, option_map};
ghost use Rattle.std.specs.Option.{option_copied};
ghost use Rattle.model.specs.Language.Operators.{with_element, with_value_for};
ghost use Rattle.model.specs.Language.Values as values;
ghost use Rattle.model.specs.Machine.Living.{cleared, no_object};
ghost use Rattle.aggregates.specs.Made.{object_of};
ghost use Rattle.heap.specs.Marked.{marks_in};
ghost use Rattle.heap.specs.Paged.{paged};
ghost use Rattle.aggregates.specs.Objects.{stored_at, if_stored, index_in};
ghost use Rattle.heap.specs.Objects.{put_at};

use crate::flags::PAGE;
use crate::marks::Marks;
use crate::page::Page;
use aggregates::{Element, ElementPlace, Object, Table};
use std::alloc::{AllocError, Global};
use std::marker::Model;

/// As how many values a page counts, beside those that are held in it.
const EACH_PAGE: usize = 8;

/// Objects by their numbers. Contracts see the list of them; an empty table stands for each that was given back.
#[derive(Drop)]
pub(crate) struct Pages<V> {
    // Pages of `PAGE` objects each. Of one that was given back no object is held.
    pages: Vec<Page<V>>,
    // How many objects there are.
    count: usize,
    // What stands where no object is held.
    nothing: Object<V>,
}

impl<V> Model for Pages<V> {
    ghost use Rattle.std.specs.Prelude.{List, ◌≡◌, ◌≤◌, ◌+◌, ◌*◌, length, take};
    ghost use Rattle.model.specs.Language.Values as values;
    ghost use Rattle.model.specs.Machine.Living.{no_object};
    ghost use Rattle.aggregates.specs.Made.{object_of};
    ghost use Rattle.heap.specs.Paged.{paged};

    ghost Value = { List (values.Object V) };

    ghost view = { λ p. take p.count (paged no_object 512 p.pages.items) };

    ghost invariant = { λ p. (object_of p.nothing ≡ no_object) × (p.count ≤ 512 * length p.pages.items)
        × (512 * length p.pages.items ≤ p.count + 512) };
}

impl<V: Element> Pages<V> {
    /// No object. Takes no memory.
    pub(crate) fn new(alloc: Global) -> Pages<V>
        ensures { result ≡ [] }
    {
        Pages {
            pages: Vec::new(alloc),
            count: 0,
            nothing: Object::Table(Table::new(alloc)),
        }
    }

    /// How many objects there are.
    #[inline(always)]
    pub(crate) fn count(&self) -> usize
        ensures { result ≡ length self.now }
    {
        self.count
    }

    /// The object of this number.
    #[cold]
    #[inline(never)]
    pub(crate) fn object(&self, number: usize) -> Option<&Object<V>>
        ensures { option_map object_of (option_copied result) ≡ slice_get self.now number }
    {
        if number >= self.count {
            return None;
        }
        match self.pages[number / PAGE].object(number % PAGE) {
            Some(object) => Some(object),
            None => Some(&self.nothing),
        }
    }

    /// Stores a value in the entry of a table that stands at an index, if one stands there. Takes no memory.
    #[cold]
    #[inline(never)]
    pub(crate) fn put_entry(&mut self, number: usize, index: usize, value: V) -> bool
        ensures stored { (key : values.Key) → index_in key (slice_get self.old number) ≡ Some index
            → if_stored result self.new
            ≡ put_at number (with_value_for key value (slice_get self.old number)) self.old }
        ensures nowhere { result ≡ false → self.new ≡ self.old }
        ensures long { length self.new ≡ length self.old }
    {
        if number >= self.count {
            return false;
        }
        let stored = self.pages[number / PAGE].put_entry(number % PAGE, index, value);
        stored
    }

    /// Stores a value in an element of an array that is written, if one is there. Takes no memory.
    #[cold]
    #[inline(never)]
    pub(crate) fn put_written(&mut self, number: usize, index: usize, value: V) -> bool
        ensures stored { result ≡ true
            → put_at number (with_element index value (slice_get self.old number)) self.old ≡ Some self.new }
        ensures nowhere { result ≡ false → self.new ≡ self.old }
        ensures long { length self.new ≡ length self.old }
    {
        if number >= self.count {
            return false;
        }
        let stored = self.pages[number / PAGE].put_written(number % PAGE, index, value);
        stored
    }

    /// Stores a value at a place of an object, if it has that place. A table may take memory, and so may an
    /// array that was copied.
    #[cold]
    #[inline(never)]
    pub(crate) fn set(
        &mut self,
        number: usize,
        place: ElementPlace,
        value: V,
    ) -> Result<bool, AllocError>
        ensures stored { IfOk result (λ stored.
            if_stored stored self.new
            ≡ put_at number (stored_at place value (slice_get self.old number)) self.old) }
        ensures nowhere { IfOk result (λ stored. stored ≡ false → self.new ≡ self.old) }
        ensures refused { OnErr result (self.new ≡ self.old) }
        ensures long { length self.new ≡ length self.old }
    {
        if number >= self.count {
            return Ok(false);
        }
        self.pages[number / PAGE].hold(number % PAGE)?;
        let stored = self.pages[number / PAGE].set(number % PAGE, place, value)?;
        Ok(stored)
    }

    /// One more object.
    #[inline(always)]
    pub(crate) fn push(&mut self, object: Object<V>) -> Result<(), AllocError>
        ensures made { OnOk result (self.new ≡ self.old ++ object_of object ∷ []) }
        ensures refused { OnErr result (self.new ≡ self.old) }
    {
        let number = self.count;
        let Some(next) = number.checked_add(1) else {
            return Err(AllocError);
        };
        make_room(&mut self.pages, number)?;
        put_behind(&mut self.pages, number, object)?;
        self.count = next;
        Ok(())
    }

    /// Gives back each object without a mark: an empty table stands in its place. Their numbers begin with this one. Takes
    /// no memory.
    pub(crate) fn clear(&mut self, alloc: Global, marks: &Marks, first: usize)
        requires { first + length self.old ≤ usize.MAX }
        ensures { self.new ≡ cleared (λ j. marks_in marks.now (first + j)) self.old }
    {
        for page in 0..self.pages.len() {
            self.pages[page].give_back(alloc, marks, first + PAGE * page);
        }
    }

    /// How much is held, told in values. No contract speaks of it.
    pub(crate) fn held_size(&self) -> usize {
        let mut size = self.pages.len().saturating_mul(EACH_PAGE);
        for page in self.pages.as_slice() {
            size = size.saturating_add(page.held_size());
        }
        size
    }
}

// Room for one more object behind so many: a page that holds nothing yet, where all are full.
fn make_room<V: Element>(pages: &mut Vec<Page<V>>, count: usize) -> Result<(), AllocError>
    requires counted { count ≤ 512 * length pages.old.items }
    requires full { 512 * length pages.old.items ≤ count + 512 }
    ensures room { OnOk result (count < 512 * length pages.new.items) }
    ensures kept { take count (paged no_object 512 pages.new.items) ≡ take count (paged no_object 512 pages.old.items) }
    ensures some { count ≤ 512 * length pages.new.items }
    ensures most { 512 * length pages.new.items ≤ count + 512 }
{
    if count / PAGE >= pages.len() {
        let page = Page::with_room(*pages.allocator(), PAGE)?;
        pages.push(page)?;
    }
    Ok(())
}

// One more object, behind so many.
#[inline(always)]
fn put_behind<V: Element>(
    pages: &mut Vec<Page<V>>,
    count: usize,
    object: Object<V>,
) -> Result<(), AllocError>
    requires { count < 512 * length pages.old.items }
    ensures made { OnOk result (take (count + 1) (paged no_object 512 pages.new.items)
        ≡ take count (paged no_object 512 pages.old.items) ++ object_of object ∷ []) }
    ensures refused { OnErr result (paged no_object 512 pages.new.items ≡ paged no_object 512 pages.old.items) }
    ensures long { length pages.new.items ≡ length pages.old.items }
{
    pages[count / PAGE].place(count % PAGE, object)
}
