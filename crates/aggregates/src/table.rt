//! A table: values for keys, in the order in which the keys were first assigned.

ghost use Rattle.std.specs.Prelude.{◌≡◌, ◌<◌, ◌^◌, ◌≤◌, [], Some, None, IfOk, IfSome, OnOk, OnErr, false, length, map, slice_get};
ghost use Rattle.std.specs.Option.{option_copied};
ghost use Rattle.model.specs.Language.Operators.{with_entry};
ghost use Rattle.model.specs.Language.Values as values;
ghost use Rattle.model.specs.Language.Aggregates.{row_count, rows, pairs};
ghost use Rattle.aggregates.specs.Keys.{index_at, key_of, value_at, table_rows};
ghost use Rattle.aggregates.specs.Made.{StandBelow};
ghost use Rattle.aggregates.specs.Objects.{if_stored};

use crate::array::Array;
use crate::bounds::Bounds;
use crate::element::Element;
use crate::place::{Key, Wanted};
use indexmap::IndexMap;
use std::alloc::{AllocError, Global};
use std::marker::Model;
use strings::Text;

/// A table. Contracts see its entries in their order.
#[derive(Drop)]
pub struct Table<V> {
    values: IndexMap<Key, V>,
}

impl<V> Model for Table<V> {
    ghost use Rattle.std.specs.Prelude.{List};
    ghost use Rattle.model.specs.Language.Values.{Entry};

    ghost Value = { List (Entry V) };

    ghost use Rattle.aggregates.specs.Keys.{entries_of};

    ghost view = { λ t. entries_of t.values.entries };
}

impl<V: Element> Table<V> {
    /// The table without entries. Takes no memory.
    pub fn new(alloc: Global) -> Table<V>
        ensures { result ≡ [] }
    {
        Table {
            values: IndexMap::new(alloc),
        }
    }

    /// The value for a key, if one was ever assigned. Takes no memory.
    pub(crate) fn get(&self, key: &Key) -> Option<&V>
        ensures { option_copied result ≡ value_at (key_of key.now) self.now }
    {
        self.values.get(key)
    }

    /// Where a key's entry stands, if the key was ever assigned. Takes no memory.
    #[inline(always)]
    pub(crate) fn index_of(&self, key: &Key) -> Option<usize>
        ensures { result ≡ index_at (key_of key.now) self.now }
    {
        self.values.get_index_of(key)
    }

    /// Where a string's entry stands, if that key was ever assigned. Takes no memory.
    #[inline(always)]
    pub(crate) fn index_of_text(&self, text: &Text) -> Option<usize>
        ensures { result ≡ index_at (values.StringAt text.now) self.now }
    {
        self.values.get_index_of(Wanted::String(text))
    }

    /// The value of the entry that stands at an index.
    #[inline(always)]
    pub(crate) fn at(&self, index: usize) -> Option<&V>
        ensures { (key : values.Key) → index_at key self.now ≡ Some index
            → option_copied result ≡ value_at key self.now }
    {
        let Some((_key, value)) = self.values.get_index(index) else {
            return None;
        };
        Some(value)
    }

    /// The entry that stands at an index.
    pub fn entry(&self, index: usize) -> Option<(&Key, &V)>
        ensures there { IfSome result (λ e. slice_get self.now index
            ≡ Some (record { key = key_of e.0.now; value = e.1.now })) }
        ensures all { result ≡ None → length self.now ≤ index }
    {
        let Some((key, value)) = self.values.get_index(index) else {
            return None;
        };
        Some((key, value))
    }

    /// The value of the entry that stands at an index, if one does. Takes no memory.
    #[inline(always)]
    pub(crate) fn nth(&self, index: usize) -> Option<&V>
        ensures { option_copied result ≡ slice_get (map (λ e. e.value) self.now) index }
    {
        let Some((_key, value)) = self.values.get_index(index) else {
            return None;
        };
        Some(value)
    }

    /// How many entries there are.
    #[tactic(auto, using(crate::proofs::Entries::entries_long))]
    pub(crate) fn len(&self) -> usize
        ensures { result ≡ length (map (λ e. e.value) self.now) }
    {
        self.values.len()
    }

    /// Below which place each value stands.
    #[tactic(auto, using(crate::proofs::Entries::entries_stand))]
    pub(crate) fn held(&self) -> usize
        ensures { StandBelow result (map (λ e. e.value) self.now) }
    {
        self.values.len()
    }

    /// Another value in the entry that stands at an index, if one stands there.
    #[inline(always)]
    pub(crate) fn put(&mut self, index: usize, value: V) -> bool
        ensures stored { (key : values.Key) → index_at key self.old ≡ Some index
            → if_stored result self.new ≡ Some (with_entry key value self.old) }
        ensures nowhere { result ≡ false → self.new ≡ self.old }
    {
        let Some(old) = self.values.get_index_mut(index) else {
            return false;
        };
        old.put(value);
        true
    }

    /// Another value for a key. A key that was assigned before keeps its place.
    pub(crate) fn set(&mut self, key: Key, value: V) -> Result<(), AllocError>
        ensures ok { OnOk result (self.new ≡ with_entry (key_of key) value self.old) }
        ensures err { OnErr result (self.new ≡ self.old) }
    {
        let _old = self.values.insert(key, value)?;
        Ok(())
    }

    /// How many entries have a value that isn't null.
    pub fn row_count(&self) -> usize
        ensures count { result ≡ row_count V.null_test self.now }
        ensures small { result < 2 ^ 63 }
    {
        let mut count = 0;
        for i in 0..self.values.len() {
            let Some((_key, value)) = self.values.get_index(i) else {
                unreachable!();
            };
            if !value.is_null() {
                count += 1;
            }
        }
        count
    }

    /// Key and value of each entry whose value isn't null.
    pub(crate) fn rows(&self, alloc: Global) -> Result<Vec<V>, AllocError>
        ensures { IfOk result (λ all. all.items ≡ rows V.null_test V.key_value self.now) }
    {
        let mut all = Vec::new(alloc);
        for i in 0..self.values.len() {
            let Some((key, value)) = self.values.get_index(i) else {
                unreachable!();
            };
            if !value.is_null() {
                all.push(V::from_key(key)?)?;
                all.push(value.clone()?)?;
            }
        }
        Ok(all)
    }

    /// The array of its rows, if it has any.
    pub fn to_array(&self, alloc: Global) -> Result<Option<Array<V>>, AllocError>
        ensures { IfOk result (λ made. made ≡ table_rows V.null_test V.key_value self.now) }
    {
        let count = self.row_count();
        if count == 0 {
            return Ok(None);
        }
        let bounds = pairs(alloc, count)?;
        let rows = self.rows(alloc)?;
        Ok(Some(Array::of(bounds, rows)))
    }
}

// The dimensions of rows of two.
fn pairs(alloc: Global, count: usize) -> Result<Vec<Bounds>, AllocError>
    requires some { 0 < count }
    requires fits { count < 2 ^ 63 }
    ensures { IfOk result (λ bounds. bounds.items ≡ pairs count) }
{
    let mut bounds = Vec::with_capacity(alloc, 2)?;
    bounds.push(Bounds::first(count as i64))?;
    bounds.push(Bounds::first(2))?;
    Ok(bounds)
}
