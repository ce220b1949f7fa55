//! An array: its dimensions, and its elements side by side.

ghost use Rattle.std.specs.Prelude.{◌≡◌, ◌<◌, ◌≤◌, ◌^◌, ◌∷◌, [], IfOk, OnErr, Some, replicate, slice_get, length, true, false};
ghost use Rattle.std.specs.Option.{option_copied};
ghost use Rattle.model.specs.Language.Aggregates.{place_from};
ghost use Rattle.model.specs.Language.Prototypes.{elements_in};
ghost use Rattle.model.specs.Language.Operators.{with_item};
ghost use Rattle.aggregates.specs.Made.{StandBelow};
ghost use Rattle.aggregates.specs.Objects.{if_stored};

use crate::bounds::{Bounds, place_of};
use crate::dimensions::Dimensions;
use crate::element::Element;
use crate::elements::Elements;
use std::alloc::{AllocError, Global};
use std::marker::Model;

/// An array. Contracts see its dimensions, and its elements, those of the last dimension side by side.
#[derive(Drop)]
pub struct Array<V> {
    bounds: Dimensions,
    elements: Elements<V>,
}

impl<V> Model for Array<V> {
    ghost use Rattle.std.specs.Prelude.{◌≡◌, ◌<◌, ◌≤◌, ◌^◌, List, length};
    ghost use Rattle.model.specs.Language.Values as values;
    ghost use Rattle.model.specs.Language.Prototypes.{elements_in};
    ghost use Rattle.aggregates.specs.Elements.{all_of, dimensions_of};

    ghost Value = { List values.Bounds × List V };

    ghost view = { λ a. (dimensions_of a.bounds, all_of a.elements) };

    ghost invariant = { λ a.
        (length (all_of a.elements) ≡ elements_in (dimensions_of a.bounds)) × (0 < elements_in (dimensions_of a.bounds))
        × (elements_in (dimensions_of a.bounds) < 2 ^ 63) × (length (dimensions_of a.bounds) ≤ 8) };
}

impl<V: Element> Array<V> {
    /// The array of these elements.
    pub(crate) fn of(bounds: Vec<Bounds>, elements: Vec<V>) -> Array<V>
        requires all { length elements.items ≡ elements_in bounds.items }
        requires some { 0 < elements_in bounds.items }
        requires few { length bounds.items ≤ 8 }
        ensures { result ≡ (bounds.items, elements.items) }
    {
        Array {
            bounds: Dimensions::of(bounds),
            elements: Elements::of(elements),
        }
    }

    /// The array with this value everywhere.
    pub fn filled(alloc: Global, bounds: Vec<Bounds>, value: &V) -> Result<Array<V>, AllocError>
        requires fits { elements_in bounds.items < 2 ^ 63 }
        requires few { length bounds.items ≤ 8 }
        ensures { IfOk result (λ array.
            array ≡ (bounds.items, replicate (elements_in bounds.items) value.now)) }
    {
        let count = crate::bounds::elements_in(&bounds);
        let elements = Elements::filled(alloc, value, count)?;
        Ok(Array {
            bounds: Dimensions::of(bounds),
            elements,
        })
    }

    /// A copy of the array, with its bounds and a clone of each element.
    pub fn copy(&self, alloc: Global) -> Result<Array<V>, AllocError>
        ensures { IfOk result (λ array. array ≡ self.now) }
    {
        let bounds = self.bounds.copy(alloc)?;
        let elements = self.elements.copy(alloc)?;
        Ok(Array { bounds, elements })
    }

    /// The element at a place.
    #[inline(always)]
    pub fn get(&self, place: usize) -> Option<&V>
        ensures { option_copied result ≡ slice_get self.now.1 place }
    {
        self.elements.get(place)
    }

    /// Its dimensions.
    pub fn bounds(&self) -> &[Bounds]
        ensures { result.now ≡ self.now.0 }
    {
        self.bounds.as_slice()
    }

    /// How many elements it has.
    pub(crate) fn size(&self) -> usize
        ensures { result ≡ length self.now.1 }
    {
        self.elements.len()
    }

    /// Below which place each element stands.
    pub(crate) fn held(&self) -> usize
        ensures { StandBelow result self.now.1 }
    {
        self.elements.held()
    }

    /// How many dimensions it has.
    pub fn dimensions(&self) -> usize
        ensures count { result ≡ length self.now.0 }
        ensures few { result ≤ 8 }
    {
        self.bounds.as_slice().len()
    }

    /// The place of the element with these subscripts.
    pub fn place(&self, subscripts: &[i64]) -> Option<usize>
        ensures { result ≡ place_from 0 self.now.0 subscripts.now }
    {
        place_of(self.bounds.as_slice(), subscripts)
    }

    /// The place of the element with this subscript alone.
    #[inline(always)]
    pub fn place_of_one(&self, subscript: i64) -> Option<usize>
        ensures { result ≡ place_from 0 self.now.0 (subscript ∷ []) }
    {
        self.bounds.place_of_one(subscript)
    }

    /// Another element at a place, if one is written there.
    #[inline(always)]
    pub(crate) fn put(&mut self, place: usize, value: V) -> bool
        ensures stored { result ≡ true
            → (self.new.0 ≡ self.old.0) × (with_item place value self.old.1 ≡ Some self.new.1) }
        ensures nowhere { result ≡ false → self.new ≡ self.old }
    {
        self.elements.put(place, value)
    }

    /// Another element at a place, if there is one.
    pub(crate) fn set(&mut self, place: usize, value: V) -> Result<bool, AllocError>
        ensures bounds { self.new.0 ≡ self.old.0 }
        ensures stored { IfOk result (λ stored. if_stored stored self.new.1 ≡ with_item place value self.old.1) }
        ensures nowhere { IfOk result (λ stored. stored ≡ false → self.new ≡ self.old) }
        ensures refused { OnErr result (self.new ≡ self.old) }
    {
        self.elements.set(place, value)
    }
}
