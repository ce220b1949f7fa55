//! The elements of an array. Those at the end, in whose place none was ever stored, aren't written.

ghost use Rattle.std.specs.Prelude.{◌≡◌, ◌<◌, ◌≤◌, ◌^◌, IfOk, OnOk, OnErr, Some, replicate, slice_get, length, true, false};
ghost use Rattle.std.specs.Option.{option_copied};
ghost use Rattle.model.specs.Language.Operators.{with_item};
ghost use Rattle.aggregates.specs.Elements.{all_of};
ghost use Rattle.aggregates.specs.Made.{StandBelow};
ghost use Rattle.aggregates.specs.Objects.{if_stored};

use crate::element::Element;
use crate::items::{copied, put, reserve_first};
use std::alloc::{AllocError, Global};

/// How many elements are written in one go beyond those that are asked for.
const AHEAD: usize = 128;

/// The elements that are written, what each of those behind them is, and how many these are.
#[derive(Drop)]
pub(crate) struct Elements<V> {
    written: Vec<V>,
    rest: Option<V>,
    unwritten: usize,
}

impl<V: Element> Elements<V> {
    /// These elements.
    pub(crate) fn of(written: Vec<V>) -> Elements<V>
        ensures { all_of result ≡ written.items }
    {
        Elements {
            written,
            rest: None,
            unwritten: 0,
        }
    }

    /// This value, so many times. Few are written at once; of many none is, and room for them is asked for where the
    /// first one is.
    pub(crate) fn filled(alloc: Global, value: &V, count: usize) -> Result<Elements<V>, AllocError>
        ensures { IfOk result (λ it. all_of it ≡ replicate count value.now) }
    {
        let rest = Some(value.clone()?);
        let mut elements = Elements {
            written: Vec::new(alloc),
            rest,
            unwritten: count,
        };
        if count <= AHEAD {
            elements.write_to(0)?;
        }
        Ok(elements)
    }

    /// A copy of the elements, with a clone of each value.
    pub(crate) fn copy(&self, alloc: Global) -> Result<Elements<V>, AllocError>
        ensures { IfOk result (λ it. all_of it ≡ all_of self.now) }
    {
        let written = copied(alloc, &self.written)?;
        let rest = match &self.rest {
            Some(value) => Some(value.clone()?),
            None => None,
        };
        Ok(Elements {
            written,
            rest,
            unwritten: self.unwritten,
        })
    }

    /// The element at a place.
    #[inline(always)]
    pub(crate) fn get(&self, place: usize) -> Option<&V>
        ensures { option_copied result ≡ slice_get (all_of self.now) place }
    {
        if place < self.written.len() {
            return self.written.get(place);
        }
        self.behind(place)
    }

    // The element at a place behind all that are written.
    #[inline(never)]
    fn behind(&self, place: usize) -> Option<&V>
        requires { length self.now.written.items ≤ place }
        ensures { option_copied result ≡ slice_get (all_of self.now) place }
    {
        if place - self.written.len() < self.unwritten {
            self.rest.as_ref()
        } else {
            None
        }
    }

    /// How many there are.
    pub(crate) fn len(&self) -> usize
        requires { length (all_of self.now) < 2 ^ 63 }
        ensures { result ≡ length (all_of self.now) }
    {
        match &self.rest {
            Some(_) => self.written.len() + self.unwritten,
            None => self.written.len(),
        }
    }

    /// Below which place each of them stands: all that aren't written are the same.
    #[tactic(auto, using(crate::proofs::Lists::written_stand, crate::proofs::Lists::unwritten_stand))]
    pub(crate) fn held(&self) -> usize
        requires { length (all_of self.now) < 2 ^ 63 }
        ensures { StandBelow result (all_of self.now) }
    {
        if self.unwritten == 0 {
            self.written.len()
        } else {
            self.written.len() + 1
        }
    }

    /// Another element at a place, if one is written there.
    #[inline(always)]
    pub(crate) fn put(&mut self, place: usize, value: V) -> bool
        ensures stored { result ≡ true → with_item place value (all_of self.old) ≡ Some (all_of self.new) }
        ensures nowhere { result ≡ false → all_of self.new ≡ all_of self.old }
        ensures len { length (all_of self.new) ≡ length (all_of self.old) }
        ensures there { place < length self.old.written.items → result ≡ true }
    {
        put(&mut self.written, place, value)
    }

    // Writes the elements up to a place, if one is there, and some more.
    #[inline(never)]
    fn write_to(&mut self, place: usize) -> Result<(), AllocError>
        requires { length self.old.written.items ≤ place }
        ensures same { all_of self.new ≡ all_of self.old }
        ensures there { OnOk result (place < length (all_of self.new) → place < length self.new.written.items) }
    {
        let more = place - self.written.len();
        if more >= self.unwritten {
            return Ok(());
        }
        let Some(value) = &self.rest else {
            return Ok(());
        };
        reserve_first(&mut self.written, self.unwritten)?;
        let count = more.saturating_add(AHEAD).min(self.unwritten);
        value.append(&mut self.written, count)?;
        self.unwritten -= count;
        Ok(())
    }

    /// Another element at a place, if there is one.
    pub(crate) fn set(&mut self, place: usize, value: V) -> Result<bool, AllocError>
        ensures stored { IfOk result (λ stored.
            if_stored stored (all_of self.new) ≡ with_item place value (all_of self.old)) }
        ensures nowhere { IfOk result (λ stored. stored ≡ false → all_of self.new ≡ all_of self.old) }
        ensures refused { OnErr result (all_of self.new ≡ all_of self.old) }
        ensures len { length (all_of self.new) ≡ length (all_of self.old) }
    {
        if place < self.written.len() {
            return Ok(self.put(place, value));
        }
        self.write_to(place)?;
        Ok(self.put(place, value))
    }
}
