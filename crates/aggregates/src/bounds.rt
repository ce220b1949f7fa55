//! The dimensions of arrays.

ghost use Rattle.std.specs.Prelude.{◌≡◌, ◌<◌, ◌-◌, ◌^◌, ◌∷◌, [], min, Some, pos, ◌<ℤ◌, ◌+ℤ◌, nat_abs, IfSome};
ghost use Rattle.model.specs.Language.Aggregates.{place_from};
ghost use Rattle.model.specs.Language.Prototypes.{bounds_from, elements_in, are_bounds};
ghost use Rattle.aggregates.specs.Bounds.{offset_in};

use std::alloc::AllocError;
use std::marker::Model;

/// The subscripts of a dimension, from the lowest to the highest. Contracts see the lowest, and how many there are.
#[derive(Drop)]
pub struct Bounds {
    low: i64,
    high: i64,
}

impl Model for Bounds {
    ghost use Rattle.std.specs.Prelude.{◌+◌, ◌-ℤ◌, ◌≤ℤ◌, nat_abs};
    ghost use Rattle.model.specs.Language.Values as values;

    ghost Value = { values.Bounds };

    ghost view = { λ b. record { low = b.low; count = nat_abs (b.high -ℤ b.low) + 1 } };

    ghost invariant = { λ b. b.low ≤ℤ b.high };
}

impl Bounds {
    /// The dimension with these subscripts, if there is one at all.
    pub fn new(low: i64, high: i64) -> Option<Bounds>
        ensures { result ≡ bounds_from (Some low) (Some high) }
    {
        if low > high {
            return None;
        }
        Some(Bounds { low, high })
    }

    /// The dimension of the subscripts from 1 on.
    pub(crate) fn first(count: i64) -> Bounds
        requires { pos 0 <ℤ count }
        ensures { result ≡ record { low = pos 1; count = nat_abs count } }
    {
        Bounds {
            low: 1,
            high: count,
        }
    }

    /// The lowest subscript.
    pub fn low(&self) -> i64
        ensures { self.now.low ≡ result }
    {
        self.low
    }

    /// The highest subscript.
    pub fn high(&self) -> i64
        ensures { (self.now.low +ℤ pos self.now.count) ≡ (result +ℤ pos 1) }
    {
        self.high
    }

    /// How many subscripts stand below this one, if it is one of them.
    #[inline(always)]
    pub(crate) fn offset(&self, subscript: i64) -> Option<u64>
        ensures offset { result ≡ offset_in self.now subscript }
        ensures below { IfSome result (λ o. o < self.now.count) }
    {
        if subscript < self.low || subscript > self.high {
            return None;
        }
        Some(subscript.abs_diff(self.low))
    }

    /// How many subscripts there are, or the greatest integer if they are more.
    pub(crate) fn count(&self) -> usize
        ensures count { result ≡ min self.now.count (2 ^ 64 - 1) }
        ensures some { 0 < self.now.count }
    {
        (self.high.abs_diff(self.low) as usize).saturating_add(1)
    }
}

impl Clone for Bounds {
    ghost use Rattle.std.specs.Prelude.{◌≡◌};

    ghost is_clone = { λ bounds copy. copy ≡ bounds };

    fn clone(&self) -> Result<Bounds, AllocError> {
        Ok(Bounds {
            low: self.low,
            high: self.high,
        })
    }
}

/// How many elements an array of these dimensions has, or the greatest integer if they are more.
pub(crate) fn elements_in(bounds: &[Bounds]) -> usize
    ensures count { result ≡ min (elements_in bounds.now) (2 ^ 64 - 1) }
    ensures some { 0 < elements_in bounds.now }
{
    let mut count = 1usize;
    for dimension in bounds {
        count = count.saturating_mul(dimension.count());
    }
    count
}

/// Whether an array may have these dimensions: at most eight, with at most 1,048,576 elements in all.
pub fn are_bounds(bounds: &[Bounds]) -> bool
    ensures { result ≡ are_bounds bounds.now }
{
    bounds.len() <= 8 && elements_in(bounds) <= 1_048_576
}

/// The place of the element with these subscripts, among all elements of these dimensions. Takes no memory.
pub(crate) fn place_of(bounds: &[Bounds], subscripts: &[i64]) -> Option<usize>
    requires fits { elements_in bounds.now < 2 ^ 63 }
    requires some { 0 < elements_in bounds.now }
    ensures { result ≡ place_from 0 bounds.now subscripts.now }
{
    if subscripts.len() != bounds.len() {
        return None;
    }
    let mut place = 0;
    for (k, dimension) in bounds.iter().enumerate() {
        let offset = dimension.offset(subscripts[k])?;
        place = place * dimension.count() + offset as usize;
    }
    Some(place)
}

/// The place of the element with this subscript, where there is no other one. Takes no memory.
#[inline(always)]
#[tactic(auto, using(crate::proofs::Subscripts::one_place, crate::proofs::Subscripts::no_one_place))]
pub(crate) fn place_of_one(bounds: &[Bounds], subscript: i64) -> Option<usize>
    ensures { result ≡ place_from 0 bounds.now (subscript ∷ []) }
{
    let [dimension] = bounds else {
        return None;
    };
    place_in(dimension, subscript)
}

/// The place of the element with this subscript in the only dimension. Takes no memory.
#[inline(always)]
#[tactic(auto, using(crate::proofs::Subscripts::one_place, crate::proofs::Subscripts::no_one_place))]
pub(crate) fn place_in(dimension: &Bounds, subscript: i64) -> Option<usize>
    ensures { result ≡ place_from 0 (dimension.now ∷ []) (subscript ∷ []) }
{
    match dimension.offset(subscript) {
        Some(offset) => Some(offset as usize),
        None => None,
    }
}
