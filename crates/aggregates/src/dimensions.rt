//! The dimensions of an array, as they are held.

ghost use Rattle.std.specs.Prelude.{◌≡◌, ◌∷◌, [], IfOk};
ghost use Rattle.model.specs.Language.Aggregates.{place_from};
ghost use Rattle.aggregates.specs.Elements.{dimensions_of};

use crate::bounds::{Bounds, place_in, place_of_one};
use crate::items::copied;
use std::alloc::{AllocError, Global};
use std::slice::from_ref;

/// The dimensions of an array. One alone lies in the array itself.
#[derive(Drop)]
pub(crate) enum Dimensions {
    One(Bounds),
    Many(Vec<Bounds>),
}

impl Dimensions {
    /// These dimensions.
    pub(crate) fn of(bounds: Vec<Bounds>) -> Dimensions
        ensures { dimensions_of result ≡ bounds.items }
    {
        let mut bounds = bounds;
        if bounds.len() == 1 {
            let Some(only) = bounds.pop() else {
                unreachable!()
            };
            return Dimensions::One(only);
        }
        Dimensions::Many(bounds)
    }

    /// A copy of them.
    pub(crate) fn copy(&self, alloc: Global) -> Result<Dimensions, AllocError>
        ensures { IfOk result (λ copy. dimensions_of copy ≡ dimensions_of self.now) }
    {
        match self {
            Dimensions::One(only) => Ok(Dimensions::One(only.clone()?)),
            Dimensions::Many(bounds) => Ok(Dimensions::Many(copied(alloc, bounds)?)),
        }
    }

    /// The dimensions in order.
    #[inline(always)]
    pub(crate) fn as_slice(&self) -> &[Bounds]
        ensures { result.now ≡ dimensions_of self.now }
    {
        match self {
            Dimensions::One(only) => from_ref(only),
            Dimensions::Many(bounds) => bounds.as_slice(),
        }
    }

    /// The place of the element with this subscript, where there is no other one. Takes no memory.
    #[inline(always)]
    pub(crate) fn place_of_one(&self, subscript: i64) -> Option<usize>
        ensures { result ≡ place_from 0 (dimensions_of self.now) (subscript ∷ []) }
    {
        match self {
            Dimensions::One(only) => place_in(only, subscript),
            Dimensions::Many(bounds) => place_of_one(bounds, subscript),
        }
    }
}
