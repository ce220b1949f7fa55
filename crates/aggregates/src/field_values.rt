//! The values of a record's fields.

ghost use Rattle.std.specs.Prelude.{◌≡◌, IfOk, false, length, slice_get};
ghost use Rattle.std.specs.Option.{option_copied};
ghost use Rattle.model.specs.Language.Operators.{with_item};
ghost use Rattle.aggregates.specs.Made.{StandBelow, held_values};
ghost use Rattle.aggregates.specs.Objects.{if_stored};

use crate::element::Element;
use crate::items::put;
use std::alloc::AllocError;

/// The values of a record's fields. One or two lie in the record itself.
#[derive(Drop)]
pub enum FieldValues<V> {
    One(V),
    Two(V, V),
    Many(Vec<V>),
}

impl<V: Element> FieldValues<V> {
    /// The values of a vector, which are taken out of it.
    #[inline(always)]
    pub fn taken(values: &mut Vec<V>) -> Result<FieldValues<V>, AllocError>
        ensures { IfOk result (λ held. held_values held ≡ values.old.items) }
    {
        if values.len() == 1 {
            let Some(only) = values.pop() else {
                unreachable!()
            };
            return Ok(FieldValues::One(only));
        }
        if values.len() == 2 {
            let Some(second) = values.pop() else {
                unreachable!()
            };
            let Some(first) = values.pop() else {
                unreachable!()
            };
            return Ok(FieldValues::Two(first, second));
        }
        let mut many = Vec::with_capacity(*values.allocator(), values.len())?;
        many.append(values)?;
        Ok(FieldValues::Many(many))
    }

    /// How many there are.
    pub(crate) fn len(&self) -> usize
        ensures { result ≡ length (held_values self.now) }
    {
        match self {
            FieldValues::One(_) => 1,
            FieldValues::Two(_, _) => 2,
            FieldValues::Many(values) => values.len(),
        }
    }

    /// Below which place each of them stands.
    pub(crate) fn held(&self) -> usize
        ensures { StandBelow result (held_values self.now) }
    {
        self.len()
    }

    /// The value of the field at a place.
    #[inline(always)]
    pub(crate) fn get(&self, index: usize) -> Option<&V>
        ensures { option_copied result ≡ slice_get (held_values self.now) index }
    {
        match self {
            FieldValues::One(only) => {
                if index > 0 {
                    return None;
                }
                Some(only)
            }
            FieldValues::Two(first, second) => {
                if index > 1 {
                    return None;
                }
                if index == 0 {
                    return Some(first);
                }
                Some(second)
            }
            FieldValues::Many(values) => values.get(index),
        }
    }

    /// Another value of the field at a place, if there is one.
    #[inline(always)]
    pub(crate) fn put(&mut self, index: usize, value: V) -> bool
        ensures stored { if_stored result (held_values self.new) ≡ with_item index value (held_values self.old) }
        ensures nowhere { result ≡ false → held_values self.new ≡ held_values self.old }
    {
        match self {
            FieldValues::One(only) => {
                if index > 0 {
                    return false;
                }
                only.put(value);
                true
            }
            FieldValues::Two(first, second) => {
                if index > 1 {
                    return false;
                }
                if index == 0 {
                    first.put(value);
                    return true;
                }
                second.put(value);
                true
            }
            FieldValues::Many(values) => put(values, index, value),
        }
    }
}
