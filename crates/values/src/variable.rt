//! Variables: a value, and the units that one reads from and writes to.

ghost use Rattle.std.specs.Prelude.{◌≡◌, ◌<◌, ◌≤◌, ◌+◌, ◌^◌, ◌++◌, [], take, drop, length, None, true, false};
ghost use Rattle.model.specs.Deck.Trees.{Bytes};
ghost use Rattle.values.specs.declared.value.Value.TheVariants.{String};

use crate::value::Value;
use std::alloc::Global;
use std::mem;
use strings::Text;

/// The slot of a name whose slot isn't known.
pub const NO_SLOT: u32 = u32::MAX;

/// A variable that was assigned to, or that a unit is associated with.
#[derive(Drop)]
pub struct Variable {
    pub value: Value,
    /// The unit that it reads from.
    pub input: Option<u8>,
    /// The unit that it writes to.
    pub output: Option<u8>,
}

const _: () = prove!(size_of::<Variable>() <= 40);

impl Variable {
    /// A variable without a unit.
    pub fn holding(value: Value) -> Variable
        ensures { result ≡ record { value = value; input = None; output = None } }
    {
        Variable {
            value,
            input: None,
            output: None,
        }
    }

    /// A variable without a value.
    pub fn on_units(input: Option<u8>, output: Option<u8>) -> Variable
        ensures { result ≡ record { value = String []; input = input; output = output } }
    {
        Variable {
            value: Value::null(),
            input,
            output,
        }
    }

    /// Sets its value.
    #[inline(always)]
    pub fn set(&mut self, value: Value)
        ensures { self.new ≡ record self.old { value = value } }
    {
        if let (Value::Integer(old), Value::Integer(n)) = (&mut self.value, &value) {
            *old = *n;
            return;
        }
        self.value = value;
    }

    /// Puts two texts behind the string that it holds, in place; whether that is made, or else nothing changes.
    #[inline(always)]
    pub fn append_in_place(&mut self, alloc: Global, one: &Text, two: &Text) -> bool
        requires fits { (u : Bytes) → self.old.value ≡ String u → length u + length one.now + length two.now < 2 ^ 64 }
        ensures made { result ≡ true → (u : Bytes) × (self.old.value ≡ String u)
            × (self.new ≡ record self.old { value = String ((u ++ one.now) ++ two.now) }) }
        ensures kept { result ≡ false → self.new ≡ self.old }
    {
        match &mut self.value {
            Value::String(text) => text.extend(alloc, one.as_slice(), two.as_slice()),
            _ => false,
        }
    }

    /// Takes bytes off the front of the string that it holds, if that is so long.
    #[inline(always)]
    pub fn cut_front(&mut self, count: usize)
        ensures { (u : Bytes) → self.old.value ≡ String u → count ≤ length u
            → self.new ≡ record self.old { value = String (drop count u) } }
    {
        if let Value::String(text) = &mut self.value {
            if count <= text.len() {
                text.cut_front(count);
            }
        }
    }

    /// Takes a byte out of the string that it holds, if that is one of few.
    #[inline(always)]
    pub fn take_byte(&mut self, place: usize)
        ensures { (u : Bytes) → self.old.value ≡ String u → place < length u → length u ≤ 22
            → self.new ≡ record self.old { value = String (take place u ++ drop (place + 1) u) } }
    {
        if let Value::String(text) = &mut self.value {
            let len = text.len();
            if place < len && len <= 22 {
                text.take_byte(place);
            }
        }
    }

    /// Takes another value, which becomes the one that it had.
    #[inline(always)]
    pub fn exchange(&mut self, value: &mut Value)
        ensures had { value.new ≡ self.old.value }
        ensures set { self.new ≡ record self.old { value = value.old } }
    {
        if let (Value::Integer(had), Value::Integer(n)) = (&mut self.value, &mut *value) {
            mem::swap(had, n);
            return;
        }
        if self.value.is_null() && value.is_null() {
            return;
        }
        mem::swap(&mut self.value, value);
    }

    /// Takes another value, and gives the one that it had.
    #[inline(always)]
    pub fn replace(&mut self, value: Value) -> Value
        ensures had { result ≡ self.old.value }
        ensures set { self.new ≡ record self.old { value = value } }
    {
        if let Value::Integer(n) = &self.value {
            let n = *n;
            self.value = value;
            return Value::Integer(n);
        }
        mem::replace(&mut self.value, value)
    }

    /// Sets the units that it reads from and writes to.
    pub fn set_units(&mut self, input: Option<u8>, output: Option<u8>)
        ensures { self.new ≡ record self.old { input = input; output = output } }
    {
        self.input = input;
        self.output = output;
    }
}
