//! What is known of offsets, in two bits for each.

ghost use Rattle.std.specs.Prelude.{◌≡◌, ◌⊎◌, ◌<◌, ◌/◌, ℕ, IfOk, get_or, length, nat_eq, nat_lt, if◌then◌else◌};
ghost use Rattle.flow_check.specs.Slots.{code_of, coded, digit, slot_at};
ghost use Rattle.flow_check.specs.declared.slots.Slot.TheVariants.{Free, Other};

use std::alloc::{AllocError, Global};

/// What is known of an offset without the map.
#[derive(Clone, Copy)]
pub(crate) enum Slot {
    /// It has no mark.
    Free,
    /// It has the usual one.
    Bare,
    /// The map says it.
    Other,
}

/// A slot for each of the first offsets, four of them in a byte. All others are `Other`.
#[derive(Drop)]
pub(crate) struct Slots {
    bytes: Vec<u8>,
}

// The slot of a code.
#[inline(always)]
fn coded(code: u8) -> Slot
    ensures { result ≡ coded code }
{
    match code {
        0 => Slot::Free,
        1 => Slot::Bare,
        _ => Slot::Other,
    }
}

// The code of a slot.
fn code_of(slot: Slot) -> u8
    ensures code { result ≡ code_of slot }
    ensures small { result < 4 }
{
    match slot {
        Slot::Free => 0,
        Slot::Bare => 1,
        Slot::Other => 2,
    }
}

// The code at one of the four places of a byte.
#[inline(always)]
fn digit(byte: u8, place: usize) -> u8
    requires { place < 4 }
    ensures { result ≡ digit byte place }
{
    (byte >> (2 * place)) % 4
}

// The byte with another code at one of its four places.
fn with_digit(byte: u8, place: usize, code: u8) -> u8
    requires place { place < 4 }
    requires small { code < 4 }
    ensures { (k : ℕ) → k < 4 → digit result k ≡ (if nat_eq k place then code else digit byte k) }
{
    match place {
        0 => byte / 4 * 4 + code,
        1 => byte / 16 * 16 + 4 * code + byte % 4,
        2 => byte / 64 * 64 + 16 * code + byte % 16,
        _ => 64 * code + byte % 64,
    }
}

impl Slots {
    /// Slots for at least so many offsets, each free.
    pub(crate) fn new(alloc: Global, count: usize) -> Result<Slots, AllocError>
        ensures { IfOk result (λ slots. (y : ℕ)
            → (slot_at slots.bytes.items y ≡ Free) ⊎ (slot_at slots.bytes.items y ≡ Other)) }
    {
        Ok(Slots {
            bytes: vec![in alloc; 0; count / 4 + 1]?,
        })
    }

    /// Whether an offset has a slot.
    #[inline(always)]
    pub(crate) fn has(&self, at: usize) -> bool
        ensures { result ≡ nat_lt (at / 4) (length self.now.bytes.items) }
    {
        at / 4 < self.bytes.len()
    }

    // The byte with an offset's slot, and one that says nothing for offsets without a slot.
    #[inline(always)]
    fn byte_of(&self, at: usize) -> u8
        ensures { result ≡ get_or self.now.bytes.items (at / 4) 255 }
    {
        match self.bytes.as_slice().get(at / 4) {
            Some(byte) => *byte,
            None => 255,
        }
    }

    /// The slot of an offset.
    #[inline(always)]
    pub(crate) fn get(&self, at: usize) -> Slot
        ensures { result ≡ slot_at self.now.bytes.items at }
    {
        coded(digit(self.byte_of(at), at % 4))
    }

    /// Puts a slot in place of that of an offset that has one.
    pub(crate) fn set(&mut self, at: usize, slot: Slot)
        requires { at / 4 < length self.old.bytes.items }
        ensures { (y : ℕ) → slot_at self.new.bytes.items y ≡ (if nat_eq at y then slot else slot_at self.old.bytes.items y) }
    {
        let place = at / 4;
        self.bytes[place] = with_digit(self.bytes[place], at % 4, code_of(slot));
    }
}
