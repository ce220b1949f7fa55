//! Functions of byte strings, and sets of bytes.

ghost use Rattle.std.specs.Prelude.{◌≡◌, ◌≤◌, ◌<◌, ◌+◌, ◌==◌, ℕ, length, get_or, SomeIff, true, false};
ghost use Rattle.std.specs.List.{list_any};
ghost use Rattle.std.specs.Str.Parse.{signed_digits_value};
ghost use Rattle.model.specs.Language.Strings.{IsIntText, trimmed, span_to, break_to, flags_of, has};

use std::marker::Model;
use std::simd::prelude::*;
use std::str;

/// The bytes without the blanks at their end.
pub fn trim_end(bytes: &[u8]) -> &[u8]
    ensures { result.now ≡ trimmed bytes.now }
{
    let mut end = bytes.len();
    while end > 0 && bytes[end - 1] == b' ' {
        end -= 1;
    }
    &bytes[..end]
}

/// A set of bytes, which contracts see as its 256 flags.
#[derive(Drop)]
pub struct ByteSet {
    flags: [bool; 256],
    // All bytes between these two are in the set; none lies there where the first is above the second.
    low: u8,
    high: u8,
}

impl Model for ByteSet {
    ghost use Rattle.std.specs.Prelude.{List, Bool, length, ◌≡◌, ◌≤◌, ℕ, true};
    ghost use Rattle.model.specs.Language.Strings.{has};

    ghost Value = { List Bool };

    ghost view = { λ s. s.flags };

    ghost invariant = { λ s. (length s.flags ≡ 256)
        × ((b : ℕ) → s.low ≤ b → b ≤ s.high → has s.flags b ≡ true) };
}

// The first of some bytes, and the last of those that follow it one by one; 1 and 0 where there is none.
fn first_run(bytes: &[u8]) -> (u8, u8)
    ensures { (b : ℕ) → result.0 ≤ b → b ≤ result.1 → list_any (λ x. x == b) bytes.now ≡ true }
{
    let [low, ..] = bytes else {
        return (1, 0);
    };
    let mut high = *low;
    for byte in bytes {
        if high < 255 && *byte == high + 1 {
            high = *byte;
        }
    }
    (*low, high)
}

impl ByteSet {
    /// The set of these bytes.
    pub fn of(bytes: &[u8]) -> ByteSet
        ensures { result ≡ flags_of bytes.now }
    {
        let mut flags = [false; 256];
        for b in bytes {
            flags[*b as usize] = true;
        }
        let (low, high) = first_run(bytes);
        ByteSet { flags, low, high }
    }

    /// Whether a byte is in the set.
    #[inline(always)]
    pub fn has(&self, byte: u8) -> bool
        ensures { result ≡ has self.now byte }
    {
        self.flags[byte as usize]
    }
}

// How many bytes a scan looks at in one turn.
const LANES: usize = 8;

// How many it compares with the ends of a range in one turn.
const WIDE: usize = 16;

// And how many at first.
const WIDEST: usize = 64;

// Whether the eight bytes from `at` on are all in the set.
#[inline(always)]
fn spans_eight(bytes: &[u8], at: usize, set: &ByteSet) -> bool
    requires { at + 8 ≤ length bytes.now }
    ensures { result ≡ true → span_to bytes.now (at + 8) set.now ≡ span_to bytes.now at set.now }
{
    let flags = &set.flags;
    let first = flags[bytes[at] as usize] & flags[bytes[at + 1] as usize];
    let second = flags[bytes[at + 2] as usize] & flags[bytes[at + 3] as usize];
    let third = flags[bytes[at + 4] as usize] & flags[bytes[at + 5] as usize];
    let fourth = flags[bytes[at + 6] as usize] & flags[bytes[at + 7] as usize];
    (first & second) & (third & fourth)
}

// Whether none of the sixteen bytes from `at` on is below another.
#[inline(always)]
fn none_below(bytes: &[u8], at: usize, low: u8) -> bool
    requires { at + 16 ≤ length bytes.now }
    ensures { result ≡ true → (k : ℕ) → at ≤ k → k < at + 16 → low ≤ get_or bytes.now k 0 }
{
    let next = u8x16::from_slice(&bytes[at..]);
    next.simd_lt(u8x16::splat(low)).to_bitmask() == 0
}

// Whether none of the sixteen bytes from `at` on is above another.
#[inline(always)]
fn none_above(bytes: &[u8], at: usize, high: u8) -> bool
    requires { at + 16 ≤ length bytes.now }
    ensures { result ≡ true → (k : ℕ) → at ≤ k → k < at + 16 → get_or bytes.now k 0 ≤ high }
{
    let next = u8x16::from_slice(&bytes[at..]);
    next.simd_gt(u8x16::splat(high)).to_bitmask() == 0
}

// Whether the sixteen bytes from `at` on are all in the range of the set.
#[inline(always)]
fn spans_wide(bytes: &[u8], at: usize, set: &ByteSet) -> bool
    requires { at + 16 ≤ length bytes.now }
    ensures { result ≡ true → span_to bytes.now (at + 16) set.now ≡ span_to bytes.now at set.now }
{
    none_below(bytes, at, set.low) & none_above(bytes, at, set.high)
}

// Whether the sixty-four bytes from `at` on are all in the range of the set.
#[inline(always)]
fn spans_widest(bytes: &[u8], at: usize, set: &ByteSet) -> bool
    requires { at + 64 ≤ length bytes.now }
    ensures { result ≡ true → span_to bytes.now (at + 64) set.now ≡ span_to bytes.now at set.now }
{
    let first = spans_wide(bytes, at, set) & spans_wide(bytes, at + 16, set);
    let second = spans_wide(bytes, at + 32, set) & spans_wide(bytes, at + 48, set);
    first & second
}

// Whether one of the eight bytes from `at` on is in the set.
#[inline(always)]
fn breaks_eight(bytes: &[u8], at: usize, set: &ByteSet) -> bool
    requires { at + 8 ≤ length bytes.now }
    ensures { result ≡ false → break_to bytes.now (at + 8) set.now ≡ break_to bytes.now at set.now }
{
    let flags = &set.flags;
    let first = flags[bytes[at] as usize] | flags[bytes[at + 1] as usize];
    let second = flags[bytes[at + 2] as usize] | flags[bytes[at + 3] as usize];
    let third = flags[bytes[at + 4] as usize] | flags[bytes[at + 5] as usize];
    let fourth = flags[bytes[at + 6] as usize] | flags[bytes[at + 7] as usize];
    (first | second) | (third | fourth)
}

// Past bytes of the set's range, as many as go in wide turns.
#[inline(always)]
fn wide_end(bytes: &[u8], at: usize, set: &ByteSet) -> usize
    requires { at ≤ length bytes.now }
    ensures on { at ≤ result }
    ensures within { result ≤ length bytes.now }
    ensures same { span_to bytes.now result set.now ≡ span_to bytes.now at set.now }
{
    let mut end = at;
    while bytes.len() - end >= WIDEST && spans_widest(bytes, end, set) {
        end += WIDEST;
    }
    while bytes.len() - end >= WIDE && spans_wide(bytes, end, set) {
        end += WIDE;
    }
    end
}

/// Where the longest run of bytes of the set ends that begins at `at`; `at` itself if the next byte isn't in the set.
pub fn span_end(bytes: &[u8], at: usize, set: &ByteSet) -> usize
    requires { at ≤ length bytes.now }
    ensures { result ≡ span_to bytes.now at set.now }
{
    let mut end = at;
    if bytes.len() - end >= LANES && spans_eight(bytes, end, set) {
        end = wide_end(bytes, end + LANES, set);
    }
    while bytes.len() - end >= LANES && spans_eight(bytes, end, set) {
        end += LANES;
    }
    while end < bytes.len() && set.flags[bytes[end] as usize] {
        end += 1;
    }
    end
}

/// Where the first byte of the set from `at` on stands.
pub fn break_end(bytes: &[u8], at: usize, set: &ByteSet) -> Option<usize>
    requires { at ≤ length bytes.now }
    ensures { result ≡ break_to bytes.now at set.now }
{
    let mut from = at;
    while bytes.len() - from >= LANES && !breaks_eight(bytes, from, set) {
        from += LANES;
    }
    for k in from..bytes.len() {
        if set.flags[bytes[k] as usize] {
            return Some(k);
        }
    }
    None
}

/// The integer that an optional sign and digits write, if it fits 64 bits.
pub fn read_int(bytes: &[u8]) -> Option<i64>
    ensures { SomeIff result (IsIntText bytes.now) (signed_digits_value 10 bytes.now) }
{
    match str::from_utf8(bytes) {
        Ok(text) => text.parse::<i64>().ok(),
        Err(_) => None,
    }
}
