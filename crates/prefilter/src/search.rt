//! A search for a literal.

ghost use Rattle.std.specs.Prelude.{◌≡◌, ◌≢◌, ◌+◌, ◌<◌, ◌≤◌, ◌==◌, ℕ, length, get_or};
ghost use Rattle.std.specs.Prelude.{count_by, count_ones, drop, take};
ghost use Rattle.std.specs.Int.{bit_at};
ghost use Rattle.model.specs.Pattern.Patterns as p;
ghost use Rattle.prefilter.specs.Starts.{FailsFrom};

use memchr::memmem;
use pattern_compiler::break_at;
use std::simd::prelude::*;

// How many places are looked at in one turn.
const WIDE: usize = 16;

// At how many places both ends of a literal may stand without the whole, before the rest is searched for the whole.
const TRIES: usize = 4;

// The bits of those of the sixteen places from `at` on where a byte stands.
#[inline(always)]
pub fn places_of(bytes: &[u8], at: usize, byte: u8) -> u64
    requires { at + 16 ≤ length bytes.now }
    ensures bits { (k : ℕ) → k < 16 → get_or bytes.now (at + k) 0 ≡ byte → bit_at result k ≡ 1 }
    ensures ones { count_ones result ≡ count_by (λ b. b == byte) (take 16 (drop at bytes.now)) }
{
    let next = u8x16::from_slice(&bytes[at..]);
    next.simd_eq(u8x16::splat(byte)).to_bitmask()
}

// At how many of the sixteen places from `at` on, in a row behind so many of them, a byte doesn't stand with another so
// far after it.
#[inline(always)]
fn pair_free(bytes: &[u8], at: usize, skip: usize, gap: usize, first: u8, last: u8) -> usize
    requires within { at + gap + 16 ≤ length bytes.now }
    requires skip { skip ≤ 16 }
    ensures within { skip + result ≤ 16 }
    ensures others { (k : ℕ) → at + skip ≤ k → k < at + skip + result
        → get_or bytes.now k 0 ≡ first → get_or bytes.now (k + gap) 0 ≢ last }
{
    let pairs = places_of(bytes, at, first) & places_of(bytes, at + gap, last);
    ((pairs >> skip).trailing_zeros() as usize).min(WIDE - skip)
}

// The first place from one on, below another, where a byte stands with another so far after it; the other where none
// is. The last sixteen places are looked at together, with those behind that are passed.
#[inline(always)]
fn pair_place(bytes: &[u8], from: usize, to: usize, gap: usize, first: u8, last: u8) -> usize
    requires ends { (from ≤ to) × (to + gap ≤ length bytes.now) }
    ensures ends { (from ≤ result) × (result ≤ to) }
    ensures others { (k : ℕ) → from ≤ k → k < result
        → get_or bytes.now k 0 ≡ first → get_or bytes.now (k + gap) 0 ≢ last }
{
    let mut at = from;
    while to - at >= WIDE {
        let free = pair_free(bytes, at, 0, gap, first, last);
        at += free;
        if free < WIDE {
            return at;
        }
    }
    if to >= WIDE {
        let back = to - WIDE;
        return at + pair_free(bytes, back, at - back, gap, first, last);
    }
    while at < to && (bytes[at] != first || bytes[at + gap] != last) {
        at += 1;
    }
    at
}

// At how many places from here on a literal doesn't stand, as its first and its last byte tell; at most so many.
#[inline(always)]
fn ends_fail_for(subject: &[u8], from: usize, limit: usize, text: &[u8]) -> usize
    requires { from + limit ≤ length subject.now }
    ensures fails { FailsFrom subject.now (p.Lit text.now) from result }
    ensures limit { result ≤ limit }
{
    let [first, .., last] = text else {
        return 0;
    };
    let gap = text.len() - 1;
    let room = subject.len() - from;
    if gap >= room {
        return limit;
    }
    let places = room - gap;
    let to = from + places.min(limit);
    let at = pair_place(subject, from, to, gap, *first, *last);
    if at == to { limit } else { at - from }
}

// At how many places a literal doesn't stand, behind so many that are known: as a look at the whole shows where both
// ends stand, and after a few of these a search for the whole.
#[inline(never)]
fn whole_fails_for(subject: &[u8], from: usize, limit: usize, behind: usize, text: &[u8]) -> usize
    requires within { from + limit ≤ length subject.now }
    requires behind { behind < limit }
    requires fails { FailsFrom subject.now (p.Lit text.now) from behind }
    ensures fails { FailsFrom subject.now (p.Lit text.now) from result }
    ensures limit { result ≤ limit }
{
    let mut passed = behind;
    let mut tries = TRIES;
    while tries > 0 {
        if subject[from + passed..].starts_with(text) {
            return passed;
        }
        passed += 1;
        passed += ends_fail_for(subject, from + passed, limit - passed, text);
        if passed == limit {
            return passed;
        }
        tries -= 1;
    }
    let at = from + passed;
    let far = (limit - passed)
        .saturating_add(text.len())
        .min(subject.len() - at);
    match memmem::find(&subject[at..at + far], text) {
        Some(more) => passed + more.min(limit - passed),
        None => limit,
    }
}

/// At how many places from here on a literal doesn't stand, as a search for it shows; at most so many.
#[inline(never)]
pub fn lit_fails_for(subject: &[u8], from: usize, limit: usize, text: &[u8]) -> usize
    requires { from + limit ≤ length subject.now }
    ensures fails { FailsFrom subject.now (p.Lit text.now) from result }
    ensures limit { result ≤ limit }
{
    if let [byte] = text {
        return break_at(&subject[from..from + limit], *byte);
    }
    let passed = ends_fail_for(subject, from, limit, text);
    if passed == limit || text.len() <= 2 {
        return passed;
    }
    whole_fails_for(subject, from, limit, passed, text)
}
