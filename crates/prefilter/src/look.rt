//! Looks at the subject before an attempt goes on: in how many steps it fails.

ghost use Rattle.std.specs.Prelude.{◌≡◌, ◌+◌, ◌<◌, ◌≤◌, [], ℕ, ℤ, List, Some, true, length, slice_get, IfSome};
ghost use Rattle.model.specs.Pattern.BasicEnds.{ends_at};
ghost use Rattle.model.specs.Pattern.Patterns.{Do, Jmp, Open, Split};
ghost use Rattle.model.specs.Pattern.Steps.{Code, Note, at_distance};
ghost use Rattle.pattern_compiler.specs.View.{basic_of, code_of};
ghost use Rattle.prefilter.specs.Looks.{FailsAt};

use crate::ends::{has_one_end, lit_end, one_end};
use backtrack::Trail;
use pattern_compiler::{Basic, Instr};

/// Behind so many steps no further SPLIT is looked at.
const MANY: u64 = 96;

/// The place at a distance.
#[inline(always)]
pub fn target(len: usize, place: usize, d: i64) -> usize
    ensures { (code : Code) → length code ≡ len → result ≡ at_distance code place d }
{
    if d >= 0 {
        place.saturating_add(d as usize).min(len)
    } else {
        place.saturating_sub(d.unsigned_abs() as usize).min(len)
    }
}

/// Whether a part has no end from a place, where a look at the bytes there shows it.
#[inline(always)]
fn misses(bytes: &[u8], cursor: usize, part: &Basic) -> bool
    requires { cursor ≤ length bytes.now }
    ensures { result ≡ true → ends_at bytes.now (basic_of part.now) cursor ≡ [] }
{
    if let Basic::Lit(text) = part {
        return lit_end(bytes, cursor, text.as_slice()).is_none();
    }
    match part {
        Basic::Any(set) | Basic::Span(set) => cursor >= bytes.len() || !set.has(bytes[cursor]),
        Basic::Break(_) => false,
        _ => has_one_end(part) && one_end(bytes, cursor, part).is_none(),
    }
}

/// The part at a place, if one stands there.
#[inline(always)]
pub fn part_of(instrs: &[Instr], place: usize) -> Option<&Basic>
    ensures { IfSome result (λ part. slice_get (code_of instrs.now) place ≡ Some (Do (basic_of part.now))) }
{
    match instrs.get(place) {
        Some(Instr::Do(part)) => Some(part),
        _ => None,
    }
}

/// The other place that SPLIT leads to, if it stands at a place.
#[inline(always)]
pub fn other_of(instrs: &[Instr], place: usize) -> Option<usize>
    ensures leads { IfSome result (λ other. (d : ℤ) × (slice_get (code_of instrs.now) place ≡ Some (Split d))
        × (other ≡ at_distance (code_of instrs.now) place d)) }
    ensures within { IfSome result (λ other. place < length instrs.now) }
{
    match instrs.get(place) {
        Some(Instr::Split(d)) => Some(target(instrs.len(), place, *d)),
        _ => None,
    }
}

/// Where JMP at a place leads, if it stands there.
#[inline(always)]
pub fn jump_from(instrs: &[Instr], place: usize) -> Option<usize>
    ensures { IfSome result (λ rest. (d : ℤ) × (slice_get (code_of instrs.now) place ≡ Some (Jmp d))
        × (rest ≡ at_distance (code_of instrs.now) place d)) }
{
    match instrs.get(place) {
        Some(Instr::Jmp(d)) => Some(target(instrs.len(), place, *d)),
        _ => None,
    }
}

/// Whether OPEN stands at a place.
#[inline(always)]
pub fn opens_at(instrs: &[Instr], place: usize) -> bool
    ensures opens { result ≡ true → slice_get (code_of instrs.now) place ≡ Some Open }
    ensures within { result ≡ true → place < length instrs.now }
{
    matches!(instrs.get(place), Some(Instr::Open))
}

/// The parts from which an attempt fails at a place, and in how many steps, if both have no end: the part there, or,
/// where SPLIT stands there, the parts that it leads to.
#[inline(always)]
pub fn parts_beside(instrs: &[Instr], place: usize) -> Option<(&Basic, Option<&Basic>, u64)>
    ensures fails { IfSome result (λ (part, other, steps). (u : List ℕ) (c : ℕ) (ns : List Note)
        → ends_at u (basic_of part.now) c ≡ [] → IfSome other (λ o. ends_at u (basic_of o.now) c ≡ [])
        → FailsAt u (code_of instrs.now) ns place c steps) }
    ensures few { IfSome result (λ (part, other, steps). (0 < steps) × (steps ≤ 4)) }
{
    let Some(to) = other_of(instrs, place) else {
        return Some((part_of(instrs, place)?, None, 1));
    };
    Some((part_of(instrs, place + 1)?, Some(part_of(instrs, to)?), 4))
}

/// Whether a part has no end from a cursor, nor another, if there is one.
#[inline(always)]
pub fn both_miss(bytes: &[u8], part: &Basic, other: Option<&Basic>, cursor: usize) -> bool
    requires { cursor ≤ length bytes.now }
    ensures part { result ≡ true → ends_at bytes.now (basic_of part.now) cursor ≡ [] }
    ensures other { result ≡ true → IfSome other.entry (λ o. ends_at bytes.now (basic_of o.now) cursor ≡ []) }
{
    misses(bytes, cursor, part)
        && match other {
            Some(other) => misses(bytes, cursor, other),
            None => true,
        }
}

/// The part at a place, or at the end of the code the part where the code goes on that was entered from other code.
#[inline(always)]
fn part_at<'a>(instrs: &'a [Instr], trail: Option<&'a Trail>, place: usize) -> Option<&'a Basic>
    ensures { IfSome result (λ part. (u : List ℕ) (c : ℕ) (ns : List Note) → ends_at u (basic_of part.now) c ≡ []
        → IfSome trail.entry (λ t. t.now.notes ≡ ns) → FailsAt u (code_of instrs.now) ns place c 1) }
{
    if place < instrs.len() {
        return part_of(instrs, place);
    }
    let (outer, after) = trail?.outer()?;
    part_of(outer.as_slice(), after)
}

/// Whether an attempt fails at such a part. Apart, so that each instruction is short.
#[inline(never)]
fn misses_at(
    bytes: &[u8],
    instrs: &[Instr],
    trail: Option<&Trail>,
    place: usize,
    cursor: usize,
) -> bool
    requires { cursor ≤ length bytes.now }
    ensures { result ≡ true → (ns : List Note) → IfSome trail.entry (λ t. t.now.notes ≡ ns)
        → FailsAt bytes.now (code_of instrs.now) ns place cursor 1 }
{
    match part_at(instrs, trail, place) {
        Some(part) => misses(bytes, cursor, part),
        None => false,
    }
}

/// In how many steps an attempt fails where all ways of the SPLITs fail that stand one behind the other at a place, if
/// any, as by `fails_at`. Their other ways are looked at if parts stand there, and not too many. Apart, so that each
/// instruction is short.
#[inline(never)]
fn fails_split(
    bytes: &[u8],
    instrs: &[Instr],
    trail: Option<&Trail>,
    place: usize,
    cursor: usize,
) -> u64
    requires cursor { cursor ≤ length bytes.now }
    ensures fails { 0 < result → (ns : List Note) → IfSome trail.entry (λ t. t.now.notes ≡ ns)
        → FailsAt bytes.now (code_of instrs.now) ns place cursor result }
{
    let mut at = place;
    let mut steps = 0;
    while let Some(other) = other_of(instrs, at) {
        match part_of(instrs, other) {
            Some(part) if steps < MANY && misses(bytes, cursor, part) => steps += 3,
            _ => return 0,
        }
        at += 1;
    }
    let (last, outside, more) = if let Some(to) = jump_from(instrs, at) {
        (to, trail, 2)
    } else if opens_at(instrs, at) {
        (at + 1, None, 2)
    } else {
        (at, trail, 1)
    };
    let fails = misses_at(bytes, instrs, outside, last, cursor);
    if fails { steps + more } else { 0 }
}

/// Whether a part has no end from a place. Apart, so that each instruction is short.
#[inline(never)]
fn misses_apart(bytes: &[u8], cursor: usize, part: &Basic) -> bool
    requires { cursor ≤ length bytes.now }
    ensures { result ≡ true → ends_at bytes.now (basic_of part.now) cursor ≡ [] }
{
    misses(bytes, cursor, part)
}

/// In how many steps an attempt fails at a place, which may be the end of its code, whatever is gone back to; at most
/// so many, and 0 where no look shows that it does. Of an attempt with other notes than a trail's, what stands around
/// its code isn't looked at. A part and the end of the code are told apart in line, and of a jump nothing is known.
#[inline(always)]
pub fn fails_at(
    bytes: &[u8],
    instrs: &[Instr],
    trail: Option<&Trail>,
    place: usize,
    cursor: usize,
    most: u64,
) -> u64
    requires cursor { cursor ≤ length bytes.now }
    requires most { 0 < most }
    ensures fails { 0 < result → (ns : List Note) → IfSome trail.entry (λ t. t.now.notes ≡ ns)
        → FailsAt bytes.now (code_of instrs.now) ns place cursor result }
    ensures most { result ≤ most }
{
    let fails = match part_of(instrs, place) {
        Some(Basic::RPos(n)) => (bytes.len() - cursor) as u64 != *n,
        Some(part) => misses_apart(bytes, cursor, part),
        None if place >= instrs.len() => misses_at(bytes, instrs, trail, place, cursor),
        None if jump_from(instrs, place).is_some() => false,
        None => {
            let steps = fails_split(bytes, instrs, trail, place, cursor);
            return if steps <= most { steps } else { 0 };
        }
    };
    if fails { 1 } else { 0 }
}
