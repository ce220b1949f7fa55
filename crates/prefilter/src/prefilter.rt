//! Starts from which a match must fail, which are passed many at a time.

ghost use Rattle.std.specs.Prelude.{◌≡◌, ◌+◌, ◌<◌, ◌≤◌, [], Some, length, IfSome};
ghost use Rattle.model.specs.Pattern.Steps.{Code, Lost, Over, Starting};
ghost use Rattle.pattern_compiler.specs.View.{code_of};
ghost use Rattle.prefilter.specs.Filters.{AreFirsts};
ghost use Rattle.prefilter.specs.Looks.{FailFrom, HasKey, LeadsFromFront, StartFails, key_of};
ghost use Rattle.prefilter.specs.Starts.{AreIdle, ArePassed, Leads};

use crate::ends::fails_for;
use crate::look::{fails_at, opens_at, other_of, part_of};
use crate::search::lit_fails_for;
use pattern_compiler::{Basic, Instr, PatCode};
use strings::ByteSet;

/// So many alternatives are looked at, at most.
const MANY: usize = 32;

/// Of fewer starts the bytes aren't gathered that a match may begin with.
const FEW: usize = 16;

/// What the second byte is multiplied by in the number for two bytes.
const PAIRS: u8 = 37;

/// Starts that were passed, and the steps of all of them.
#[derive(Clone, Copy)]
pub struct Passed {
    pub starts: usize,
    pub steps: u64,
}

/// The numbers for the two bytes that an attempt may begin with, and in how many steps it fails that begins with others.
#[derive(Drop)]
pub struct Firsts {
    set: ByteSet,
    factor: u8,
    pub steps: u64,
}

/// At how many places from one on the instruction at a place of the code fails, as a search for a byte shows; at most
/// so many.
#[inline(always)]
pub fn idle_from(subject: &[u8], code: &PatCode, place: usize, from: usize, limit: usize) -> usize
    requires { from + limit ≤ length subject.now }
    ensures idle { AreIdle subject.now code.now place from result }
    ensures limit { result ≤ limit }
{
    match code.get(place) {
        Some(Instr::Do(Basic::Lit(text))) => lit_fails_for(subject, from, limit, text.as_slice()),
        Some(Instr::Do(part)) => fails_for(subject, from, limit, part),
        _ => 0,
    }
}

/// The place of the first instruction that isn't the OPEN in front, and how many steps lead there.
#[inline(always)]
pub fn front(instrs: &[Instr]) -> (usize, u64)
    ensures leads { LeadsFromFront (code_of instrs.now) result.0 result.1 }
    ensures one { result.1 ≤ 1 }
{
    if opens_at(instrs, 0) { (1, 1) } else { (0, 0) }
}

/// No start.
#[inline(always)]
pub fn none_passed() -> Passed
    ensures { result ≡ record { starts = 0; steps = 0 } }
{
    Passed {
        starts: 0,
        steps: 0,
    }
}

/// Past starts that fail at the first part, which may stand behind OPEN, as a search for it shows; of so many that are
/// left, in at most so many steps.
#[inline(always)]
pub fn pass_part(bytes: &[u8], code: &PatCode, start: usize, left: usize, bound: u64) -> Passed
    requires starts { start + left ≤ length bytes.now }
    ensures { ArePassed bytes.now code.now start left bound result }
{
    let (place, opening) = front(code.as_slice());
    let each = opening + 2;
    let limit = left.min((bound / each) as usize);
    let starts = idle_from(bytes, code, place, start, limit);
    Passed {
        starts,
        steps: starts as u64 * each,
    }
}

/// A number for two bytes; for the first of them alone, where the factor is 0.
#[inline(always)]
fn key_of(first: u8, second: u8, factor: u8) -> u8
    ensures { result ≡ key_of first second factor }
{
    ((first as u32 + second as u32 * factor as u32) % 256) as u8
}

/// The number for the first two bytes of the literal at a place.
#[inline(always)]
fn key_at(instrs: &[Instr], place: usize, factor: u8) -> Option<u8>
    ensures { IfSome result (λ key. HasKey (code_of instrs.now) place factor key) }
{
    let Some(Basic::Lit(text)) = part_of(instrs, place) else {
        return None;
    };
    match text.as_slice() {
        [first, second, ..] => Some(key_of(*first, *second, factor)),
        [first] if factor == 0 => Some(key_of(*first, 0, 0)),
        _ => None,
    }
}

/// The numbers by a factor for what a match of code may begin with, if an alternation of literals in front shows it;
/// nothing where something else stands there, or more than so many.
#[inline(always)]
fn gather(instrs: &[Instr], factor: u8) -> Option<Firsts>
    ensures { IfSome result (λ firsts. AreFirsts (code_of instrs.now) firsts) }
{
    let (place, opening) = front(instrs);
    let mut found = [0u8; 32];
    let mut at = place;
    let mut count = 0;
    while let Some(other) = other_of(instrs, at) {
        if count + 1 >= MANY {
            return None;
        }
        found[count] = key_at(instrs, other, factor)?;
        count += 1;
        at += 1;
    }
    found[count] = key_at(instrs, at, factor)?;
    Some(Firsts {
        set: ByteSet::of(&found[..count + 1]),
        factor,
        steps: 3 * count as u64 + 1 + opening,
    })
}

/// What a match of code may begin with, if many starts are left and an alternation of literals shows it.
#[inline(never)]
fn firsts_of(instrs: &[Instr], left: usize) -> Option<Firsts>
    ensures { IfSome result (λ firsts. AreFirsts (code_of instrs.now) firsts) }
{
    if left < FEW {
        return None;
    }
    match gather(instrs, PAIRS) {
        None => gather(instrs, 0),
        found => found,
    }
}

/// At how many starts from one on the next two bytes have another number than those that a match may begin with; at
/// most so many. The last byte is never passed.
#[inline(never)]
fn missing_for(keys: &Firsts, bytes: &[u8], from: usize, limit: usize) -> usize
    requires { from + limit ≤ length bytes.now }
    ensures fails { (code : Code) → AreFirsts code keys.now → FailFrom bytes.now code from result keys.now.steps }
    ensures limit { result ≤ limit }
{
    let to = (from + limit).min(bytes.len().saturating_sub(1));
    let mut at = from;
    while at < to && !keys.set.has(key_of(bytes[at], bytes[at + 1], keys.factor)) {
        at += 1;
    }
    at - from
}

/// In how many steps a start fails, and with the last start the match, if a look shows that it does, and 0 else; at
/// most so many.
#[inline(always)]
pub fn lost_from(bytes: &[u8], code: &PatCode, start: usize, bound: u64) -> u64
    requires { start ≤ length bytes.now }
    ensures fails { 0 < result → StartFails bytes.now code.now start result }
    ensures lost { 0 < result → Leads bytes.now code.now result (Starting start 0 []) (Over Lost) }
    ensures bound { result ≤ bound }
{
    let instrs = code.as_slice();
    let (place, opening) = front(instrs);
    if bound <= opening + 1 {
        return 0;
    }
    let fails = fails_at(bytes, instrs, None, place, start, bound - opening - 1);
    if fails > 0 { fails + opening + 1 } else { 0 }
}

/// Past starts of code with an alternation in front, as looks and the bytes show that it may begin with.
#[inline(never)]
fn pass_alternation(bytes: &[u8], code: &PatCode, start: usize, left: usize, bound: u64) -> Passed
    requires starts { start + left ≤ length bytes.now }
    ensures { ArePassed bytes.now code.now start left bound result }
{
    let mut passed = none_passed();
    let mut filter = None;
    while passed.starts < left {
        let fails = lost_from(bytes, code, start + passed.starts, bound - passed.steps);
        if fails == 0 {
            return passed;
        }
        if passed.starts == 0 {
            filter = firsts_of(code.as_slice(), left);
        }
        passed.starts += 1;
        passed.steps += fails;
        if let Some(keys) = &filter {
            let each = keys.steps + 1;
            let limit = (left - passed.starts).min(((bound - passed.steps) / each) as usize);
            let starts = missing_for(keys, bytes, start + passed.starts, limit);
            passed.starts += starts;
            passed.steps += starts as u64 * each;
        }
    }
    passed
}

/// Past starts that fail, of so many that are left, in at most so many steps.
#[inline(always)]
pub fn pass(bytes: &[u8], code: &PatCode, start: usize, left: usize, bound: u64) -> Passed
    requires starts { start + left ≤ length bytes.now }
    ensures { ArePassed bytes.now code.now start left bound result }
{
    let instrs = code.as_slice();
    let (place, _opening) = front(instrs);
    match instrs.get(place) {
        Some(Instr::Split(_)) => pass_alternation(bytes, code, start, left, bound),
        _ => pass_part(bytes, code, start, left, bound),
    }
}
