//! The ends of parts without parts.

ghost use Rattle.std.specs.Prelude.{◌≡◌, ◌+◌, ◌≤◌, length, drop, true, false, Some, IfSome, option_to_list};
ghost use Rattle.model.specs.Pattern.Patterns as p;
ghost use Rattle.model.specs.Pattern.BasicEnds.{ends_at, balanced};
ghost use Rattle.prefilter.specs.Balance.{ends_from};
ghost use Rattle.prefilter.specs.Starts.{FailsFrom};
ghost use Rattle.prefilter.specs.Act.{HasOneEnd, IsOther};
ghost use Rattle.pattern_compiler.specs.View.{basic_of};

use crate::search::places_of;
use pattern_compiler::{Basic, Set};

/// The end of a literal.
#[inline(always)]
pub fn lit_end(subject: &[u8], cursor: usize, text: &[u8]) -> Option<usize>
    requires { cursor ≤ length subject.now }
    ensures { option_to_list result ≡ ends_at subject.now (p.Lit text.now) cursor }
{
    let stands = match text {
        [] => true,
        [first, ..] if cursor >= subject.len() || subject[cursor] != *first => false,
        [_byte] => true,
        [_first, second] => cursor + 1 < subject.len() && subject[cursor + 1] == *second,
        _ => subject[cursor..].starts_with(text),
    };
    if stands {
        Some(cursor + text.len())
    } else {
        None
    }
}

/// The end of SPAN.
#[inline(never)]
pub fn span_end(subject: &[u8], cursor: usize, set: &Set) -> Option<usize>
    requires { cursor ≤ length subject.now }
    ensures { option_to_list result ≡ ends_at subject.now (p.Span set.now) cursor }
{
    let n = set.span_len(&subject[cursor..]);
    if n > 0 { Some(cursor + n) } else { None }
}

/// The end of BREAK.
#[inline(never)]
pub fn break_end(subject: &[u8], cursor: usize, set: &Set) -> Option<usize>
    requires { cursor ≤ length subject.now }
    ensures { option_to_list result ≡ ends_at subject.now (p.Break set.now) cursor }
{
    let end = cursor + set.break_len(&subject[cursor..]);
    if end < subject.len() { Some(end) } else { None }
}

/// At how many places from here on a part has no end, as a look at the place or one search shows; at most so many.
#[inline(never)]
pub fn fails_for(subject: &[u8], from: usize, limit: usize, part: &Basic) -> usize
    requires { from + limit ≤ length subject.now }
    ensures fails { FailsFrom subject.now (basic_of part.now) from result }
    ensures limit { result ≤ limit }
{
    let rest = &subject[from..from + limit];
    match part {
        Basic::Any(set) => set.break_len(rest),
        Basic::NotAny(set) => set.span_len(rest),
        Basic::Span(set) => set.break_len(rest),
        Basic::Break(set) if from > 0 && from + set.break_len(&subject[from..]) == subject.len() =>
            limit,
        Basic::Pos(n) => n.wrapping_sub(from as u64).min(limit as u64) as usize,
        Basic::RPos(n) => ((subject.len() - from) as u64)
            .wrapping_sub(*n)
            .min(limit as u64) as usize,
        Basic::Len(n) | Basic::RTab(n) if *n > (subject.len() - from) as u64 => limit,
        Basic::Tab(n) if *n < from as u64 || *n > subject.len() as u64 => limit,
        Basic::Fail => limit,
        _ => 0,
    }
}

/// Whether a part has one end at most from each place.
#[inline(always)]
pub fn has_one_end(part: &Basic) -> bool
    ensures one { result ≡ true → HasOneEnd (basic_of part.now) }
    ensures many { result ≡ false → IsOther (Some (p.Do (basic_of part.now))) }
{
    !matches!(part, Basic::Arb | Basic::Bal)
}

/// The end of such a part.
#[inline(always)]
pub fn one_end(bytes: &[u8], cursor: usize, part: &Basic) -> Option<usize>
    requires cursor { cursor ≤ length bytes.now }
    requires one { HasOneEnd (basic_of part.now) }
    ensures { option_to_list result ≡ ends_at bytes.now (basic_of part.now) cursor }
{
    match part {
        Basic::Lit(text) => lit_end(bytes, cursor, text.as_slice()),
        Basic::Len(n) if *n <= (bytes.len() - cursor) as u64 => Some(cursor + *n as usize),
        Basic::Pos(n) if cursor as u64 == *n => Some(cursor),
        Basic::RPos(n) if (bytes.len() - cursor) as u64 == *n => Some(cursor),
        Basic::Tab(n) if cursor as u64 <= *n && *n <= bytes.len() as u64 => Some(*n as usize),
        Basic::RTab(n) if *n <= (bytes.len() - cursor) as u64 => Some(bytes.len() - *n as usize),
        Basic::Any(set) if cursor < bytes.len() && set.has(bytes[cursor]) => Some(cursor + 1),
        Basic::NotAny(set) if cursor < bytes.len() && !set.has(bytes[cursor]) => Some(cursor + 1),
        Basic::Span(set) => span_end(bytes, cursor, set),
        Basic::Break(set) => break_end(bytes, cursor, set),
        Basic::Rem => Some(bytes.len()),
        _ => None,
    }
}

/// The first end of BAL from here.
#[inline(always)]
pub fn bal_end(subject: &[u8], cursor: usize) -> Option<usize>
    requires { cursor ≤ length subject.now }
    ensures ends { ends_from subject.now result ≡ ends_at subject.now p.Bal cursor }
    ensures within { IfSome result (λ e. e ≤ length subject.now) }
{
    if cursor >= subject.len() {
        return None;
    }
    match subject[cursor] {
        b'(' => closing_from(subject, cursor + 1),
        b')' => None,
        _ => Some(cursor + 1),
    }
}

/// The first end of BAL from a place on, where one bracket is open before it. Sixteen bytes that close fewer than are
/// open are passed together.
#[inline(never)]
fn closing_from(subject: &[u8], from: usize) -> Option<usize>
    requires { from ≤ length subject.now }
    ensures ends { ends_from subject.now result ≡ balanced (drop from subject.now) 1 from }
    ensures within { IfSome result (λ e. e ≤ length subject.now) }
{
    let mut depth = 1;
    let mut at = from;
    let mut next = from;
    while at < subject.len() {
        if at >= next && subject.len() - at >= 16 {
            let closed = places_of(subject, at, b')').count_ones() as usize;
            if closed < depth {
                depth = depth + places_of(subject, at, b'(').count_ones() as usize - closed;
                at += 16;
                continue;
            }
            next = at + 16;
        }
        match subject[at] {
            b'(' => depth += 1,
            b')' if depth == 1 => return Some(at + 1),
            b')' => depth -= 1,
            _ => {},
        }
        at += 1;
    }
    None
}
