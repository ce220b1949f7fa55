//! Operators that ask the world, but no unit.

ghost use Rattle.std.specs.Prelude.{◌≡◌, ◌++◌, ◌+◌, ◌<◌, ◌≤◌, length, IfOk, IfErr, IfSome, Err, ◌↔◌, take, drop, true};
ghost use Rattle.model.specs.Language.Io.{Io};
ghost use Rattle.model.specs.Machine.Steps.{codes_of, PCode};
ghost use Rattle.model.specs.Deck.Trees.{Bytes};
ghost use Rattle.model.specs.Language.Conversions.{Gives, Got, to_text};
ghost use Rattle.model.specs.Language.Values.{Str, Pat};
ghost use Rattle.model.specs.Language.Operators.{cat_op, keyget_op, keyset_op, match_op, assign_op, splice_op};
ghost use Rattle.model.specs.Deck.Target.{Name};
ghost use Rattle.model.specs.declared.run.Stop.TheVariants.{NoMemory};
ghost use Rattle.values.specs.Values.{value_of, begun_of};
ghost use Rattle.world.specs.Held.{IsLeftOf, world_of};
ghost use Rattle.values.specs.Answers.{answer_map, done, op_of, AnswersAs, IfStopped, LeadsTo};
ghost use Rattle.values.specs.declared.value.Value.TheVariants.{String};

use keywords::KeyValue;
use model::{ErrorCode, KeyId};
use pattern_compiler::Pattern;
use std::alloc::Global;
use strings::{StrFault, Text};
use values::{Begun, Fault, Span, Value};
use world::{World, is_zero};

// How long a string is at most that costs less to copy than to keep.
const SHORT: usize = 22;

// What stands before a place; a place past the end stands at the end.
#[tactic(auto, using(std::proofs::lemmas::List::take_min))]
fn before(subject: &[u8], place: usize) -> &[u8]
    ensures { result.now ≡ take place subject.now }
{
    &subject[..place.min(subject.len())]
}

// What stands from a place on.
#[tactic(auto, using(std::proofs::lemmas::List::drop_min))]
fn behind(subject: &[u8], place: usize) -> &[u8]
    ensures { result.now ≡ drop place subject.now }
{
    &subject[place.min(subject.len())..]
}

// What stands before a place, whose bytes are shared unless they are few.
#[tactic(auto, using(std::proofs::lemmas::List::take_min))]
fn part_before(subject: &Text, place: usize) -> Result<Text, StrFault>
    ensures ok { IfOk result (λ part. part ≡ take place subject.now) }
    ensures err { IfErr result (λ fault. fault ≡ StrFault.Memory) }
{
    subject.sub(0, place.min(subject.len()))
}

// What stands from a place on, whose bytes are shared unless they are few.
#[tactic(auto, using(std::proofs::lemmas::List::drop_min))]
fn part_behind(subject: &Text, place: usize) -> Result<Text, StrFault>
    ensures ok { IfOk result (λ part. part ≡ drop place subject.now) }
    ensures err { IfErr result (λ fault. fault ≡ StrFault.Memory) }
{
    let len = subject.len();
    subject.sub(place.min(len), len)
}

// The subject without the part. What is left of it is shared where nothing stands before the part, or nothing behind.
fn without(alloc: Global, subject: &Text, start: usize, end: usize) -> Result<Text, StrFault>
    ensures ok { IfOk result (λ all. all ≡ take start subject.now ++ drop end subject.now) }
    ensures err { IfErr result (λ fault. fault ≡ StrFault.Memory) }
{
    if start == 0 {
        return part_behind(subject, end);
    }
    let back = part_behind(subject, end)?;
    let front = part_before(subject, start)?;
    match Text::concat(alloc, &front, &back, usize::MAX) {
        Ok(all) => Ok(all),
        Err(_) => Err(StrFault::Memory),
    }
}

// The subject with the text in the place of the part.
fn spliced(alloc: Global, span: &Span, text: &[u8], limit: usize) -> Result<Text, StrFault>
    ensures ok { IfOk result (λ all.
        all ≡ take span.now.start span.now.subject
        ++ (text.now ++ drop span.now.end span.now.subject)) }
    ensures too_long { (result ≡ Err StrFault.TooLong)
        ↔ (limit < length (take span.now.start span.now.subject
        ++ (text.now ++ drop span.now.end span.now.subject))) }
{
    let front = before(span.subject.as_slice(), span.start);
    let back = behind(span.subject.as_slice(), span.end);
    if front.len() > limit {
        return Err(StrFault::TooLong);
    }
    let room = limit - front.len();
    if text.len() > room || back.len() > room - text.len() {
        return Err(StrFault::TooLong);
    }
    if text.is_empty() {
        return without(alloc, &span.subject, span.start, span.end);
    }
    let mut all = Vec::with_capacity(alloc, front.len() + text.len() + back.len())?;
    all.extend_from_slice(front)?;
    all.extend_from_slice(text)?;
    all.extend_from_slice(back)?;
    Text::from_vec(all)
}

// The text of a value behind another one, if both are no longer than this.
#[inline(always)]
fn append_text(alloc: Global, front: Text, value: &Value, longest: usize) -> Option<Text>
    ensures { IfSome result (λ all. (back : Bytes) × (to_text (value_of value.now) ≡ Got back)
        × (all ≡ front ++ back) × (length all ≤ longest)) }
{
    match value {
        Value::String(back) => match Text::append(alloc, front, back, longest) {
            Ok(all) => Some(all),
            Err(_) => None,
        },
        Value::Integer(n) => {
            let Ok(back) = Text::int_text(alloc, *n) else {
                return None;
            };
            match Text::append(alloc, front, &back, longest) {
                Ok(all) => Some(all),
                Err(_) => None,
            }
        }
        _ => None,
    }
}

/// The subject of a replacement with a value in the place of the part: what is to be assigned.
pub fn replaced(world: &World, alloc: Global, span: &Span, value: &Value) -> Result<Value, Fault>
    ensures value { (io : Io) (name : Name)
        → LeadsTo (answer_map value_of result) (world_of world.now io) (λ v.
        assign_op name v (world_of world.now io))
        (splice_op name span.now.subject span.now.start span.now.end (value_of value.now)
        (world_of world.now io)) }
    ensures stop { IfStopped result (λ stop. stop ≡ NoMemory) }
{
    let text = value.to_text(alloc)?;
    let whole = spliced(alloc, span, text.as_slice(), world.longest())?;
    Ok(Value::String(whole))
}

/// What is left of a subject without a part, which is what is assigned where nothing replaces the part; None if that
/// is longer than `&MAXLNGTH` allows, or if memory is wanting.
#[inline(always)]
pub fn cut(world: &World, alloc: Global, subject: &Text, start: usize, end: usize) -> Option<Value>
    ensures { IfSome result (λ value. IsLeftOf subject.now start end value world.now) }
{
    let Ok(rest) = without(alloc, subject, start, end) else {
        return None;
    };
    if rest.len() > world.longest() {
        return None;
    }
    Some(Value::String(rest))
}

/// Whether a subject is one of few bytes, and what is left of it without the byte at a place is no longer than
/// `&MAXLNGTH` allows.
#[inline(always)]
pub fn may_take(world: &World, subject: &Text, place: usize) -> bool
    ensures left { result ≡ true → IsLeftOf subject.now place (place + 1)
        (String (take place subject.now ++ drop (place + 1) subject.now)) world.now }
    ensures within { result ≡ true → place < length subject.now }
    ensures few { result ≡ true → length subject.now ≤ 22 }
{
    let len = subject.len();
    place < len && len <= SHORT && len - 1 <= world.longest()
}

/// Two values one after the other. The null string gives the other, unconverted. Bytes of the left one that nothing
/// else shares aren't copied while they have room.
pub fn cat(world: &World, alloc: Global, left: Value, right: Value) -> Result<Value, Fault>
    ensures value { (io : Io)
        → AnswersAs (answer_map value_of result) (world_of world.now io)
        (cat_op codes_of (value_of left) (value_of right) (world_of world.now io)) }
    ensures stop { IfStopped result (λ stop. stop ≡ NoMemory) }
{
    if left.is_null() {
        return Ok(right);
    }
    if right.is_null() {
        return Ok(left);
    }
    if left.has_text() && right.has_text() {
        let front = left.into_text(alloc)?;
        let back = right.into_text(alloc)?;
        let text = Text::append(alloc, front, &back, world.longest())?;
        return Ok(Value::String(text));
    }
    let first = left.into_pattern(alloc)?;
    let second = right.into_pattern(alloc)?;
    Ok(Value::Pattern(Pattern::cat(alloc, first, second)?))
}

/// Two values one after the other, if the first is a short string and the second a string or an integer, and
/// neither is null. They stay as they are.
#[inline(always)]
pub fn cat_short(world: &World, alloc: Global, left: &Value, right: &Value) -> Option<Value>
    ensures { (io : Io) → IfSome result (λ v.
        cat_op codes_of (value_of left.now) (value_of right.now) (world_of world.now io)
        ≡ Gives (value_of v) (world_of world.now io)) }
{
    let Value::String(front) = left else {
        return None;
    };
    if left.is_null() || right.is_null() || front.len() > SHORT {
        return None;
    }
    let longest = world.longest();
    let joined = match right {
        Value::String(back) => Text::concat(alloc, front, back, longest),
        Value::Integer(n) => {
            let Ok(back) = Text::int_text(alloc, *n) else {
                return None;
            };
            Text::concat(alloc, front, &back, longest)
        }
        _ => return None,
    };
    match joined {
        Ok(text) => Some(Value::String(text)),
        Err(_) => None,
    }
}

// `cat` with a copy of the second value.
fn cat_copy(world: &World, alloc: Global, left: Value, right: &Value) -> Option<Value>
    ensures { IfSome result (λ v. (io : Io)
        → cat_op codes_of (value_of left) (value_of right.now) (world_of world.now io)
        ≡ Gives (value_of v) (world_of world.now io)) }
{
    let Ok(right) = right.clone() else {
        return None;
    };
    match cat(world, alloc, left, right) {
        Ok(value) => Some(value),
        Err(_) => None,
    }
}

/// `cat` of a value that isn't needed any more and another one, which stays as it is; what has no value has none here.
pub fn cat_onto(world: &World, alloc: Global, left: Value, right: &Value) -> Option<Value>
    ensures { IfSome result (λ v. (io : Io)
        → cat_op codes_of (value_of left) (value_of right.now) (world_of world.now io)
        ≡ Gives (value_of v) (world_of world.now io)) }
{
    if left.is_null() {
        return match right.clone() {
            Ok(value) => Some(value),
            Err(_) => None,
        };
    }
    if right.is_null() {
        return Some(left);
    }
    if !left.has_text() || !right.has_text() {
        return cat_copy(world, alloc, left, right);
    }
    let Ok(front) = left.into_text(alloc) else {
        return None;
    };
    match append_text(alloc, front, right, world.longest()) {
        Some(text) => Some(Value::String(text)),
        None => None,
    }
}

/// The value of a keyword.
pub fn keyword(world: &World, id: KeyId) -> Result<Value, Fault>
    ensures value { (io : Io)
        → AnswersAs (answer_map value_of result) (world_of world.now io)
        (keyget_op id (world_of world.now io)) }
    ensures stop { IfStopped result (λ stop. stop ≡ NoMemory) }
{
    match world.keywords().get(id) {
        KeyValue::Integer(n) => Ok(Value::Integer(n)),
        KeyValue::Text(text) => Ok(Value::String(text.clone()?)),
    }
}

/// Assigns to a keyword; a refused assignment changes nothing.
pub fn set_keyword(world: &mut World, id: KeyId, value: &Value) -> Result<(), ErrorCode>
    ensures set { (io : Io) → op_of (done result) (world_of world.new io)
        ≡ keyset_op id (value_of value.now) (world_of world.old io) }
    ensures names { world.new.names ≡ world.old.names }
{
    let n = value.to_int()?;
    let Ok(()) = world.keywords_mut().set(id, n) else {
        return Err(ErrorCode::BadKeywordValue);
    };
    Ok(())
}

/// What a match of these values begins with.
pub fn begin_match(
    world: &World,
    alloc: Global,
    subject: Value,
    pattern: Value,
) -> Result<Begun, Fault>
    ensures begun { (io : Io)
        → AnswersAs (answer_map begun_of result) (world_of world.now io)
        (match_op codes_of (value_of subject) (value_of pattern)
        (world_of world.now io)) }
    ensures stop { IfStopped result (λ stop. stop ≡ NoMemory) }
{
    let subject = subject.into_text(alloc)?;
    let pattern = pattern.into_pattern(alloc)?.into_code(alloc)?;
    Ok(Begun {
        subject,
        pattern,
        anchored: !is_zero(world.keywords(), KeyId::Anchor),
    })
}

/// Whether a match begins at the first place alone.
#[inline(always)]
pub fn is_anchored(world: &World) -> bool
    ensures { (io : Io) (subject : Bytes) (code : PCode)
        → match_op codes_of (Str subject) (Pat code) (world_of world.now io)
        ≡ Gives (begun_of (record { subject = subject; pattern = code; anchored = result }))
        (world_of world.now io) }
{
    !is_zero(world.keywords(), KeyId::Anchor)
}
