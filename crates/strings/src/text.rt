//! A text: a few bytes of its own, or many that are shared by its clones and by the parts cut from it.

ghost use Rattle.std.specs.Prelude.{◌≡◌, ◌+◌, ◌-◌, ◌*◌, ◌%◌, ◌^◌, ◌<◌, ◌≤◌, ℕ, [], ◌∷◌, ◌++◌, length, take, drop, map, IfOk, IfErr};
ghost use Rattle.std.specs.Prelude.{true, false, IsTrue, Err, ◌↔◌, slice_range, slice_index, MatchResult};
ghost use Rattle.std.specs.Fmt.{signed_decimal};
ghost use Rattle.std.specs.List.{repeat};
ghost use Rattle.model.specs.Language.Strings.{replaced};

use crate::fault::StrFault;
use itoa::Buffer;
use std::alloc::{AllocError, Global};
use std::hash::{Hash, Hasher};
use std::marker::Model;
use std::rc::Rc;

// How many bytes a text has at most that are its own.
pub(crate) const FEW: usize = 22;

// Where the bytes are.
#[derive(Drop)]
pub(crate) enum Bytes {
    // The first so many of the array, which is copied with the text.
    Own {
        len: u8,
        array: [u8; FEW],
    },
    // Those between two places.
    Shared {
        start: u32,
        end: u32,
        shared: Rc<Vec<u8>>,
    },
}

/// Bytes that never change; contracts see the list of them. A few take no memory, and more are shared.
pub struct Text {
    pub(crate) bytes: Bytes,
}

impl Drop for Text {
    #[inline(always)]
    fn drop(self) {
        let Text { bytes } = self;
        match bytes {
            Bytes::Own { len: _, array: _ } => {}
            Bytes::Shared {
                start: _,
                end: _,
                shared,
            } => let_go(shared),
        }
    }
}

// The end of a share of many bytes, apart from texts of few, which own no memory.
#[inline(never)]
fn let_go(_shared: Rc<Vec<u8>>) {}

const _: () = prove!(size_of::<Text>() <= 24);

/// The bytes of a text that are its own, at most 22; contracts see the list of them. They take no memory.
#[derive(Drop)]
pub struct InlineBytes {
    len: u8,
    array: [u8; FEW],
}

/// The bytes of a text that its clones share; contracts see the list of them.
pub struct SharedBytes {
    start: u32,
    end: u32,
    shared: Rc<Vec<u8>>,
}

const _: () = prove!(size_of::<InlineBytes>() <= 23);

const _: () = prove!(size_of::<SharedBytes>() <= 16);

impl Drop for SharedBytes {
    #[inline(always)]
    fn drop(self) {
        let SharedBytes {
            start: _,
            end: _,
            shared,
        } = self;
        let_go(shared)
    }
}

impl Model for Text {
    ghost use Rattle.std.specs.Prelude.{List, ℕ};

    ghost Value = { List ℕ };

    ghost use Rattle.strings.specs.Shared.{bytes_of, AreWithin};

    ghost view = { λ t. bytes_of t.bytes };

    ghost invariant = { λ t. AreWithin t.bytes };
}

impl Model for InlineBytes {
    ghost use Rattle.std.specs.Prelude.{◌≡◌, ◌≤◌, List, ℕ, length, take};

    ghost Value = { List ℕ };

    ghost view = { λ f. take f.len f.array };

    ghost invariant = { λ f. (f.len ≤ 22) × (length f.array ≡ 22) };
}

impl Model for SharedBytes {
    ghost use Rattle.std.specs.Prelude.{◌≤◌, List, ℕ, length, slice_range};

    ghost Value = { List ℕ };

    ghost view = { λ m. slice_range m.shared.value.items m.start m.end };

    ghost invariant = { λ m. (m.start ≤ m.end) × (m.end ≤ length m.shared.value.items) };
}

impl Text {
    /// The null text. Takes no memory.
    pub fn null() -> Text
        ensures { result ≡ [] }
    {
        Text {
            bytes: Bytes::Own {
                len: 0,
                array: [0; FEW],
            },
        }
    }

    // The text of a few bytes, which are copied. Takes no memory.
    fn few(bytes: &[u8]) -> Text
        requires { length bytes.now ≤ 22 }
        ensures { result ≡ bytes.now }
    {
        InlineBytes::of(bytes).to_text()
    }

    // Two texts in one of a few bytes.
    fn few_joined(left: &Text, right: &[u8]) -> Text
        requires { length left.now + length right.now ≤ 22 }
        ensures { result ≡ left.now ++ right.now }
    {
        let front = left.len();
        let len = front + right.len();
        let mut array = left.few_bytes();
        array[front..len].copy_from_slice(right);
        Text {
            bytes: Bytes::Own {
                len: len as u8,
                array,
            },
        }
    }

    // A few bytes, in the front of an array.
    #[inline]
    fn few_bytes(&self) -> [u8; FEW]
        requires { length self.now ≤ 22 }
        ensures bytes { take (length self.now) result ≡ self.now }
        ensures len { length result ≡ 22 }
    {
        match &self.bytes {
            Bytes::Own { array, .. } => *array,
            Bytes::Shared { .. } => {
                let bytes = self.as_slice();
                let mut array = [0; FEW];
                array[..bytes.len()].copy_from_slice(bytes);
                array
            }
        }
    }

    /// The text of these bytes, which are copied.
    pub fn from_slice(alloc: Global, bytes: &[u8]) -> Result<Text, StrFault>
        ensures ok { IfOk result (λ text. text ≡ bytes.now) }
        ensures err { IfErr result (λ fault. fault ≡ StrFault.Memory) }
    {
        if bytes.len() <= FEW {
            return Ok(Text::few(bytes));
        }
        let all = Vec::from_slice(alloc, bytes)?;
        shared_from(0, all)
    }

    /// The text of a vector's bytes, which are copied only if they are few.
    pub fn from_vec(bytes: Vec<u8>) -> Result<Text, StrFault>
        ensures ok { IfOk result (λ text. text ≡ bytes.items) }
        ensures err { IfErr result (λ fault. fault ≡ StrFault.Memory) }
    {
        if bytes.len() <= FEW {
            return Ok(Text::few(bytes.as_slice()));
        }
        shared_from(0, bytes)
    }

    /// One text and then the other; if one of them is null, the other is shared.
    pub fn concat(alloc: Global, left: &Text, right: &Text, limit: usize) -> Result<Text, StrFault>
        ensures ok { IfOk result (λ text. text ≡ left.now ++ right.now) }
        ensures too_long { (result ≡ Err StrFault.TooLong)
            ↔ (limit < length left.now + length right.now) }
    {
        let front = left.len();
        let back = right.len();
        if front > limit || back > limit - front {
            return Err(StrFault::TooLong);
        }
        if front + back <= FEW {
            return Ok(Text::few_joined(left, right.as_slice()));
        }
        if front == 0 {
            return Ok(right.clone()?);
        }
        if back == 0 {
            return Ok(left.clone()?);
        }
        joined(alloc, left.as_slice(), right.as_slice())
    }

    /// One text and then the other. Bytes of the first that nothing else shares aren't copied while they have room.
    pub fn append(alloc: Global, left: Text, right: &Text, limit: usize) -> Result<Text, StrFault>
        ensures ok { IfOk result (λ text. text ≡ left ++ right.now) }
        ensures too_long { (result ≡ Err StrFault.TooLong)
            ↔ (limit < length left + length right.now) }
    {
        let front = left.len();
        let back = right.len();
        if back > limit || front > limit - back {
            return Err(StrFault::TooLong);
        }
        if front + back <= FEW {
            return Ok(Text::few_joined(&left, right.as_slice()));
        }
        if front == 0 {
            return Ok(right.clone()?);
        }
        let Text { bytes } = left;
        match bytes {
            Bytes::Own { len, array } => joined(alloc, &array[..len as usize], right.as_slice()),
            Bytes::Shared { start, end, shared } => match Rc::try_unwrap(shared) {
                Ok(all) => lengthened(all, start, end, right.as_slice()),
                Err(shared) => joined(
                    alloc,
                    &shared.as_ref().as_slice()[start as usize..end as usize],
                    right.as_slice(),
                ),
            },
        }
    }

    /// Puts bytes behind these, and others behind them. Bytes that nothing else shares aren't copied while they have room.
    /// Whether there was memory for that; else nothing changes.
    #[inline(always)]
    pub fn extend(&mut self, alloc: Global, one: &[u8], two: &[u8]) -> bool
        requires fits { length self.old + length one.now + length two.now < 2 ^ 64 }
        ensures made { result ≡ true → self.new ≡ (self.old ++ one.now) ++ two.now }
        ensures kept { result ≡ false → self.new ≡ self.old }
    {
        if self.len() + one.len() + two.len() > FEW {
            return self.extend_many(alloc, one, two);
        }
        self.extend_few(one);
        if !two.is_empty() {
            self.extend_few(two);
        }
        true
    }

    // Puts bytes behind a few that stay few.
    #[inline(always)]
    fn extend_few(&mut self, more: &[u8])
        requires few { length self.old + length more.now ≤ 22 }
        ensures { self.new ≡ self.old ++ more.now }
    {
        let front = self.len();
        let back = front + more.len();
        if let Bytes::Own { array, .. } = &mut self.bytes {
            array[front..back].copy_from_slice(more);
            if let Bytes::Own { len, .. } = &mut self.bytes {
                *len = back as u8;
            }
            return;
        }
        *self = Text::few_joined(self, more);
    }

    // Puts bytes behind many, or behind a few that become many; whether there was memory, or else nothing changes.
    #[inline(never)]
    fn extend_many(&mut self, alloc: Global, one: &[u8], two: &[u8]) -> bool
        requires fits { length self.old + length one.now + length two.now < 2 ^ 64 }
        ensures made { result ≡ true → self.new ≡ (self.old ++ one.now) ++ two.now }
        ensures kept { result ≡ false → self.new ≡ self.old }
    {
        if let Bytes::Shared { start, end, shared } = &mut self.bytes {
            if extend_shared(*start, end, shared, one, two) {
                return true;
            }
        }
        match lengthy(alloc, self.as_slice(), one, two) {
            Ok(text) => {
                *self = text;
                true
            }
            Err(_) => false,
        }
    }

    /// Takes bytes off the front. Takes no memory.
    #[inline(always)]
    pub fn cut_front(&mut self, count: usize)
        requires within { count ≤ length self.old }
        ensures { self.new ≡ drop count self.old }
    {
        if let Bytes::Own { array, .. } = &mut self.bytes {
            shift_down(array, count);
            if let Bytes::Own { len, .. } = &mut self.bytes {
                *len -= count as u8;
            }
            return;
        }
        if self.len() - count > FEW {
            if let Bytes::Shared { start, .. } = &mut self.bytes {
                *start += count as u32;
                return;
            }
        }
        *self = Text::few(&self.as_slice()[count..]);
    }

    /// Takes a byte out of few. Takes no memory.
    #[tactic(auto, using(crate::proofs::Lists::front_without))]
    #[inline(always)]
    pub fn take_byte(&mut self, place: usize)
        requires few { length self.old ≤ 22 }
        requires within { place < length self.old }
        ensures { self.new ≡ take place self.old ++ drop (place + 1) self.old }
    {
        let last = self.len() - 1;
        if let Bytes::Own { array, .. } = &mut self.bytes {
            close_up(array, place, last);
            if let Bytes::Own { len, .. } = &mut self.bytes {
                *len = last as u8;
            }
            return;
        }
        let mut array = self.few_bytes();
        close_up(&mut array, place, last);
        *self = Text {
            bytes: Bytes::Own {
                len: last as u8,
                array,
            },
        };
    }

    /// The text, `n` times.
    pub fn dupl(alloc: Global, text: &Text, n: u64, limit: usize) -> Result<Text, StrFault>
        ensures ok { IfOk result (λ all. all ≡ repeat n text.now) }
        ensures too_long { (result ≡ Err StrFault.TooLong) ↔ (limit < n * length text.now) }
    {
        let length = text.len();
        if n == 0 || length == 0 {
            return Ok(Text::null());
        }
        if n > (limit / length) as u64 {
            return Err(StrFault::TooLong);
        }
        let mut all = Vec::with_capacity(alloc, n as usize * length)?;
        for _turn in 0..n {
            all.extend_from_slice(text.as_slice())?;
        }
        Text::from_vec(all)
    }

    /// Each byte that is in `from` becomes the byte of `to` at the last such place.
    pub fn replace(alloc: Global, text: &Text, from: &[u8], to: &[u8]) -> Result<Text, StrFault>
        requires { length from.now ≡ length to.now }
        ensures ok { IfOk result (λ all. all ≡ map (replaced from.now to.now) text.now) }
        ensures err { IfErr result (λ fault. fault ≡ StrFault.Memory) }
    {
        let old = text.as_slice();
        if old.len() <= FEW {
            return Ok(replaced_few(old, from, to));
        }
        replaced_many(alloc, old, from, to)
    }

    /// The decimal digits of an integer, with `-` before those of a negative one.
    pub fn int_text(alloc: Global, n: i64) -> Result<Text, StrFault>
        ensures ok { IfOk result (λ text. text ≡ signed_decimal n) }
        ensures err { IfErr result (λ fault. fault ≡ StrFault.Memory) }
    {
        let mut buffer = Buffer::new();
        Text::from_slice(alloc, buffer.format(n).as_bytes())
    }

    /// The bytes.
    #[inline]
    pub fn as_slice(&self) -> &[u8]
        ensures { result.now ≡ self.now }
    {
        match &self.bytes {
            Bytes::Own { len, array } => &array[..*len as usize],
            Bytes::Shared { start, end, shared } => {
                let all = shared.as_ref().as_slice();
                &all[*start as usize..*end as usize]
            }
        }
    }

    /// How many bytes there are.
    #[inline]
    pub fn len(&self) -> usize
        ensures { result ≡ length self.now }
    {
        match &self.bytes {
            Bytes::Own { len, .. } => *len as usize,
            Bytes::Shared { start, end, .. } => (*end - *start) as usize,
        }
    }

    /// Whether it is the null text.
    #[inline]
    pub fn is_empty(&self) -> bool
        ensures { IsTrue result ↔ (self.now ≡ []) }
    {
        self.len() == 0
    }

    /// The bytes from `from` up to `to`, copied if they are few, and else shared.
    pub fn sub(&self, from: usize, to: usize) -> Result<Text, StrFault>
        requires ordered { from ≤ to }
        requires within { to ≤ length self.now }
        ensures ok { IfOk result (λ part. part ≡ slice_range self.now from to) }
        ensures err { IfErr result (λ fault. fault ≡ StrFault.Memory) }
    {
        let bytes = self.as_slice();
        if to - from <= FEW {
            return Ok(Text::few(&bytes[from..to]));
        }
        match &self.bytes {
            Bytes::Shared { start, end, shared } => {
                let len = (*end - *start) as usize;
                prove!(to <= len);
                let shared = shared.clone()?;
                Ok(Text {
                    bytes: Bytes::Shared {
                        start: *start + from as u32,
                        end: *start + to as u32,
                        shared,
                    },
                })
            }
            Bytes::Own { .. } => unreachable!(),
        }
    }

    /// The bytes, apart by whether they are its own. Takes no memory.
    #[inline(always)]
    pub fn into_inline(self) -> Result<InlineBytes, SharedBytes>
        ensures { MatchResult result (λ few. few ≡ self) (λ many. many ≡ self) }
    {
        let Text { bytes } = self;
        match bytes {
            Bytes::Own { len, array } => Ok(InlineBytes { len, array }),
            Bytes::Shared { start, end, shared } => Err(SharedBytes { start, end, shared }),
        }
    }
}

impl InlineBytes {
    /// These bytes, which are copied.
    #[inline]
    pub fn of(bytes: &[u8]) -> InlineBytes
        requires { length bytes.now ≤ 22 }
        ensures { result ≡ bytes.now }
    {
        let len = bytes.len();
        let mut array = [0; FEW];
        if len == 1 {
            array[0] = bytes[0];
        } else {
            array[..len].copy_from_slice(bytes);
        }
        InlineBytes {
            len: len as u8,
            array,
        }
    }

    /// The text of them. Takes no memory.
    #[inline(always)]
    pub fn to_text(&self) -> Text
        ensures { result ≡ self.now }
    {
        Text {
            bytes: Bytes::Own {
                len: self.len,
                array: self.array,
            },
        }
    }
}

impl Clone for InlineBytes {
    ghost is_clone = { λ few copy. copy ≡ few };

    #[inline(always)]
    fn clone(&self) -> Result<InlineBytes, AllocError> {
        Ok(InlineBytes {
            len: self.len,
            array: self.array,
        })
    }
}

impl SharedBytes {
    /// The text of them, which shares them.
    #[inline(always)]
    pub fn into_text(self) -> Text
        ensures { result ≡ self }
    {
        let SharedBytes { start, end, shared } = self;
        Text {
            bytes: Bytes::Shared { start, end, shared },
        }
    }
}

impl Clone for SharedBytes {
    ghost is_clone = { λ many copy. copy ≡ many };

    #[inline(always)]
    fn clone(&self) -> Result<SharedBytes, AllocError> {
        let shared = self.shared.clone()?;
        Ok(SharedBytes {
            start: self.start,
            end: self.end,
            shared,
        })
    }
}

impl Clone for Text {
    ghost is_clone = { λ text copy. copy ≡ text };

    #[inline]
    fn clone(&self) -> Result<Text, AllocError> {
        match &self.bytes {
            Bytes::Own { len, array } => Ok(Text {
                bytes: Bytes::Own {
                    len: *len,
                    array: *array,
                },
            }),
            Bytes::Shared { start, end, shared } => {
                let shared = shared.clone()?;
                Ok(Text {
                    bytes: Bytes::Shared {
                        start: *start,
                        end: *end,
                        shared,
                    },
                })
            }
        }
    }
}

// Takes so many bytes off the front of an array, and puts zeros behind the others. All is moved, however many bytes a text has:
// that is two moves of the processor into a wider array, and two back.
#[inline(always)]
fn shift_down(array: &mut [u8; FEW], count: usize)
    requires len { length array.old ≡ 22 }
    requires few { count ≤ 22 }
    ensures len { length array.new ≡ 22 }
    ensures bytes { (n : ℕ) → n ≤ 22 → take (n - count) array.new ≡ drop count (take n array.old) }
{
    let mut wide = [0u8; 2 * FEW];
    wide[..FEW].copy_from_slice(&array[..]);
    array.copy_from_slice(&wide[count..count + FEW]);
}

// Takes one of so many bytes and one more out, in front of an array.
#[inline(always)]
fn close_up(array: &mut [u8; FEW], place: usize, last: usize)
    requires len { length array.old ≡ 22 }
    requires within { place ≤ last }
    requires few { last < 22 }
    ensures len { length array.new ≡ 22 }
    ensures bytes { take last array.new ≡ take place array.old ++ slice_range array.old (place + 1) (last + 1) }
{
    for k in place..last {
        array[k] = array[k + 1];
    }
}

// Puts bytes behind many that nothing else shares, and others behind them, where memory is there.
#[inline(always)]
fn extend_shared(
    start: u32,
    end: &mut u32,
    shared: &mut Rc<Vec<u8>>,
    one: &[u8],
    two: &[u8],
) -> bool
    requires ordered { start ≤ end.old }
    requires within { end.old ≤ length shared.old.value.items }
    requires fits { length one.now + length two.now < 2 ^ 64 }
    ensures made { result ≡ true → slice_range shared.new.value.items start end.new
        ≡ (slice_range shared.old.value.items start end.old ++ one.now) ++ two.now }
    ensures kept { result ≡ false → slice_range shared.new.value.items start end.new
        ≡ slice_range shared.old.value.items start end.old }
    ensures ordered { start ≤ end.new }
    ensures within { end.new ≤ length shared.new.value.items }
{
    let old = *end as usize;
    let Ok(more) = u32::try_from(one.len() + two.len()) else {
        return false;
    };
    let Some(new) = end.checked_add(more) else {
        return false;
    };
    let Some(all) = Rc::get_mut(shared) else {
        return false;
    };
    all.truncate(old);
    let Ok(()) = all.extend_from_slice(one) else {
        return false;
    };
    let Ok(()) = all.extend_from_slice(two) else {
        all.truncate(old);
        return false;
    };
    *end = new;
    true
}

// Three rows of bytes in a text, with room for as many again.
fn lengthy(alloc: Global, left: &[u8], one: &[u8], two: &[u8]) -> Result<Text, StrFault>
    requires fits { length left.now + length one.now + length two.now < 2 ^ 64 }
    ensures ok { IfOk result (λ text. text ≡ (left.now ++ one.now) ++ two.now) }
{
    let len = left.len() + one.len() + two.len();
    let mut all = Vec::with_capacity(alloc, len.saturating_mul(2))?;
    all.extend_from_slice(left)?;
    all.extend_from_slice(one)?;
    all.extend_from_slice(two)?;
    Text::from_vec(all)
}

// Two texts in one.
fn joined(alloc: Global, left: &[u8], right: &[u8]) -> Result<Text, StrFault>
    requires { length left.now + length right.now < 2 ^ 64 }
    ensures ok { IfOk result (λ text. text ≡ left.now ++ right.now) }
    ensures err { IfErr result (λ fault. fault ≡ StrFault.Memory) }
{
    let mut all = Vec::with_capacity(alloc, left.len() + right.len())?;
    all.extend_from_slice(left)?;
    all.extend_from_slice(right)?;
    Text::from_vec(all)
}

// The bytes between two places, and then others; the vector is kept.
#[tactic(auto, using(crate::proofs::Lists::drop_part))]
fn lengthened(all: Vec<u8>, start: u32, end: u32, right: &[u8]) -> Result<Text, StrFault>
    requires ordered { start ≤ end }
    requires within { end ≤ length all.items }
    ensures ok { IfOk result (λ text. text ≡ slice_range all.items start end ++ right.now) }
    ensures err { IfErr result (λ fault. fault ≡ StrFault.Memory) }
{
    let mut all = all;
    all.truncate(end as usize);
    all.extend_from_slice(right)?;
    shared_from(start, all)
}

// The bytes from a place on. More than a place can count are refused as too many for memory.
#[tactic(auto, using(crate::proofs::Lists::slice_range_to_end))]
fn shared_from(start: u32, all: Vec<u8>) -> Result<Text, StrFault>
    requires { start ≤ length all.items }
    ensures ok { IfOk result (λ text. text ≡ drop start all.items) }
    ensures err { IfErr result (λ fault. fault ≡ StrFault.Memory) }
{
    let Ok(end) = u32::try_from(all.len()) else {
        return Err(StrFault::Memory);
    };
    let shared = Rc::new(*all.allocator(), all)?;
    Ok(Text {
        bytes: Bytes::Shared { start, end, shared },
    })
}

// What is added to each byte, modulo 256.
fn replacements(from: &[u8], to: &[u8]) -> [u8; 256]
    requires { length from.now ≡ length to.now }
    ensures len { length result ≡ 256 }
    ensures each { (b : ℕ) → b < 256 → (b + slice_index result b) % 256 ≡ replaced from.now to.now b }
{
    let mut table = [0u8; 256];
    for k in 0..from.len() {
        let byte = from[k];
        table[byte as usize] = to[k].wrapping_sub(byte);
    }
    table
}

// A text of a few bytes, in place of which others stand. Takes no memory.
fn replaced_few(old: &[u8], from: &[u8], to: &[u8]) -> Text
    requires few { length old.now ≤ 22 }
    requires each { length from.now ≡ length to.now }
    ensures { result ≡ map (replaced from.now to.now) old.now }
{
    let table = replacements(from, to);
    let mut array = [0; FEW];
    for k in 0..old.len() {
        let byte = old[k];
        array[k] = byte.wrapping_add(table[byte as usize]);
    }
    let len = old.len() as u8;
    Text {
        bytes: Bytes::Own { len, array },
    }
}

// A text of many bytes, in place of which others stand.
fn replaced_many(alloc: Global, old: &[u8], from: &[u8], to: &[u8]) -> Result<Text, StrFault>
    requires { length from.now ≡ length to.now }
    ensures ok { IfOk result (λ all. all ≡ map (replaced from.now to.now) old.now) }
    ensures err { IfErr result (λ fault. fault ≡ StrFault.Memory) }
{
    let table = replacements(from, to);
    let mut bytes = Vec::with_capacity(alloc, old.len())?;
    for byte in old {
        let byte = *byte;
        bytes.push(byte.wrapping_add(table[byte as usize]))?;
    }
    Text::from_vec(bytes)
}

impl Hash for Text {
    ghost use Rattle.std.specs.Prelude.{◌∷◌, []};
    ghost use Rattle.std.specs.Cmp.Lexicographic.{bytes_decides};
    ghost use Rattle.std.specs.Hash.{same_Alike};

    // All bytes in one write.
    ghost hash_input = { λ u. u ∷ [] };

    ghost respects_eq = { (same_Alike (λ u. u ∷ []) bytes_decides).fed };

    fn hash<H: Hasher>(&self, state: &mut H) {
        state.write(self.as_slice());
    }
}
