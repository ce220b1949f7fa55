//! The bytes that were read and aren't returned yet.

ghost use Rattle.std.specs.Prelude.{◌≡◌, ◌+◌, ◌-◌, ◌≤◌, [], length, take, drop};
ghost use Rattle.std.specs.Prelude.{Ok, false, IfOk, IfErr, IfSome, ◌<◌, ◌^◌};
ghost use Rattle.std.specs.Io.KnownBytes.{Keeps, IsAtEnd, ReadConsumes};
ghost use Rattle.memchr.specs.Find.{IsFirstByte, is_byte};
ghost use Rattle.unit_io.specs.Streams.{Took, IsOfReader};

use crate::given::fault_of;
use memchr::memchr;
use model::UnitFault;
use std::alloc::{AllocError, Global};
use std::io::{self, ErrorKind, Read};
use std::marker::Model;
use strings::Text;

/// As many bytes are asked for by one read, at least.
const PIECE: usize = 16384;

/// As many are asked for by one read where the last gave all that was asked for.
const LARGE: usize = 65536;

/// The bytes that were read and aren't returned yet stand in `bytes` from `start` to `end`; none of them before
/// `searched` is a line feed. Behind `end` is room for the next read. `filled` says that the last read took all of it.
#[derive(Drop)]
pub(crate) struct Ahead {
    bytes: Vec<u8>,
    start: usize,
    searched: usize,
    end: usize,
    filled: bool,
}

impl Model for Ahead {
    ghost use Rattle.std.specs.Prelude.{List, ℕ, length, drop, take, ◌≤◌};
    ghost use Rattle.memchr.specs.Find.{Nowhere, Passes, is_byte};

    ghost Value = { List ℕ };

    ghost view = { λ a. drop a.start (take a.end a.bytes.items) };

    ghost invariant = { λ a.
        (a.start ≤ a.searched) × (a.searched ≤ a.end) × (a.end ≤ length a.bytes.items)
        × Nowhere (Passes (is_byte 10) (take a.end a.bytes.items)) a.start a.searched };
}

impl Ahead {
    /// No byte. Takes no memory.
    pub(crate) fn new(alloc: Global) -> Ahead
        ensures { result ≡ [] }
    {
        Ahead {
            bytes: Vec::new(alloc),
            start: 0,
            searched: 0,
            end: 0,
            filled: false,
        }
    }

    /// How many bytes there are.
    pub(crate) fn len(&self) -> usize
        ensures { result ≡ length self.now }
    {
        self.end - self.start
    }

    /// Where the first line feed stands. No byte is looked at twice.
    pub(crate) fn find_feed(&mut self) -> Option<usize>
        ensures kept { self.new ≡ self.old }
        ensures found { IsFirstByte (is_byte 10) self.old result }
        ensures fits { IfSome result (λ k. k + 1 < 2 ^ 64) }
    {
        let from = self.searched;
        let known = &self.bytes[..self.end];
        match memchr(b'\n', &known[from..]) {
            Some(k) => {
                self.searched = from + k;
                Some(from + k - self.start)
            }
            None => {
                self.searched = self.end;
                None
            }
        }
    }

    /// The first bytes, up to `end`. Those before `next` are returned with them.
    pub(crate) fn take(&mut self, alloc: Global, end: usize, next: usize) -> Result<Text, UnitFault>
        requires ordered { end ≤ next }
        requires within { next ≤ length self.old }
        ensures ok { IfOk result (λ text.
            (text ≡ take end self.old) × (self.new ≡ drop next self.old)) }
        ensures err { IfErr result (λ fault. (fault ≡ UnitFault.Memory) × (self.new ≡ self.old)) }
    {
        let start = self.start;
        let Ok(text) = Text::from_slice(alloc, &self.bytes[start..start + end]) else {
            return Err(UnitFault::Memory);
        };
        self.start = start + next;
        self.searched = start + next;
        Ok(text)
    }

    // Moves the bytes to the front where at least as many were returned. So no more bytes are moved than are returned.
    fn move_to_front(&mut self)
        ensures { self.new ≡ self.old }
    {
        let start = self.start;
        if start >= self.end - start {
            shift(&mut self.bytes, start, self.end);
            self.searched -= start;
            self.end -= start;
            self.start = 0;
        }
    }

    // Room for a piece behind the bytes, a larger one where the last read filled its own.
    fn make_room(&mut self) -> Result<(), AllocError>
        ensures { self.new ≡ self.old }
    {
        self.move_to_front();
        let piece = if self.filled { LARGE } else { PIECE };
        if self.bytes.len() - self.end < piece / 2 {
            self.bytes.resize(self.end + piece, 0)?;
        }
        Ok(())
    }

    /// Reads once. It's false at the end; a read that was interrupted gives no byte.
    pub(crate) fn read<R: Read>(&mut self, source: &mut R) -> Result<bool, UnitFault>
        ensures more { IfOk result (λ more.
            Took (R.remaining source.old) (R.remaining source.new) self.old self.new) }
        ensures end { result ≡ Ok false → (self.new ≡ self.old) × IsAtEnd (R.remaining source.new) }
        ensures err { IfErr result (λ fault.
            IsOfReader fault × Keeps (R.remaining source.old) (R.remaining source.new)
            × (self.new ≡ self.old)) }
    {
        self.make_room()?;
        let end = self.end;
        if end >= self.bytes.len() {
            return Err(UnitFault::Memory);
        }
        match read_behind(&mut self.bytes, end, source) {
            Ok(0) => Ok(false),
            Ok(n) => {
                self.end = end + n;
                self.filled = self.end == self.bytes.len();
                Ok(true)
            }
            Err(error) => {
                if error.kind() == ErrorKind::Interrupted {
                    return Ok(true);
                }
                Err(fault_of(&error, UnitFault::ReadFailed))
            }
        }
    }
}

// Moves some bytes to the front.
fn shift(bytes: &mut Vec<u8>, start: usize, end: usize)
    requires start { start ≤ end }
    requires end { end ≤ length bytes.old.items }
    ensures moved { take (end - start) bytes.new.items ≡ drop start (take end bytes.old.items) }
    ensures len { length bytes.new.items ≡ length bytes.old.items }
{
    bytes.as_mut_slice().copy_within(start..end, 0);
}

// Reads once, to the room behind so many bytes.
fn read_behind<R: Read>(bytes: &mut Vec<u8>, end: usize, source: &mut R) -> io::Result<usize>
    requires { end ≤ length bytes.old.items }
    ensures kept { take end bytes.new.items ≡ take end bytes.old.items }
    ensures read { ReadConsumes (R.remaining source.old) (R.remaining source.new) result
        (drop end bytes.new.items) }
    ensures within { IfOk result (λ n. end + n ≤ length bytes.new.items) }
    ensures len { length bytes.new.items ≡ length bytes.old.items }
{
    source.read(&mut bytes.as_mut_slice()[end..])
}
