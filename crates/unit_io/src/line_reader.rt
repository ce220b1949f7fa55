//! Records from what can be read.

ghost use Rattle.std.specs.Prelude.{◌≡◌, ◌↔◌, IsTrue, IfOk, OnErr, ◌+◌, ◌^◌, ◌<◌, []};
ghost use Rattle.std.specs.Io.KnownBytes.{IsAtEnd, Keeps};
ghost use Rattle.memchr.specs.Find.{IsFirstByte, is_byte};
ghost use Rattle.unit_io.specs.Sides.{left_by, TakesFirst};
ghost use Rattle.unit_io.specs.Streams.{HasNoFeed, Tells, TellsNext};

use crate::ahead::Ahead;
use model::UnitFault;
use std::alloc::Global;
use std::io::Read;
use strings::Text;

/// Tells the records of what it reads, in pieces: in memory that the longest record asks for, and in time that the
/// number of bytes asks for.
#[derive(Drop)]
pub struct LineReader<R> {
    alloc: Global,
    source: R,
    held: Ahead,
}

impl<R: Read> LineReader<R> {
    /// Nothing is read yet. Takes no memory.
    pub fn new(alloc: Global, source: R) -> LineReader<R>
        ensures source { result.source ≡ source }
        ensures held { result.held ≡ [] }
    {
        LineReader {
            alloc,
            source,
            held: Ahead::new(alloc),
        }
    }

    /// Returns the next record, without its line feed; `None` at the end. After a fault nothing is returned and nothing
    /// is lost, and the next call goes on.
    pub fn next_record(&mut self) -> Result<Option<Text>, UnitFault>
        ensures told { TellsNext result (R.remaining self.old.source)
            (R.remaining self.new.source) self.old.held self.new.held }
        // The same in one word: it is the first record of the bytes that are left, those that are held included.
        ensures first { IfOk result (λ got.
            TakesFirst got (left_by R.remaining self.old) (left_by R.remaining self.new)) }
        ensures err { OnErr result
            (Keeps (left_by R.remaining self.old) (left_by R.remaining self.new)) }
    {
        self.tell_next()
    }

    // Tells the next record.
    fn tell_next(&mut self) -> Result<Option<Text>, UnitFault>
        ensures { TellsNext result (R.remaining self.old.source)
            (R.remaining self.new.source) self.old.held self.new.held }
    {
        // The bound is there so that each call returns, also where each read is interrupted.
        'turns: for _ in 0..u64::MAX {
            if let Some(k) = self.held.find_feed() {
                return self.take_line(k);
            }
            if !self.held.read(&mut self.source)? {
                return self.take_last();
            }
        }
        Err(UnitFault::ReadFailed)
    }

    /// Whether a record and its line feed are held, so that telling it reads nothing.
    pub fn is_ready(&mut self) -> bool
        ensures held { self.new.held ≡ self.old.held }
        ensures source { self.new.source ≡ self.old.source }
        ensures ready { IsTrue result ↔ ¬ HasNoFeed self.old.held }
    {
        self.held.find_feed().is_some()
    }

    // Tells the bytes up to the first line feed.
    fn take_line(&mut self, k: usize) -> Result<Option<Text>, UnitFault>
        requires found { IsFirstByte (is_byte 10) self.old.held (Some k) }
        requires fits { k + 1 < 2 ^ 64 }
        ensures told { Tells result self.old.held self.new.held (R.remaining self.old.source) }
        ensures kept { self.new.source ≡ self.old.source }
    {
        Ok(Some(self.held.take(self.alloc, k, k + 1)?))
    }

    // Tells the last bytes, at the end.
    fn take_last(&mut self) -> Result<Option<Text>, UnitFault>
        requires whole { HasNoFeed self.old.held }
        requires end { IsAtEnd (R.remaining self.old.source) }
        ensures told { Tells result self.old.held self.new.held (R.remaining self.old.source) }
        ensures kept { self.new.source ≡ self.old.source }
    {
        let n = self.held.len();
        if n == 0 {
            return Ok(None);
        }
        Ok(Some(self.held.take(self.alloc, n, n)?))
    }
}
