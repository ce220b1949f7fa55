//! Records that are longer than any string may be.

ghost use Rattle.std.specs.Prelude.{◌<◌, ◌≤◌, length, IfOk, IfSome};
ghost use Rattle.std.specs.Io.{ReadsAtMost};

use memchr::memrchr;
use std::io::{self, ErrorKind, Read};

/// The most bytes of a record that `&MAXLNGTH` can allow.
const LONGEST: usize = 16_777_216;

/// Where reading stands in a record.
#[derive(Clone, Copy, Drop)]
enum Place {
    /// So many bytes of the record were given, at most `LONGEST`.
    Within(usize),
    /// `LONGEST` bytes and a blank were given, and only blanks came since.
    Blanks,
    /// A byte that is no blank came after `LONGEST` bytes.
    Over,
}

/// What can be read, with long records cut: behind `LONGEST` bytes of a record blanks are given as one blank, and
/// another byte is the last that is given. So a record is over `&MAXLNGTH` exactly where it was before it was cut, with
/// and without its trailing blanks, and no more of it need be held.
#[derive(Drop)]
pub struct CutRecords<T: Drop> {
    source: T,
    place: Place,
}

// Where reading stands behind so many bytes of a record and those that were given now.
fn behind(length: usize, given: &[u8]) -> Place {
    let length = match memrchr(b'\n', given) {
        Some(k) => given.len() - k - 1,
        None => length.saturating_add(given.len()),
    };
    if length <= LONGEST {
        return Place::Within(length);
    }
    match given.last() {
        Some(b' ') => Place::Blanks,
        _ => Place::Over,
    }
}

// Where the first byte that is no blank stands.
fn first_other(bytes: &[u8]) -> Option<usize>
    ensures { IfSome result (λ k. k < length bytes.now) }
{
    bytes.iter().position(|byte| *byte != b' ')
}

impl<T: Drop> CutRecords<T> {
    /// Nothing is read yet.
    pub fn new(source: T) -> CutRecords<T> {
        CutRecords {
            source,
            place: Place::Within(0),
        }
    }
}

impl<R: Read + Drop> CutRecords<R> {
    // Reads where the record may go on with any byte.
    fn read_within(&mut self, length: usize, buf: &mut [u8]) -> io::Result<usize>
        ensures { ReadsAtMost result buf.new }
    {
        let most = buf.len().min(LONGEST.saturating_sub(length) + 1);
        let n = self.source.read(&mut buf[..most])?;
        self.place = behind(length, &buf[..n]);
        Ok(n)
    }

    // Reads once behind the blank that stands for all that follow; `None` where there were only blanks.
    fn read_past_blanks(&mut self, buf: &mut [u8]) -> io::Result<Option<usize>>
        ensures { IfOk result (λ got. IfSome got (λ n. n ≤ length buf.new)) }
    {
        let most = buf.len().min(LONGEST);
        let n = self.source.read(&mut buf[..most])?;
        let Some(k) = first_other(&buf[..n]) else {
            return Ok(if n == 0 { Some(0) } else { None });
        };
        if buf[k] == b'\n' {
            buf.copy_within(k..n, 0);
            self.place = behind(0, &buf[..n - k]);
            return Ok(Some(n - k));
        }
        buf[0] = buf[k];
        self.place = Place::Over;
        Ok(Some(1))
    }

    fn read_blanks(&mut self, buf: &mut [u8]) -> io::Result<usize>
        ensures { ReadsAtMost result buf.new }
    {
        if buf.is_empty() {
            return Ok(0);
        }
        // The bound is there so that each call returns.
        for _ in 0..u64::MAX {
            if let Some(n) = self.read_past_blanks(buf)? {
                return Ok(n);
            }
        }
        Err(io::Error::from(ErrorKind::TimedOut))
    }
}

impl<R: Read + Drop> Read for CutRecords<R> {
    fn read(&mut self, buf: &mut [u8]) -> io::Result<usize> {
        match self.place {
            Place::Within(length) => self.read_within(length, buf),
            Place::Blanks => self.read_blanks(buf),
            Place::Over => Ok(0),
        }
    }
}
