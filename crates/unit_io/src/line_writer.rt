//! Records to what can be written.

ghost use Rattle.std.specs.Prelude.{◌≡◌, ◌∷◌, ◌++◌, [], IfOk, OnOk, OnErr, IfErr, false, true};
ghost use Rattle.std.specs.Io.Buffered.{writer_inner};
ghost use Rattle.std.specs.Io.KnownBytes.{Appends, Keeps};
ghost use Rattle.unit_io.specs.Sides.{kept_by, written_by};
ghost use Rattle.unit_io.specs.Streams.{AppendsBeginning};

use model::UnitFault;
use std::alloc::Global;
use std::io::{self, BufWriter, ErrorKind, Write};

/// Writes records, and a line feed after each. What is written is kept back until there is much of it, and until `flush`.
/// After a flush that failed it takes no more records, so that each failure is reported.
#[derive(Drop)]
pub struct LineWriter<W: Write + Drop> {
    target: BufWriter<W>,
    refused: bool,
}

impl<W: Write + Drop> LineWriter<W> {
    /// Nothing is written yet. Fails only for want of memory.
    pub fn new(alloc: Global, target: W) -> io::Result<LineWriter<W>>
        ensures target { IfOk result (λ writer. writer_inner writer.target ≡ target) }
        ensures empty { IfOk result (λ writer. kept_by writer ≡ []) }
        ensures sound { IfOk result (λ writer. writer.refused ≡ false) }
    {
        let target = BufWriter::new(alloc, target)?;
        Ok(LineWriter {
            target,
            refused: false,
        })
    }

    /// Writes a record, and a line feed after it. After a fault a prefix of them was written.
    pub fn write_record(&mut self, bytes: &[u8]) -> Result<(), UnitFault>
        ensures ok { OnOk result
            (Appends (written_by W.contents self.old) (written_by W.contents self.new)
            (bytes.now ++ 10 ∷ [])) }
        ensures err { OnErr result
            (AppendsBeginning (written_by W.contents self.old) (written_by W.contents self.new)
            (bytes.now ++ 10 ∷ [])) }
        ensures fault { IfErr result (λ fault. fault ≡ UnitFault.WriteFailed) }
        // No flush failed before.
        ensures sound { OnOk result (self.old.refused ≡ false) }
        ensures refused { self.new.refused ≡ self.old.refused }
    {
        if self.refused {
            return Err(UnitFault::WriteFailed);
        }
        match write_whole(&mut self.target, bytes) {
            Ok(()) => write_whole(&mut self.target, b"\n"),
            Err(fault) => Err(fault),
        }
    }

    /// Has what was kept back written. After a fault some of it is kept back still, and nothing is lost; each later call is
    /// refused too.
    pub fn flush(&mut self) -> Result<(), UnitFault>
        ensures bytes { Keeps (written_by W.contents self.old) (written_by W.contents self.new) }
        ensures all { OnOk result (kept_by self.new ≡ []) }
        ensures fault { IfErr result (λ fault. fault ≡ UnitFault.WriteFailed) }
        ensures sound { OnOk result ((self.old.refused ≡ false) × (self.new.refused ≡ false)) }
        ensures refused { OnErr result (self.new.refused ≡ true) }
    {
        let written = self.target.flush();
        if self.refused || written.is_err() {
            self.refused = true;
            return Err(UnitFault::WriteFailed);
        }
        Ok(())
    }
}

// Writes bytes until none is left.
fn write_whole<W: Write>(target: &mut W, bytes: &[u8]) -> Result<(), UnitFault>
    ensures ok { OnOk result (Appends (W.contents target.old) (W.contents target.new) bytes.now) }
    ensures err { OnErr result
        (AppendsBeginning (W.contents target.old) (W.contents target.new) bytes.now) }
    ensures fault { IfErr result (λ fault. fault ≡ UnitFault.WriteFailed) }
{
    let mut at = 0;
    // The bound is there so that each call returns, also where each write is interrupted.
    'turns: for _ in 0..u64::MAX {
        if at >= bytes.len() {
            return Ok(());
        }
        match target.write(&bytes[at..]) {
            Ok(0) => return Err(UnitFault::WriteFailed),
            Ok(n) => at += n,
            Err(error) => {
                if error.kind() != ErrorKind::Interrupted {
                    return Err(UnitFault::WriteFailed);
                }
            }
        }
    }
    Err(UnitFault::WriteFailed)
}
