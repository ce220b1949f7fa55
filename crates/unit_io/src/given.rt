//! Files that are given for units.

ghost use Rattle.std.specs.Prelude.{◌≡◌, ◌∷◌, ◌++◌, [], ◌⊎◌, IfErr, IfOk, OnErr, OnOk};
ghost use Rattle.std.specs.Io.KnownBytes.{Appends, Keeps};
ghost use Rattle.unit_io.specs.Counts.{IfMemory};
ghost use Rattle.unit_io.specs.Sides.{exposed, kept_by, left_by, TakesFirst, written_by};
ghost use Rattle.unit_io.specs.Streams.{AppendsBeginning};

use crate::line_reader::LineReader;
use crate::line_writer::LineWriter;
use crate::system::UnitSystem;
use model::UnitFault;
use std::alloc::Global;
use std::io::{self, ErrorKind};
use std::marker::Model;
use strings::Text;

/// What a file was opened for at its first use.
#[derive(Drop)]
enum Side<I, O> {
    Unused,
    Input(I),
    Output(O),
}

/// A file that is given for a unit. It is opened at its first use, and created or emptied if that is a write; the other
/// use is then refused.
#[derive(Drop)]
pub struct GivenFile<'a, S: UnitSystem> {
    alloc: Global,
    system: &'a S,
    path: &'a str,
    side: Side<LineReader<S::Source>, LineWriter<S::Target>>,
}

impl<'a, S: UnitSystem> Model for GivenFile<'a, S> {
    ghost use Rattle.unit_io.specs.Views.{FileView, file_view};

    ghost Value = { FileView };

    ghost view = { λ g.
        file_view S.Source.remaining S.Target.contents
        (S.exposes g.system.now) (S.source_bytes g.system.now g.path.now) g.side };
}

// The fault for an error, which may be want of memory.
pub(crate) fn fault_of(error: &io::Error, fault: UnitFault) -> UnitFault
    ensures { (result ≡ fault) ⊎ (result ≡ UnitFault.Memory) }
{
    match error.kind() {
        ErrorKind::OutOfMemory => UnitFault::Memory,
        _ => fault,
    }
}

fn open_input<S: UnitSystem>(
    alloc: Global,
    system: &S,
    path: &str,
) -> Result<LineReader<S::Source>, UnitFault>
    ensures { IfOk result (λ reader. Keeps (exposed (S.exposes system.now) (S.source_bytes system.now path.now))
        (left_by S.Source.remaining reader)) }
{
    match system.open(path) {
        Ok(file) => Ok(LineReader::new(alloc, file)),
        Err(error) => Err(fault_of(&error, UnitFault::ReadFailed)),
    }
}

fn open_output<S: UnitSystem>(
    alloc: Global,
    system: &S,
    path: &str,
) -> Result<LineWriter<S::Target>, UnitFault>
    ensures { IfOk result (λ writer. Keeps (exposed (S.exposes system.now) [])
        (written_by S.Target.contents writer)) }
{
    let file = match system.create(path) {
        Ok(file) => file,
        Err(error) => return Err(fault_of(&error, UnitFault::WriteFailed)),
    };
    match LineWriter::new(alloc, file) {
        Ok(writer) => Ok(writer),
        Err(_) => Err(UnitFault::Memory),
    }
}

impl<'a, S: UnitSystem> GivenFile<'a, S> {
    /// A file that is not used yet.
    pub fn new(alloc: Global, system: &'a S, path: &'a str) -> GivenFile<'a, S>
        ensures { result ≡ record {
          left = exposed (S.exposes system.now) (S.source_bytes system.now path.now);
          written = exposed (S.exposes system.now) [];
          back = [];
        } }
    {
        GivenFile {
            alloc,
            system,
            path,
            side: Side::Unused,
        }
    }

    // Opens it for reading, unless it was used.
    fn use_as_input(&mut self) -> Result<(), UnitFault>
        ensures left { Keeps self.old.left self.new.left }
        ensures written { self.new.written ≡ self.old.written }
        ensures back { self.new.back ≡ self.old.back }
        ensures err { OnErr result (self.new ≡ self.old) }
    {
        if let Side::Unused = self.side {
            self.side = Side::Input(open_input(self.alloc, self.system, self.path)?);
        }
        Ok(())
    }

    // Creates or empties it, unless it was used.
    fn use_as_output(&mut self) -> Result<(), UnitFault>
        ensures left { self.new.left ≡ self.old.left }
        ensures written { Keeps self.old.written self.new.written }
        ensures err { OnErr result (self.new ≡ self.old) }
    {
        if let Side::Unused = self.side {
            self.side = Side::Output(open_output(self.alloc, self.system, self.path)?);
        }
        Ok(())
    }

    // Takes the first record that is left, if it was opened for reading.
    fn read_on(&mut self) -> Result<Option<Text>, UnitFault>
        ensures ok { IfOk result (λ got. TakesFirst got self.old.left self.new.left) }
        ensures err { OnErr result (Keeps self.old.left self.new.left) }
        ensures written { self.new.written ≡ self.old.written }
        ensures back { self.new.back ≡ self.old.back }
    {
        match &mut self.side {
            Side::Input(reader) => reader.next_record(),
            _ => Err(UnitFault::NotOpen),
        }
    }

    // Writes a record, if it was opened for writing.
    fn write_on(&mut self, bytes: &[u8]) -> Result<(), UnitFault>
        ensures ok { OnOk result (Appends self.old.written self.new.written (bytes.now ++ 10 ∷ [])) }
        ensures err { OnErr result
            (AppendsBeginning self.old.written self.new.written (bytes.now ++ 10 ∷ [])) }
        ensures memory { IfErr result (λ fault. IfMemory fault (self.new ≡ self.old)) }
        ensures left { self.new.left ≡ self.old.left }
    {
        match &mut self.side {
            Side::Output(writer) => writer.write_record(bytes),
            _ => Err(UnitFault::NotOpen),
        }
    }

    /// Takes the first record that is left; the file is opened at its first use.
    pub(crate) fn read_record(&mut self) -> Result<Option<Text>, UnitFault>
        ensures ok { IfOk result (λ got. TakesFirst got self.old.left self.new.left) }
        ensures err { OnErr result (Keeps self.old.left self.new.left) }
        ensures written { self.new.written ≡ self.old.written }
        ensures back { self.new.back ≡ self.old.back }
    {
        self.use_as_input()?;
        self.read_on()
    }

    /// Writes a record; the file is created or emptied at its first use. After a fault a prefix of it was written, and
    /// for want of memory nothing.
    pub(crate) fn write_record(&mut self, bytes: &[u8]) -> Result<(), UnitFault>
        ensures ok { OnOk result (Appends self.old.written self.new.written (bytes.now ++ 10 ∷ [])) }
        ensures err { OnErr result
            (AppendsBeginning self.old.written self.new.written (bytes.now ++ 10 ∷ [])) }
        ensures memory { IfErr result (λ fault. IfMemory fault (Keeps self.old.written self.new.written)) }
        ensures left { self.new.left ≡ self.old.left }
    {
        self.use_as_output()?;
        self.write_on(bytes)
    }

    /// Writes what was kept back.
    pub(crate) fn flush(&mut self) -> Result<(), UnitFault>
        ensures written { Keeps self.old.written self.new.written }
        ensures all { OnOk result (self.new.back ≡ []) }
        ensures left { self.new.left ≡ self.old.left }
        ensures fault { IfErr result (λ fault. fault ≡ UnitFault.WriteFailed) }
    {
        let Side::Output(writer) = &mut self.side else {
            return Ok(());
        };
        writer.flush()
    }
}
