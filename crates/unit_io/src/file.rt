//! Units on standard input, standard output and files.

ghost use Rattle.std.specs.Prelude.{◌≡◌, ◌≢◌, ◌≤◌, ◌<◌, ◌∷◌, ◌++◌, [], ℕ, List, Option, Some, None, length};
ghost use Rattle.std.specs.Prelude.{IfOk, IfErr, OnErr, OnOk, IsTrue, false, replicate};
ghost use Rattle.std.specs.Io.KnownBytes.{Appends, Keeps};
ghost use Rattle.model.specs.Language.Units.{IsCounted, Reads, Writes};
ghost use Rattle.unit_io.specs.Counts.{failures_at, Same, SameBut, IfMemory, IfNoneFailed};
ghost use Rattle.unit_io.specs.Files.{back_of, back_on, file_on, left_on, standard, written_on};
ghost use Rattle.unit_io.specs.Sides.{exposed, IsHandedOn, kept_by, left_by, TakesFirst, written_by};
ghost use Rattle.unit_io.specs.Streams.{AppendsBeginning, HasNoFeed};
ghost use Rattle.unit_io.specs.Ways.{any_may_fail, FailsNoMore, Reading, Writing};

use crate::counts::Counts;
use crate::given::GivenFile;
use crate::history::History;
use crate::line_reader::LineReader;
use crate::line_writer::LineWriter;
use crate::system::UnitSystem;
use crate::units::Units;
use model::UnitFault;
use std::alloc::{AllocError, Global};
use std::io::{self, Read, Write};
use std::marker::Model;
use strings::Text;

/// Unit 5 is standard input, and unit 6 is standard output, unless files are given for them. Other units are open where
/// files are given for them. Input is read in pieces, as its records are asked for. What is written is kept back until
/// `flush` at the latest, and for standard output until standard input is read. A unit whose write failed takes no more.
pub struct FileUnits<'a, S: UnitSystem> {
    alloc: Global,
    system: &'a S,
    input: LineReader<S::Input>,
    output: LineWriter<S::Output>,
    given: Vec<Option<GivenFile<'a, S>>>,
    counts: Counts,
    history: History,
}

impl<'a, S: UnitSystem> Model for FileUnits<'a, S> {
    ghost use Rattle.unit_io.specs.Files.{FilesView, IsKept};
    ghost use Rattle.unit_io.specs.Sides.{kept_by, left_by, written_by};

    ghost Value = { FilesView S };

    ghost view = { λ f. record {
      system = f.system.now;
      input = left_by S.Input.remaining f.input;
      held = f.input.held;
      output = written_by S.Output.contents f.output;
      back = kept_by f.output;
      refused = f.output.refused;
      given = f.given.items;
      counts = f.counts;
      records = f.history.records;
    } };

    ghost invariant = { λ f.
        IsKept S.exposes (record {
          system = f.system.now;
          input = left_by S.Input.remaining f.input;
          held = f.input.held;
          output = written_by S.Output.contents f.output;
          back = kept_by f.output;
          refused = f.output.refused;
          given = f.given.items;
          counts = f.counts;
          records = f.history.records;
        }) };
}

impl<S: UnitSystem> Drop for FileUnits<'_, S> {
    fn drop(self) {
        let FileUnits {
            alloc: _,
            system: _,
            input: _,
            output: _,
            given: _,
            counts: _,
            history: _,
        } = self;
    }
}

impl<'a, S: UnitSystem> FileUnits<'a, S> {
    ghost use Rattle.unit_io.specs.Files.{IsKept, told_of};

    /// The units of a program that runs on this system. No file is given.
    pub fn new(alloc: Global, system: &'a S) -> io::Result<FileUnits<'a, S>>
        ensures system { IfOk result (λ units. units.system ≡ system.now) }
        ensures input { IfOk result (λ units.
            Keeps (exposed (S.exposes system.now) (S.input_bytes system.now)) units.input) }
        ensures sound { IfOk result (λ units. units.refused ≡ false) }
        ensures given { IfOk result (λ units. units.given ≡ []) }
        ensures counts { IfOk result (λ units. units.counts ≡ replicate 256 0) }
        ensures records { IfOk result (λ units. units.records ≡ []) }
    {
        Ok(FileUnits {
            alloc,
            system,
            input: LineReader::new(alloc, system.input()),
            output: LineWriter::new(alloc, system.output())?,
            given: Vec::new(alloc),
            counts: Counts::new(),
            history: History::new(),
        })
    }

    /// Gives a file for a unit, in the place of one that was given before. It is opened at its first use, and created or
    /// emptied if that is a write; the other use is then refused.
    pub fn give(&mut self, unit: u8, path: &'a str) -> Result<(), AllocError>
        requires { self.old.records ≡ [] }
        ensures given { OnOk result (file_on unit self.new.given ≡ Some (record {
          left = exposed (S.exposes self.old.system) (S.source_bytes self.old.system path.now);
          written = exposed (S.exposes self.old.system) [];
          back = [];
        })) }
        ensures others { (u : ℕ) → u ≢ unit → file_on u self.new.given ≡ file_on u self.old.given }
        ensures err { OnErr result (file_on unit self.new.given ≡ file_on unit self.old.given) }
        ensures system { self.new.system ≡ self.old.system }
        ensures input { self.new.input ≡ self.old.input }
        ensures refused { self.new.refused ≡ self.old.refused }
        ensures counts { self.new.counts ≡ self.old.counts }
        ensures records { self.new.records ≡ [] }
    {
        let file = GivenFile::new(self.alloc, self.system, path);
        place_file(&mut self.given, unit as usize, file)
    }

    /// Writes what was kept back, or reports the unit that could not be written, the first of them.
    pub fn flush(&mut self) -> Result<(), u8>
        // Nothing is kept back, and nothing of standard output was refused before.
        ensures all { OnOk result ((unit : ℕ) → back_on unit self.new.given self.new.back ≡ []) }
        ensures sound { OnOk result ((self.old.refused ≡ false) × (self.new.refused ≡ false)) }
        // On a system that exposes the bytes, those that were written to each unit are those of its records.
        ensures kept { IsKept S.exposes self.new }
        ensures told { told_of S.exposes self.new ≡ told_of S.exposes self.old }
        ensures counted { IfErr result (λ unit.
            IsCounted UnitFault.WriteFailed (failures_at self.old.counts unit)
            (failures_at self.new.counts unit)) }
        ensures grows { (u : ℕ) → failures_at self.old.counts u ≤ failures_at self.new.counts u }
        ensures others { IfErr result (λ unit.
            SameBut unit (failures_at self.old.counts) (failures_at self.new.counts)) }
        ensures same { OnOk result (self.new.counts ≡ self.old.counts) }
    {
        let output = self.output.flush();
        let files = flush_all(&mut self.given);
        let failed = match (output, files) {
            (Err(_), _) => Some(6),
            (Ok(()), failed) => failed,
        };
        match failed {
            None => Ok(()),
            Some(unit) => {
                self.counts.add(unit);
                Err(unit)
            }
        }
    }
}

impl<S: UnitSystem> Units for FileUnits<'_, S> {
    ghost use Rattle.unit_io.specs.Counts.{failures_at};
    ghost use Rattle.unit_io.specs.Files.{told_of};
    ghost use Rattle.unit_io.specs.Ways.{any_may_fail};

    ghost told = { told_of S.exposes };

    ghost failures = { λ units. failures_at units.counts };

    ghost may_fail = { λ units. any_may_fail };

    fn read_record(&mut self, unit: u8) -> Result<Option<Text>, UnitFault>
        ensures ok { IfOk result (λ got.
            Reads unit got (told_of S.exposes self.old) (told_of S.exposes self.new)) }
        ensures err { OnErr result (told_of S.exposes self.new ≡ told_of S.exposes self.old) }
        ensures counted { IfErr result (λ fault. IsCounted fault
            (failures_at self.old.counts unit) (failures_at self.new.counts unit)) }
        ensures grows { (u : ℕ) → failures_at self.old.counts u ≤ failures_at self.new.counts u }
        ensures kept { IfNoneFailed result
            (Same (failures_at self.old.counts) (failures_at self.new.counts)) }
        ensures others { SameBut unit (failures_at self.old.counts) (failures_at self.new.counts) }
        ensures may { IfErr result (λ fault.
            fault ≢ UnitFault.Memory → IsTrue (any_may_fail Reading unit)) }
        ensures no_more { FailsNoMore any_may_fail any_may_fail }
        // Where more of standard input has to be read from the system's stream, all that was printed was written to the
        // system's, or the system refused it.
        ensures handed_on { unit ≡ 5 → file_on unit self.old.given ≡ None → HasNoFeed self.old.held
            → IsHandedOn self.new.back self.new.refused }
    {
        match take(&mut self.input, &mut self.output, &mut self.given, unit) {
            Ok(got) => Ok(got),
            Err(fault) => {
                count(&mut self.counts, unit, fault);
                Err(fault)
            }
        }
    }

    fn write_record(&mut self, unit: u8, bytes: &[u8]) -> Result<(), UnitFault>
        ensures ok { OnOk result
            (Writes unit bytes.now (told_of S.exposes self.old) (told_of S.exposes self.new)) }
        ensures err { OnErr result (told_of S.exposes self.new ≡ told_of S.exposes self.old) }
        ensures counted { IfErr result (λ fault. IsCounted fault
            (failures_at self.old.counts unit) (failures_at self.new.counts unit)) }
        ensures grows { (u : ℕ) → failures_at self.old.counts u ≤ failures_at self.new.counts u }
        ensures kept { IfNoneFailed result
            (Same (failures_at self.old.counts) (failures_at self.new.counts)) }
        ensures others { SameBut unit (failures_at self.old.counts) (failures_at self.new.counts) }
        ensures may { IfErr result (λ fault.
            fault ≢ UnitFault.Memory → IsTrue (any_may_fail Writing unit)) }
        ensures no_more { FailsNoMore any_may_fail any_may_fail }
        // Once the system refused something of standard output, that takes no more.
        ensures sound { OnOk result (unit ≡ 6 → file_on unit self.old.given ≡ None
            → self.old.refused ≡ false) }
    {
        let failures = self.counts.get(unit);
        if failures > 0 {
            self.counts.add(unit);
            return Err(UnitFault::WriteFailed);
        }
        match put(&mut self.output, &mut self.given, unit, bytes) {
            Ok(()) => {
                self.history.note(unit, bytes);
                Ok(())
            }
            Err(fault) => {
                count(&mut self.counts, unit, fault);
                Err(fault)
            }
        }
    }
}

// Counts a fault of a unit, unless it is want of memory.
fn count(counts: &mut Counts, unit: u8, fault: UnitFault)
    ensures counted { IsCounted fault (failures_at counts.old unit) (failures_at counts.new unit) }
    ensures grows { (u : ℕ) → failures_at counts.old u ≤ failures_at counts.new u }
    ensures kept { IfMemory fault (Same (failures_at counts.old) (failures_at counts.new)) }
    ensures others { SameBut unit (failures_at counts.old) (failures_at counts.new) }
{
    if fault != UnitFault::Memory {
        counts.add(unit);
    }
}

// Room for a file of this unit.
fn make_room<S: UnitSystem>(
    given: &mut Vec<Option<GivenFile<'_, S>>>,
    unit: usize,
) -> Result<(), AllocError>
    ensures same { (u : ℕ) → file_on u given.new.items ≡ file_on u given.old.items }
    ensures room { OnOk result (unit < length given.new.items) }
{
    'room: while given.len() <= unit {
        given.push(None)?;
    }
    Ok(())
}

// Has this file given for a unit.
fn place_file<'a, S: UnitSystem>(
    given: &mut Vec<Option<GivenFile<'a, S>>>,
    unit: usize,
    file: GivenFile<'a, S>,
) -> Result<(), AllocError>
    ensures given { OnOk result (file_on unit given.new.items ≡ Some file.entry) }
    ensures others { (u : ℕ) → u ≢ unit → file_on u given.new.items ≡ file_on u given.old.items }
    ensures err { OnErr result (file_on unit given.new.items ≡ file_on unit given.old.items) }
{
    make_room(given, unit)?;
    given[unit] = Some(file);
    Ok(())
}

// Writes what was printed, unless a whole record of standard input is held.
fn hand_on<R: Read, W: Write + Drop>(input: &mut LineReader<R>, output: &mut LineWriter<W>)
    ensures held { input.new.held ≡ input.old.held }
    ensures source { input.new.source ≡ input.old.source }
    ensures handed_on { HasNoFeed input.old.held → IsHandedOn (kept_by output.new) output.new.refused }
    ensures written { Keeps (written_by W.contents output.old) (written_by W.contents output.new) }
{
    if !input.is_ready() {
        // The next write reports a failure.
        let _ = output.flush();
    }
}

// The next record of standard input. No more of the system's stream is read until what was printed was written.
fn next_input<R: Read, W: Write + Drop>(
    input: &mut LineReader<R>,
    output: &LineWriter<W>,
) -> Result<Option<Text>, UnitFault>
    requires { HasNoFeed input.old.held → IsHandedOn (kept_by output.now) output.now.refused }
    ensures ok { IfOk result (λ got.
        TakesFirst got (left_by R.remaining input.old) (left_by R.remaining input.new)) }
    ensures err { OnErr result
        (Keeps (left_by R.remaining input.old) (left_by R.remaining input.new)) }
{
    let _ = output;
    input.next_record()
}

// The first record that is left on a unit for which no file is given.
fn take_standard<R: Read, W: Write + Drop>(
    input: &mut LineReader<R>,
    output: &mut LineWriter<W>,
    unit: u8,
) -> Result<Option<Text>, UnitFault>
    ensures ok { IfOk result (λ got. TakesFirst got
        (standard 5 (left_by R.remaining input.old) (Some []) unit)
        (standard 5 (left_by R.remaining input.new) (Some []) unit)) }
    ensures err { OnErr result (Keeps
        (standard 5 (left_by R.remaining input.old) (Some []) unit)
        (standard 5 (left_by R.remaining input.new) (Some []) unit)) }
    ensures others { (u : ℕ) → u ≢ unit
        → standard 5 (left_by R.remaining input.new) (Some []) u
        ≡ standard 5 (left_by R.remaining input.old) (Some []) u }
    ensures written { Keeps (written_by W.contents output.old) (written_by W.contents output.new) }
    ensures handed_on { unit ≡ 5 → HasNoFeed input.old.held
        → IsHandedOn (kept_by output.new) output.new.refused }
{
    if unit != 5 {
        return Err(UnitFault::NotOpen);
    }
    hand_on(input, output);
    next_input(input, output)
}

// The first record that is left on a unit.
fn take<S: UnitSystem>(
    input: &mut LineReader<S::Input>,
    output: &mut LineWriter<S::Output>,
    given: &mut Vec<Option<GivenFile<'_, S>>>,
    unit: u8,
) -> Result<Option<Text>, UnitFault>
    ensures ok { IfOk result (λ got. TakesFirst got
        (left_on unit given.old.items (left_by S.Input.remaining input.old))
        (left_on unit given.new.items (left_by S.Input.remaining input.new))) }
    ensures err { OnErr result (Keeps
        (left_on unit given.old.items (left_by S.Input.remaining input.old))
        (left_on unit given.new.items (left_by S.Input.remaining input.new))) }
    ensures others { (u : ℕ) → u ≢ unit
        → left_on u given.new.items (left_by S.Input.remaining input.new)
        ≡ left_on u given.old.items (left_by S.Input.remaining input.old) }
    ensures written { (u : ℕ) → Keeps
        (written_on u given.old.items (written_by S.Output.contents output.old))
        (written_on u given.new.items (written_by S.Output.contents output.new)) }
    ensures handed_on { unit ≡ 5 → file_on unit given.old.items ≡ None → HasNoFeed input.old.held
        → IsHandedOn (kept_by output.new) output.new.refused }
{
    let k = unit as usize;
    if k < given.len() {
        if let Some(file) = &mut given[k] {
            return file.read_record();
        }
    }
    take_standard(input, output, unit)
}

// Writes a record to a unit for which no file is given.
fn put_standard<W: Write + Drop>(
    output: &mut LineWriter<W>,
    unit: u8,
    bytes: &[u8],
) -> Result<(), UnitFault>
    ensures ok { OnOk result (Appends
        (standard 6 (written_by W.contents output.old) (Some []) unit)
        (standard 6 (written_by W.contents output.new) (Some []) unit)
        (bytes.now ++ 10 ∷ [])) }
    ensures err { OnErr result (AppendsBeginning
        (standard 6 (written_by W.contents output.old) (Some []) unit)
        (standard 6 (written_by W.contents output.new) (Some []) unit)
        (bytes.now ++ 10 ∷ [])) }
    ensures memory { IfErr result (λ fault. IfMemory fault (Keeps
        (standard 6 (written_by W.contents output.old) (Some []) unit)
        (standard 6 (written_by W.contents output.new) (Some []) unit))) }
    ensures others { (u : ℕ) → u ≢ unit
        → standard 6 (written_by W.contents output.new) (Some []) u
        ≡ standard 6 (written_by W.contents output.old) (Some []) u }
    ensures sound { OnOk result (output.old.refused ≡ false) }
{
    if unit != 6 {
        return Err(UnitFault::NotOpen);
    }
    output.write_record(bytes)
}

// Writes a record to a unit.
fn put<S: UnitSystem>(
    output: &mut LineWriter<S::Output>,
    given: &mut Vec<Option<GivenFile<'_, S>>>,
    unit: u8,
    bytes: &[u8],
) -> Result<(), UnitFault>
    ensures ok { OnOk result (Appends
        (written_on unit given.old.items (written_by S.Output.contents output.old))
        (written_on unit given.new.items (written_by S.Output.contents output.new))
        (bytes.now ++ 10 ∷ [])) }
    ensures err { OnErr result (AppendsBeginning
        (written_on unit given.old.items (written_by S.Output.contents output.old))
        (written_on unit given.new.items (written_by S.Output.contents output.new))
        (bytes.now ++ 10 ∷ [])) }
    ensures memory { IfErr result (λ fault. IfMemory fault (Keeps
        (written_on unit given.old.items (written_by S.Output.contents output.old))
        (written_on unit given.new.items (written_by S.Output.contents output.new)))) }
    ensures others { (u : ℕ) → u ≢ unit
        → written_on u given.new.items (written_by S.Output.contents output.new)
        ≡ written_on u given.old.items (written_by S.Output.contents output.old) }
    ensures left { (u : ℕ) (input : Option (List ℕ))
        → left_on u given.new.items input ≡ left_on u given.old.items input }
    ensures sound { OnOk result (unit ≡ 6 → file_on unit given.old.items ≡ None
        → output.old.refused ≡ false) }
{
    let k = unit as usize;
    if k < given.len() {
        if let Some(file) = &mut given[k] {
            return file.write_record(bytes);
        }
    }
    put_standard(output, unit, bytes)
}

// Writes what the file of a unit keeps back.
fn flush_at<S: UnitSystem>(
    given: &mut Vec<Option<GivenFile<'_, S>>>,
    k: usize,
) -> Result<(), UnitFault>
    requires { k < length given.old.items }
    ensures all { OnOk result (back_of (file_on k given.new.items) [] ≡ []) }
    ensures others { (u : ℕ) → u ≢ k → file_on u given.new.items ≡ file_on u given.old.items }
    ensures left { (u : ℕ) (input : Option (List ℕ))
        → left_on u given.new.items input ≡ left_on u given.old.items input }
    ensures written { (u : ℕ) (output : Option (List ℕ))
        → Keeps (written_on u given.old.items output) (written_on u given.new.items output) }
    ensures len { length given.new.items ≡ length given.old.items }
{
    match &mut given[k] {
        Some(file) => file.flush(),
        None => Ok(()),
    }
}

// Writes what files keep back, or reports the first unit whose file could not be written.
fn flush_all<S: UnitSystem>(given: &mut Vec<Option<GivenFile<'_, S>>>) -> Option<u8>
    ensures all { result ≡ None → (u : ℕ) → back_of (file_on u given.new.items) [] ≡ [] }
    ensures left { (u : ℕ) (input : Option (List ℕ))
        → left_on u given.new.items input ≡ left_on u given.old.items input }
    ensures written { (u : ℕ) (output : Option (List ℕ))
        → Keeps (written_on u given.old.items output) (written_on u given.new.items output) }
{
    let mut failed = None;
    'files: for k in 0..given.len() {
        if flush_at(given, k).is_err() && failed.is_none() {
            failed = Some(u8::try_from(k).unwrap_or(u8::MAX));
        }
    }
    failed
}
