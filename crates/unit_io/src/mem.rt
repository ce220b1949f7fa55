//! Units in memory.

ghost use Rattle.std.specs.Prelude.{◌≡◌, ◌↔◌, ◌≤◌, ◌⊎◌, ℕ, [], ◌∷◌, ◌++◌, Some, None, Err, replicate};
ghost use Rattle.std.specs.Prelude.{◌≢◌, option_copied, set, IfOk, OnOk, IfErr, OnErr, IsTrue};
ghost use Rattle.model.specs.Language.Units.{records_of, Reads, Writes, IsCounted};
ghost use Rattle.unit_io.specs.Counts.{Same, SameBut, IfNoneFailed};
ghost use Rattle.unit_io.specs.Held.{side_at, output_of, place_of, written_to, io_of, failures_of, may_fail_of, refused};
ghost use Rattle.unit_io.specs.Held.{IsRead, IsWritten, IsReadable, IsWritable, IsOfMemUnits, with_unit};
ghost use Rattle.unit_io.specs.Ways.{FailsNoMore, Reading, Writing};
ghost use Rattle.unit_io.specs.declared.mem.Side.TheVariants.{Input, Output};

use crate::counts::Counts;
use crate::lines::Lines;
use crate::records::Records;
use crate::units::Units;
use model::{Bytes, UnitFault};
use std::alloc::{AllocError, Global};
use std::marker::Model;
use strings::Text;

/// A record, and the unit that it was written to.
#[derive(Drop)]
pub struct Written {
    pub unit: u8,
    pub bytes: Bytes,
}

/// How a unit is open.
#[derive(Drop)]
enum Side {
    Input(Records),
    Output(Lines),
}

/// A unit that is open.
#[derive(Drop)]
struct OpenUnit {
    unit: u8,
    side: Side,
}

/// Units in memory: their input is given, and what is written to them can be looked at.
#[derive(Drop)]
pub struct MemUnits {
    alloc: Global,
    opened: Vec<OpenUnit>,
    printed: Vec<Written>,
    failures: Counts,
}

impl Model for MemUnits {
    ghost use Rattle.unit_io.specs.Held.{UnitsView, IsKept};

    ghost Value = { UnitsView };

    ghost view = { λ m. record {
      opened = m.opened.items;
      printed = m.printed.items;
      failures = m.failures;
    } };

    ghost invariant = { λ m.
        IsKept (record {
          opened = m.opened.items;
          printed = m.printed.items;
          failures = m.failures;
        }) };
}

impl MemUnits {
    /// No unit is open. Takes no memory.
    pub fn new(alloc: Global) -> MemUnits
        ensures { result ≡ record { opened = []; printed = []; failures = replicate 256 0 } }
    {
        MemUnits {
            alloc,
            opened: Vec::new(alloc),
            printed: Vec::new(alloc),
            failures: Counts::new(),
        }
    }

    /// Opens a unit for input; its records are the lines of the bytes.
    pub fn open_input(&mut self, unit: u8, bytes: &[u8]) -> Result<(), UnitFault>
        requires { side_at unit self.old.opened ≡ None }
        ensures ok { OnOk result
            (self.new ≡ with_unit unit (Input (records_of bytes.now)) self.old) }
        ensures err { OnErr result (self.new ≡ self.old) }
        ensures memory { IfErr result (λ fault. fault ≡ UnitFault.Memory) }
    {
        let Ok(text) = Text::from_slice(self.alloc, bytes) else {
            return Err(UnitFault::Memory);
        };
        let side = Side::Input(Records::of(text));
        self.open(unit, side)
    }

    /// Opens a unit for output.
    pub fn open_output(&mut self, unit: u8) -> Result<(), UnitFault>
        requires { side_at unit self.old.opened ≡ None }
        ensures ok { OnOk result (self.new ≡ with_unit unit (Output []) self.old) }
        ensures err { OnErr result (self.new ≡ self.old) }
        ensures memory { IfErr result (λ fault. fault ≡ UnitFault.Memory) }
    {
        let side = Side::Output(Lines::new(self.alloc));
        self.open(unit, side)
    }

    fn open(&mut self, unit: u8, side: Side) -> Result<(), UnitFault>
        requires { output_of (Some side) ≡ [] }
        ensures ok { OnOk result (self.new ≡ with_unit unit side self.old) }
        ensures err { OnErr result (self.new ≡ self.old) }
        ensures memory { IfErr result (λ fault. fault ≡ UnitFault.Memory) }
    {
        self.opened.push(OpenUnit { unit, side })?;
        Ok(())
    }

    /// What was written to a unit that is open for output: each record, and a line feed after it.
    pub fn bytes(&self, unit: u8) -> Option<&[u8]>
        ensures { option_copied result ≡ written_to unit self.now }
    {
        let Some(k) = place(&self.opened, unit) else {
            return None;
        };
        match &self.opened[k].side {
            Side::Input(_) => None,
            Side::Output(lines) => Some(lines.as_slice()),
        }
    }

    /// The records that were written, in order over all units.
    pub fn printed(&self) -> &[Written]
        ensures { result.now ≡ self.now.printed }
    {
        &self.printed
    }

    // Counts a failure of a unit that isn't open that way.
    fn refuse(&mut self, unit: u8) -> UnitFault
        ensures answer { result ≡ UnitFault.NotOpen }
        ensures counted { self.new ≡ refused UnitFault.NotOpen unit self.old }
    {
        self.failures.add(unit);
        UnitFault::NotOpen
    }
}

impl Units for MemUnits {
    ghost use Rattle.std.specs.Prelude.{Some};
    ghost use Rattle.unit_io.specs.Held.{io_of, failures_of, may_fail_of};

    ghost told = { λ m. Some (io_of m) };

    ghost failures = { failures_of };

    ghost may_fail = { may_fail_of };

    fn read_record(&mut self, unit: u8) -> Result<Option<Text>, UnitFault>
        ensures ok { IfOk result (λ got.
            Reads unit got (Some (io_of self.old)) (Some (io_of self.new))) }
        ensures err { OnErr result (Some (io_of self.new) ≡ Some (io_of self.old)) }
        ensures counted { IfErr result (λ fault.
            IsCounted fault (failures_of self.old unit) (failures_of self.new unit)) }
        ensures grows { (u : ℕ) → failures_of self.old u ≤ failures_of self.new u }
        ensures kept { IfNoneFailed result (Same (failures_of self.old) (failures_of self.new)) }
        ensures others { SameBut unit (failures_of self.old) (failures_of self.new) }
        ensures may { IfErr result (λ fault.
            fault ≢ UnitFault.Memory → IsTrue (may_fail_of self.old Reading unit)) }
        ensures no_more { FailsNoMore (may_fail_of self.old) (may_fail_of self.new) }
        ensures read { IfOk result (λ got. IsRead unit got self.old self.new) }
        ensures refused { IfErr result (λ fault. self.new ≡ refused fault unit self.old) }
        ensures unopened { (result ≡ Err UnitFault.NotOpen)
            ↔ ¬ IsReadable (side_at unit self.old.opened) }
        ensures never { IfErr result IsOfMemUnits }
    {
        let Some(k) = place(&self.opened, unit) else {
            return Err(self.refuse(unit));
        };
        let open = &mut self.opened[k];
        let Side::Input(records) = &mut open.side else {
            return Err(self.refuse(unit));
        };
        let Ok(got) = records.take_first() else {
            return Err(UnitFault::Memory);
        };
        Ok(got)
    }

    fn write_record(&mut self, unit: u8, bytes: &[u8]) -> Result<(), UnitFault>
        ensures ok { OnOk result
            (Writes unit bytes.now (Some (io_of self.old)) (Some (io_of self.new))) }
        ensures err { OnErr result (Some (io_of self.new) ≡ Some (io_of self.old)) }
        ensures counted { IfErr result (λ fault.
            IsCounted fault (failures_of self.old unit) (failures_of self.new unit)) }
        ensures grows { (u : ℕ) → failures_of self.old u ≤ failures_of self.new u }
        ensures kept { IfNoneFailed result (Same (failures_of self.old) (failures_of self.new)) }
        ensures others { SameBut unit (failures_of self.old) (failures_of self.new) }
        ensures may { IfErr result (λ fault.
            fault ≢ UnitFault.Memory → IsTrue (may_fail_of self.old Writing unit)) }
        ensures no_more { FailsNoMore (may_fail_of self.old) (may_fail_of self.new) }
        ensures written { OnOk result (IsWritten unit bytes.now self.old self.new) }
        ensures refused { IfErr result (λ fault. self.new ≡ refused fault unit self.old) }
        ensures unopened { (result ≡ Err UnitFault.NotOpen)
            ↔ ¬ IsWritable (side_at unit self.old.opened) }
        ensures never { IfErr result IsOfMemUnits }
    {
        let Some(k) = place(&self.opened, unit) else {
            return Err(self.refuse(unit));
        };
        let open = &mut self.opened[k];
        let Side::Output(lines) = &mut open.side else {
            return Err(self.refuse(unit));
        };
        let Ok(()) = put(self.alloc, &mut self.printed, lines, unit, bytes) else {
            return Err(UnitFault::Memory);
        };
        Ok(())
    }
}

// Puts a record at the end of both, or of none.
fn put(
    alloc: Global,
    printed: &mut Vec<Written>,
    lines: &mut Lines,
    unit: u8,
    bytes: &[u8],
) -> Result<(), AllocError>
    ensures printed { OnOk result
        (printed.new.items ≡ printed.old.items ++ record { unit = unit; bytes = bytes.now } ∷ []) }
    ensures lines { OnOk result (lines.new ≡ lines.old ++ bytes.now ++ 10 ∷ []) }
    ensures err { OnErr result ((printed.new.items ≡ printed.old.items) × (lines.new ≡ lines.old)) }
{
    let copy = Bytes::from_vec(Vec::from_slice(alloc, bytes)?);
    printed.reserve(1)?;
    lines.write(bytes)?;
    match printed.push(Written { unit, bytes: copy }) {
        Ok(()) => Ok(()),
        Err(_) => unreachable!(),
    }
}

// Where a unit stands among those that are open.
fn place(opened: &[OpenUnit], unit: u8) -> Option<usize>
    ensures { result ≡ place_of 0 unit opened.now }
{
    for k in 0..opened.len() {
        if opened[k].unit == unit {
            return Some(k);
        }
    }
    None
}
