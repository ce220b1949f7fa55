//! Units that the page gives a run. It hears of what is written to them, and nothing keeps it.

ghost use Rattle.std.specs.Prelude.{◌≡◌, ◌≤◌, ℕ};
ghost use Rattle.model.specs.Language.Units.{IsCounted};
ghost use Rattle.unit_io.specs.Counts.{IfMemory, Same, SameBut};
ghost use Rattle.unit_io.specs.Held.{failures_of};

use crate::hooks::page_wrote;
use model::UnitFault;
use std::alloc::Global;
use strings::Text;
use unit_io::{MemUnits, Units};

/// A unit, and the part of what was typed that has its records.
#[repr(C)]
#[derive(Drop)]
pub struct GivenUnit {
    pub unit: u64,
    /// Where its bytes begin.
    pub start: u64,
    /// Where they end.
    pub end: u64,
    /// 0 where its first use decides whether it is read or written, 1 where it is only read, 2 where it is only written.
    pub only: u64,
}

/// A unit that is open.
#[derive(Drop)]
struct OpenUnit {
    unit: u8,
    may_be_read: bool,
    may_be_written: bool,
    records: MemUnits,
}

impl OpenUnit {
    // A unit with the records of these bytes.
    fn new(alloc: Global, unit: u8, bytes: &[u8], only: u64) -> Result<OpenUnit, UnitFault> {
        let mut records = MemUnits::new(alloc);
        records.open_input(unit, bytes)?;
        Ok(OpenUnit {
            unit,
            may_be_read: only != 2,
            may_be_written: only != 1,
            records,
        })
    }

    fn read_record(&mut self) -> Result<Option<Text>, UnitFault> {
        if !self.may_be_read {
            return Err(UnitFault::NotOpen);
        }
        self.may_be_written = false;
        match self.records.read_record(self.unit) {
            Ok(got) => Ok(got),
            Err(_) => Err(UnitFault::Memory),
        }
    }

    fn write_record(&mut self, bytes: &[u8]) -> Result<(), UnitFault> {
        if !self.may_be_written {
            return Err(UnitFault::NotOpen);
        }
        self.may_be_read = false;
        page_wrote(self.unit, bytes);
        Ok(())
    }
}

/// The units of a run. They expose no records: what is written goes to the page and is not kept.
#[derive(Drop)]
pub(crate) struct GivenUnits {
    opened: Vec<OpenUnit>,
    // No unit is open here: it refuses each call, and counts the failures of all.
    shut: MemUnits,
}

// A part of the bytes; none where it isn't one.
fn part(bytes: &[u8], start: u64, end: u64) -> &[u8] {
    match (usize::try_from(start), usize::try_from(end)) {
        (Ok(start), Ok(end)) => bytes.get(start..end).unwrap_or(b""),
        _ => b"",
    }
}

impl GivenUnits {
    /// The units that are given, with the records of what was typed for each.
    pub(crate) fn new(
        alloc: Global,
        typed: &[u8],
        given: &[GivenUnit],
    ) -> Result<GivenUnits, UnitFault> {
        let mut opened = Vec::new(alloc);
        for each in given {
            let unit = u8::try_from(each.unit).unwrap_or(u8::MAX);
            let bytes = part(typed, each.start, each.end);
            opened.push(OpenUnit::new(alloc, unit, bytes, each.only)?)?;
        }
        let shut = MemUnits::new(alloc);
        Ok(GivenUnits { opened, shut })
    }

    // Counts a fault of a unit, unless it is want of memory.
    fn counted(&mut self, unit: u8, fault: UnitFault) -> UnitFault
        ensures counted { IsCounted result (failures_of self.old.shut unit)
            (failures_of self.new.shut unit) }
        ensures grows { (u : ℕ) → failures_of self.old.shut u ≤ failures_of self.new.shut u }
        ensures kept { IfMemory result (Same (failures_of self.old.shut) (failures_of self.new.shut)) }
        ensures others { SameBut unit (failures_of self.old.shut) (failures_of self.new.shut) }
    {
        if fault == UnitFault::Memory {
            return UnitFault::Memory;
        }
        match self.shut.read_record(unit) {
            Ok(_) => UnitFault::Memory,
            Err(refused) => refused,
        }
    }

    fn read_from(&mut self, unit: u8) -> Result<Option<Text>, UnitFault>
        ensures { self.new.shut ≡ self.old.shut }
    {
        for open in &mut self.opened {
            if open.unit == unit {
                return open.read_record();
            }
        }
        Err(UnitFault::NotOpen)
    }

    fn write_to(&mut self, unit: u8, bytes: &[u8]) -> Result<(), UnitFault>
        ensures { self.new.shut ≡ self.old.shut }
    {
        for open in &mut self.opened {
            if open.unit == unit {
                return open.write_record(bytes);
            }
        }
        Err(UnitFault::NotOpen)
    }
}

impl Units for GivenUnits {
    ghost use Rattle.std.specs.Prelude.{None};
    ghost use Rattle.unit_io.specs.Held.{failures_of};
    ghost use Rattle.unit_io.specs.Ways.{any_may_fail};

    ghost told = { λ g. None };

    ghost failures = { λ g. failures_of g.shut };

    ghost may_fail = { λ g. any_may_fail };

    fn read_record(&mut self, unit: u8) -> Result<Option<Text>, UnitFault> {
        match self.read_from(unit) {
            Ok(got) => Ok(got),
            Err(fault) => Err(self.counted(unit, fault)),
        }
    }

    fn write_record(&mut self, unit: u8, bytes: &[u8]) -> Result<(), UnitFault> {
        match self.write_to(unit, bytes) {
            Ok(()) => Ok(()),
            Err(fault) => Err(self.counted(unit, fault)),
        }
    }
}
