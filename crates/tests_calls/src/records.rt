//! Records of units in memory.

use model::UnitFault;
use std::alloc::Global;
use std::test::Fail;
use strings::Text;
use unit_io::{MemUnits, Units};

/// Whether a unit gave this record; with none wanted, whether it is at its end.
pub fn gives(found: Result<Option<Text>, UnitFault>, want: Option<&str>) -> bool {
    match (found, want) {
        (Ok(Some(record)), Some(line)) => record.as_slice() == line.as_bytes(),
        (Ok(None), None) => true,
        _ => false,
    }
}

// Lines on unit 5, nothing on unit 99, and units 6 and 9 to write.
fn opened(alloc: Global) -> Result<MemUnits, UnitFault> {
    let mut units = MemUnits::new(alloc);
    units.open_input(5, b"ONE\n\nTWO\nLAST")?;
    units.open_input(99, b"")?;
    units.open_output(6)?;
    units.open_output(9)?;
    Ok(units)
}

fn reads(units: &mut MemUnits) -> bool {
    for (unit, want) in [
        (5, Some("ONE")),
        (5, Some("")),
        (99, None),
        (5, Some("TWO")),
        (5, Some("LAST")),
        (5, None),
        (5, None),
    ] {
        if !gives(units.read_record(unit), want) {
            return false;
        }
    }
    true
}

fn writes(units: &mut MemUnits) -> bool {
    for (unit, record) in [(6, "A"), (9, "X\nY"), (6, ""), (6, "BC")] {
        if units.write_record(unit, record.as_bytes()).is_err() {
            return false;
        }
    }
    true
}

// Units open in one way, and those that aren't open.
fn refuses(units: &mut MemUnits) -> bool {
    for unit in [6, 7, 9, 255] {
        if units.read_record(unit) != Err(UnitFault::NotOpen) {
            return false;
        }
    }
    for unit in [5, 7, 99, 255] {
        if units.write_record(unit, b"A") != Err(UnitFault::NotOpen) {
            return false;
        }
    }
    true
}

// Whether this was written to a unit; with none wanted, whether it is open for output at all.
fn tells(units: &MemUnits) -> bool {
    for (unit, want) in [
        (5, None),
        (6, Some("A\n\nBC\n")),
        (7, None),
        (9, Some("X\nY\n")),
    ] {
        if units.bytes(unit) != want.map(str::as_bytes) {
            return false;
        }
    }
    units.printed().len() == 4
}

#[test]
fn units_in_memory(rt: HostRuntime) -> Result<(), Fail> {
    let mut units = opened(rt.alloc())?;
    assert!(rt; refuses(&mut units) && reads(&mut units) && writes(&mut units) && tells(&units));
    Ok(())
}
