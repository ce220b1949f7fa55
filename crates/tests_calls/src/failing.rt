//! Calls that fail, each in turn: no record is lost, and none is written twice.

use model::UnitFault;
use std::alloc::Global;
use strings::Text;
use unit_io::{FailAt, MemUnits, Units};

// A record, asked for again where the call failed; and whether it did.
fn read(units: &mut impl Units) -> Result<(Option<Text>, bool), UnitFault> {
    match units.read_record(5) {
        Err(UnitFault::ReadFailed) => Ok((units.read_record(5)?, true)),
        found => Ok((found?, false)),
    }
}

// Writes a record, again where the call failed; whether it did.
fn write(units: &mut impl Units, record: &[u8]) -> Result<bool, UnitFault> {
    match units.write_record(6, record) {
        Err(UnitFault::WriteFailed) => {
            units.write_record(6, record)?;
            Ok(true)
        }
        answer => {
            answer?;
            Ok(false)
        }
    }
}

// Writes each record that is read; whether a call failed.
fn copy_records(units: &mut impl Units) -> Result<bool, UnitFault> {
    let mut failed = false;
    for _ in 0..4 {
        let (record, read_failed) = read(units)?;
        failed = failed || read_failed;
        if let Some(text) = record {
            let write_failed = write(units, text.as_slice())?;
            failed = failed || write_failed;
        }
    }
    Ok(failed)
}

fn opened(alloc: Global) -> Result<MemUnits, UnitFault> {
    let mut units = MemUnits::new(alloc);
    units.open_input(5, b"ONE\n\nTWO")?;
    units.open_output(6)?;
    Ok(units)
}

// Whether a call failed, and whether all records were written, where call k fails.
fn copied(alloc: Global, k: u64) -> Result<(bool, bool), UnitFault> {
    let mut units = FailAt::new(opened(alloc)?, k);
    let failed = copy_records(&mut units)?;
    let all = units.into_inner();
    Ok((failed, all.bytes(6) == Some(b"ONE\n\nTWO\n".as_slice())))
}

// Three records, and the end: seven calls.
#[test]
fn each_call_fails(rt: HostRuntime) {
    for k in 0..10 {
        assert!(rt; copied(rt.alloc(), k) == Ok((0 < k && k < 8, true)));
    }
}
