//! Records of what is read and written in pieces.

use crate::records::gives;
use model::UnitFault;
use std::alloc::{AllocError, Global};
use std::test::Fail;
use strings::Text;
use unit_io::{LineReader, LineWriter};

#[test]
fn lines_that_are_read(rt: HostRuntime) {
    let mut reader = LineReader::new(rt.alloc(), b"ONE\n\nTWO\nLAST".as_slice());
    for want in [Some("ONE"), Some(""), Some("TWO"), Some("LAST"), None, None] {
        assert!(rt; gives(reader.next_record(), want));
    }
}

// A line of so many bytes, and a short one.
fn lines(alloc: Global, len: usize) -> Result<Vec<u8>, AllocError> {
    let mut bytes = Vec::new(alloc);
    bytes.resize(len, b'A')?;
    bytes.extend_from_slice(b"\nB\n")?;
    Ok(bytes)
}

fn is_long(found: Result<Option<Text>, UnitFault>, len: usize) -> bool {
    match found {
        Ok(Some(record)) => record.len() == len,
        _ => false,
    }
}

// Whether both lines are reported.
fn are_told(alloc: Global, bytes: &[u8], len: usize) -> bool {
    let mut reader = LineReader::new(alloc, bytes);
    !reader.is_ready()
        && is_long(reader.next_record(), len)
        && gives(reader.next_record(), Some("B"))
        && gives(reader.next_record(), None)
}

#[test]
fn lines_longer_than_a_piece(rt: HostRuntime) -> Result<(), Fail> {
    for len in [65_535, 65_536, 65_537, 200_000] {
        let bytes = lines(rt.alloc(), len)?;
        assert!(rt; are_told(rt.alloc(), &bytes, len));
    }
    Ok(())
}

#[test]
fn lines_that_are_written(rt: HostRuntime) -> Result<(), Fail> {
    let mut bytes = Vec::new(rt.alloc());
    let mut writer = LineWriter::new(rt.alloc(), &mut bytes)?;
    assert!(rt; writer.write_record(b"ONE").is_ok() && writer.write_record(b"").is_ok());
    assert!(rt; writer.flush().is_ok());
    drop(writer);
    assert!(rt; bytes.as_slice() == b"ONE\n\n".as_slice());
    Ok(())
}
