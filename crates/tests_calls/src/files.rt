//! Units on a system in memory, which exposes its bytes.

ghost use Rattle.std.specs.Prelude.{◌≡◌};

use crate::records::gives;
use std::alloc::Global;
use std::io;
use std::test::Fail;
use unit_io::{FileUnits, UnitSystem, Units};

/// Standard input, and one file, which has every name.
#[derive(Drop)]
struct Memory<'a> {
    alloc: Global,
    input: &'a [u8],
    file: &'a [u8],
}

impl<'a> UnitSystem for Memory<'a> {
    ghost use Rattle.std.specs.Prelude.{true};

    type Input = &'a [u8];

    type Output = Vec<u8>;

    type Source = &'a [u8];

    type Target = Vec<u8>;

    ghost exposes = { λ _. true };

    ghost input_bytes = { λ m. m.input.now };

    ghost source_bytes = { λ m _. m.file.now };

    fn input(&self) -> &'a [u8] {
        self.input
    }

    fn output(&self) -> Vec<u8> {
        Vec::new(self.alloc)
    }

    fn open(&self, _path: &str) -> io::Result<&'a [u8]> {
        Ok(self.file)
    }

    fn create(&self, _path: &str) -> io::Result<Vec<u8>> {
        Ok(Vec::new(self.alloc))
    }
}

#[test]
fn records_of_streams_and_files(rt: HostRuntime) -> Result<(), Fail> {
    let memory = Memory {
        alloc: rt.alloc(),
        input: b"ONE\nTWO",
        file: b"FIRST\n",
    };
    let mut units = FileUnits::new(rt.alloc(), &memory)?;
    units.give(7, "in")?;
    units.give(8, "out")?;
    for (unit, want) in [
        (5, Some("ONE")),
        (7, Some("FIRST")),
        (7, None),
        (5, Some("TWO")),
        (5, None),
    ] {
        assert!(rt; gives(units.read_record(unit), want));
    }
    assert!(rt; units.write_record(6, b"PRINTED").is_ok() && units.write_record(8, b"").is_ok());
    assert!(rt; units.write_record(7, b"").is_err() && units.read_record(8).is_err());
    assert!(rt; units.flush().is_ok());
    Ok(())
}
