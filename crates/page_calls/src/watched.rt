//! Units of which the page hears what is written.

use crate::hooks::page_wrote;
use model::UnitFault;
use strings::Text;
use unit_io::Units;

/// Other units. The page hears of each record that they took.
#[derive(Drop)]
pub(crate) struct Watched<U: Units> {
    pub(crate) units: U,
}

impl<U: Units> Units for Watched<U> {
    ghost told = { λ w. U.told w.units };

    ghost failures = { λ w. U.failures w.units };

    ghost may_fail = { λ w. U.may_fail w.units };

    fn read_record(&mut self, unit: u8) -> Result<Option<Text>, UnitFault> {
        self.units.read_record(unit)
    }

    fn write_record(&mut self, unit: u8, bytes: &[u8]) -> Result<(), UnitFault> {
        match self.units.write_record(unit, bytes) {
            Ok(()) => {
                page_wrote(unit, bytes);
                Ok(())
            }
            Err(fault) => Err(fault),
        }
    }
}
