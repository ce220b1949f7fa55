//! Units of which one has the words of the command line as its records.

ghost use Rattle.std.specs.Prelude.{◌≡◌, ◌≤◌, ℕ, IfErr};
ghost use Rattle.model.specs.declared.run.UnitFault.TheVariants.{Memory};
ghost use Rattle.model.specs.Language.Units.{IsCounted};
ghost use Rattle.unit_io.specs.Counts.{IfNoneFailed, Same, SameBut};

use model::UnitFault;
use snobol_words::WORDS_UNIT;
use std::alloc::Global;
use strings::Text;
use unit_io::Units;

/// Units where unit 4 has some words as its records, if there are any; else it is what it is among the others.
#[derive(Drop)]
pub(crate) struct WordsUnit<'a, U: Units> {
    alloc: Global,
    words: &'a [&'a str],
    next: usize,
    units: U,
}

impl<'a, U: Units> WordsUnit<'a, U> {
    pub(crate) fn new(alloc: Global, words: &'a [&'a str], units: U) -> WordsUnit<'a, U>
        ensures { result.units ≡ units }
    {
        WordsUnit {
            alloc,
            words,
            next: 0,
            units,
        }
    }

    /// The other units.
    pub(crate) fn into_units(self) -> U
        ensures { result ≡ self.entry.units }
    {
        self.units
    }

    // The next word.
    fn next_word(&mut self) -> Result<Option<Text>, UnitFault>
        ensures units { self.new.units ≡ self.old.units }
        ensures memory { IfErr result (λ fault. fault ≡ Memory) }
    {
        let Some(word) = self.words.get(self.next) else {
            return Ok(None);
        };
        match Text::from_slice(self.alloc, word.as_bytes()) {
            Ok(text) => {
                self.next = self.next.saturating_add(1);
                Ok(Some(text))
            }
            Err(_) => Err(UnitFault::Memory),
        }
    }

    // The next record of a unit.
    fn next_record(&mut self, unit: u8) -> Result<Option<Text>, UnitFault>
        ensures counted { IfErr result (λ fault.
            IsCounted fault (U.failures self.old.units unit) (U.failures self.new.units unit)) }
        ensures grows { (u : ℕ) → U.failures self.old.units u ≤ U.failures self.new.units u }
        ensures kept { IfNoneFailed result
            (Same (U.failures self.old.units) (U.failures self.new.units)) }
        ensures others { SameBut unit (U.failures self.old.units) (U.failures self.new.units) }
    {
        if unit == WORDS_UNIT && !self.words.is_empty() {
            self.next_word()
        } else {
            self.units.read_record(unit)
        }
    }
}

impl<U: Units> Units for WordsUnit<'_, U> {
    ghost use Rattle.std.specs.Prelude.{None};
    ghost use Rattle.unit_io.specs.Ways.{any_may_fail};

    ghost told = { λ units. None };

    ghost failures = { λ w. U.failures w.units };

    ghost may_fail = { λ w. any_may_fail };

    fn read_record(&mut self, unit: u8) -> Result<Option<Text>, UnitFault> {
        match self.next_record(unit) {
            Ok(got) => Ok(got),
            Err(fault) => Err(fault),
        }
    }

    fn write_record(&mut self, unit: u8, bytes: &[u8]) -> Result<(), UnitFault> {
        match self.units.write_record(unit, bytes) {
            Ok(()) => Ok(()),
            Err(fault) => Err(fault),
        }
    }
}
