//! What a run asks of units.

ghost use Rattle.std.specs.Prelude.{◌≡◌, ◌≢◌, ◌≤◌, ℕ, IfOk, OnOk, IfErr, OnErr, IsTrue};
ghost use Rattle.model.specs.Language.Units.{Reads, Writes, IsCounted};
ghost use Rattle.unit_io.specs.Counts.{Same, SameBut, IfNoneFailed};
ghost use Rattle.unit_io.specs.Ways.{FailsNoMore, Reading, Writing};

use model::UnitFault;
use strings::Text;

/// The units of a run, numbered from 0 to 99.
pub trait Units {
    ghost use Rattle.std.specs.Prelude.{ℕ, Bool, Option};
    ghost use Rattle.model.specs.Language.Io.{Io};
    ghost use Rattle.unit_io.specs.Ways.{Way};

    /// The records left on each unit, and those written, in one order over all units; or that they aren't exposed.
    ghost told: { Self → Option Io };

    /// How often each unit has failed.
    ghost failures: { Self → ℕ → ℕ };

    /// Whether a unit may fail where it is used in this way. Want of memory is no failure of a unit.
    ghost may_fail: { Self → Way → ℕ → Bool };

    /// Takes a unit's first record that is left, without its line feed; `None` at the end of the unit.
    fn read_record(&mut self, unit: u8) -> Result<Option<Text>, UnitFault>
        ensures ok { IfOk result (λ got. Reads unit got (told self.old) (told self.new)) }
        ensures err { OnErr result (told self.new ≡ told self.old) }
        ensures counted { IfErr result (λ fault.
            IsCounted fault (failures self.old unit) (failures self.new unit)) }
        ensures grows { (u : ℕ) → failures self.old u ≤ failures self.new u }
        ensures kept { IfNoneFailed result (Same (failures self.old) (failures self.new)) }
        ensures others { SameBut unit (failures self.old) (failures self.new) }
        ensures may { IfErr result (λ fault.
            fault ≢ UnitFault.Memory → IsTrue (may_fail self.old Reading unit)) }
        ensures no_more { FailsNoMore (may_fail self.old) (may_fail self.new) };

    /// Writes a record, and a line feed after it. A record whose write is refused isn't counted as written.
    fn write_record(&mut self, unit: u8, bytes: &[u8]) -> Result<(), UnitFault>
        ensures ok { OnOk result (Writes unit bytes.now (told self.old) (told self.new)) }
        ensures err { OnErr result (told self.new ≡ told self.old) }
        ensures counted { IfErr result (λ fault.
            IsCounted fault (failures self.old unit) (failures self.new unit)) }
        ensures grows { (u : ℕ) → failures self.old u ≤ failures self.new u }
        ensures kept { IfNoneFailed result (Same (failures self.old) (failures self.new)) }
        ensures others { SameBut unit (failures self.old) (failures self.new) }
        ensures may { IfErr result (λ fault.
            fault ≢ UnitFault.Memory → IsTrue (may_fail self.old Writing unit)) }
        ensures no_more { FailsNoMore (may_fail self.old) (may_fail self.new) };
}
