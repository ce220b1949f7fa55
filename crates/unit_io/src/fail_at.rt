//! Units of which one call fails.

ghost use Rattle.std.specs.Prelude.{◌≡◌, ◌≢◌, ◌↔◌, ◌≤◌, ◌-◌, ℕ, IsTrue, Err, IfErr, IfOk, OnOk, OnErr, replicate};
ghost use Rattle.model.specs.Language.Units.{Reads, Writes, IsCounted, HasGrown};
ghost use Rattle.unit_io.specs.Counts.{failures_at, one_more, Same, SameBut, IfNoneFailed};
ghost use Rattle.unit_io.specs.Failing.{failures_in};
ghost use Rattle.unit_io.specs.Ways.{any_may_fail, FailsNoMore, Reading, Writing};

use crate::counts::Counts;
use crate::units::Units;
use model::UnitFault;
use strings::Text;

/// Units whose call k fails, be it a read or a write, and isn't made. The other calls are made.
#[derive(Drop)]
pub struct FailAt<U: Units> {
    units: U,
    left: u64,
    counts: Counts,
}

impl<U: Units> FailAt<U> {
    /// The calls are counted from 1. No call is call 0. Takes no memory.
    pub fn new(units: U, k: u64) -> FailAt<U>
        ensures units { result.units ≡ units }
        ensures left { result.left ≡ k }
        ensures counts { result.counts ≡ replicate 256 0 }
    {
        FailAt {
            units,
            left: k,
            counts: Counts::new(),
        }
    }

    /// The units.
    pub fn into_inner(self) -> U
        ensures { result ≡ self.units }
    {
        self.units
    }

    // Counts a call, and the failure if it's the one that fails.
    fn fails(&mut self, unit: u8) -> bool
        ensures units { self.new.units ≡ self.old.units }
        ensures left { self.new.left ≡ self.old.left - 1 }
        ensures which { IsTrue result ↔ (self.old.left ≡ 1) }
        ensures counted { IsTrue result
            → HasGrown (failures_at self.old.counts unit) (failures_at self.new.counts unit) }
        ensures grows { (u : ℕ) → failures_at self.old.counts u ≤ failures_at self.new.counts u }
        ensures spared { self.old.left ≢ 1 → self.new.counts ≡ self.old.counts }
        ensures others { SameBut unit (failures_at self.old.counts) (failures_at self.new.counts) }
    {
        if self.left == 0 {
            return false;
        }
        self.left -= 1;
        if self.left > 0 {
            return false;
        }
        self.counts.add(unit);
        true
    }
}

impl<U: Units> Units for FailAt<U> {
    ghost use Rattle.unit_io.specs.Counts.{failures_at};
    ghost use Rattle.unit_io.specs.Failing.{failures_with};
    ghost use Rattle.unit_io.specs.Ways.{any_may_fail};

    ghost told = { λ f. U.told f.units };

    ghost failures = { λ f unit. failures_with (U.failures f.units unit) (failures_at f.counts unit) };

    ghost may_fail = { λ f. any_may_fail };

    fn read_record(&mut self, unit: u8) -> Result<Option<Text>, UnitFault>
        ensures ok { IfOk result (λ got.
            Reads unit got (U.told self.old.units) (U.told self.new.units)) }
        ensures err { OnErr result (U.told self.new.units ≡ U.told self.old.units) }
        ensures counted { IfErr result (λ fault.
            IsCounted fault (failures_in (U.failures self.old.units) self.old.counts unit)
            (failures_in (U.failures self.new.units) self.new.counts unit)) }
        ensures grows { (u : ℕ)
            → failures_in (U.failures self.old.units) self.old.counts u
            ≤ failures_in (U.failures self.new.units) self.new.counts u }
        ensures kept { IfNoneFailed result (Same
            (failures_in (U.failures self.old.units) self.old.counts)
            (failures_in (U.failures self.new.units) self.new.counts)) }
        ensures others { SameBut unit
            (failures_in (U.failures self.old.units) self.old.counts)
            (failures_in (U.failures self.new.units) self.new.counts) }
        ensures may { IfErr result (λ fault.
            fault ≢ UnitFault.Memory → IsTrue (any_may_fail Reading unit)) }
        ensures no_more { FailsNoMore any_may_fail any_may_fail }
        ensures left { self.new.left ≡ self.old.left - 1 }
        ensures fails { self.old.left ≡ 1 → (result ≡ Err UnitFault.ReadFailed)
            × (self.new.units ≡ self.old.units) }
        ensures spared { self.old.left ≢ 1 → (self.new.counts ≡ self.old.counts)
            × IfErr result (λ fault.
            IsCounted fault (U.failures self.old.units unit) (U.failures self.new.units unit)) }
    {
        if self.fails(unit) {
            return Err(UnitFault::ReadFailed);
        }
        self.units.read_record(unit)
    }

    fn write_record(&mut self, unit: u8, bytes: &[u8]) -> Result<(), UnitFault>
        ensures ok { OnOk result
            (Writes unit bytes.now (U.told self.old.units) (U.told self.new.units)) }
        ensures err { OnErr result (U.told self.new.units ≡ U.told self.old.units) }
        ensures counted { IfErr result (λ fault.
            IsCounted fault (failures_in (U.failures self.old.units) self.old.counts unit)
            (failures_in (U.failures self.new.units) self.new.counts unit)) }
        ensures grows { (u : ℕ)
            → failures_in (U.failures self.old.units) self.old.counts u
            ≤ failures_in (U.failures self.new.units) self.new.counts u }
        ensures kept { IfNoneFailed result (Same
            (failures_in (U.failures self.old.units) self.old.counts)
            (failures_in (U.failures self.new.units) self.new.counts)) }
        ensures others { SameBut unit
            (failures_in (U.failures self.old.units) self.old.counts)
            (failures_in (U.failures self.new.units) self.new.counts) }
        ensures may { IfErr result (λ fault.
            fault ≢ UnitFault.Memory → IsTrue (any_may_fail Writing unit)) }
        ensures no_more { FailsNoMore any_may_fail any_may_fail }
        ensures left { self.new.left ≡ self.old.left - 1 }
        ensures fails { self.old.left ≡ 1 → (result ≡ Err UnitFault.WriteFailed)
            × (self.new.units ≡ self.old.units) }
        ensures spared { self.old.left ≢ 1 → (self.new.counts ≡ self.old.counts)
            × IfErr result (λ fault.
            IsCounted fault (U.failures self.old.units unit) (U.failures self.new.units unit)) }
    {
        if self.fails(unit) {
            return Err(UnitFault::WriteFailed);
        }
        self.units.write_record(unit, bytes)
    }
}
