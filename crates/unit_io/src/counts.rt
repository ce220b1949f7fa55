//! How often units have failed.

ghost use Rattle.std.specs.Prelude.{◌≡◌, ◌≤◌, ℕ, replicate, set};
ghost use Rattle.model.specs.Language.Units.{HasGrown};
ghost use Rattle.unit_io.specs.Counts.{failures_at, one_more, SameBut};

use std::marker::Model;

/// A count for each unit.
#[derive(Drop)]
pub struct Counts {
    counts: [u64; 256],
}

impl Model for Counts {
    ghost use Rattle.std.specs.Prelude.{List, ℕ, length, ◌≡◌};

    ghost Value = { List ℕ };

    ghost view = { λ c. c.counts };

    ghost invariant = { λ c. length c.counts ≡ 256 };
}

impl Counts {
    /// No unit has failed.
    pub fn new() -> Counts
        ensures { result ≡ replicate 256 0 }
    {
        Counts { counts: [0; 256] }
    }

    /// How often a unit has failed.
    pub fn get(&self, unit: u8) -> u64
        ensures { result ≡ failures_at self.now unit }
    {
        self.counts[unit as usize]
    }

    /// A unit has failed once more.
    pub fn add(&mut self, unit: u8)
        ensures value { self.new ≡ set self.old unit (one_more (failures_at self.old unit)) }
        ensures grown { HasGrown (failures_at self.old unit) (failures_at self.new unit) }
        ensures grows { (u : ℕ) → failures_at self.old u ≤ failures_at self.new u }
        ensures others { SameBut unit (failures_at self.old) (failures_at self.new) }
    {
        let k = unit as usize;
        self.counts[k] = self.counts[k].saturating_add(1);
    }
}
