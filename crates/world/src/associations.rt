//! Variables that a unit is associated with.

ghost use Rattle.std.specs.Prelude.{◌≡◌, Some, None, OnOk, OnErr};
ghost use Rattle.model.specs.Language.Io.{Io};
ghost use Rattle.model.specs.Language.Primitives.{set_reads, set_writes};
ghost use Rattle.world.specs.Held.{world_of};

use crate::world::World;
use std::alloc::AllocError;
use strings::Text;

impl World {
    /// From now on a variable reads its value from a unit.
    pub fn read_from(&mut self, name: &Text, unit: u8) -> Result<(), AllocError>
        ensures set { OnOk result
            ((io : Io) → world_of self.new io
            ≡ set_reads name.now (Some unit) (world_of self.old io)) }
        ensures err { OnErr result (self.new ≡ self.old) }
        ensures names { self.new.names ≡ self.old.names }
    {
        let (_input, output) = self.units(name);
        self.set_units(name, Some(unit), output)
    }

    /// From now on a variable writes its value to a unit.
    pub fn write_to(&mut self, name: &Text, unit: u8) -> Result<(), AllocError>
        ensures set { OnOk result
            ((io : Io) → world_of self.new io
            ≡ set_writes name.now (Some unit) (world_of self.old io)) }
        ensures err { OnErr result (self.new ≡ self.old) }
        ensures names { self.new.names ≡ self.old.names }
    {
        let (input, _output) = self.units(name);
        self.set_units(name, input, Some(unit))
    }

    /// From now on a variable has no unit.
    pub fn detach(&mut self, name: &Text) -> Result<(), AllocError>
        ensures set { OnOk result
            ((io : Io) → world_of self.new io
            ≡ set_writes name.now None (set_reads name.now None (world_of self.old io))) }
        ensures err { OnErr result (self.new ≡ self.old) }
        ensures names { self.new.names ≡ self.old.names }
    {
        self.set_units(name, None, None)
    }
}
