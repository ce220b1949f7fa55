//! The objects that a world reaches: they are marked, and the others are given back.

ghost use Rattle.std.specs.Prelude.{OnOk, map};
ghost use Rattle.heap.specs.Marked.{HasMarked, marks_in};
ghost use Rattle.model.specs.Machine.Living.{CodeLives, InstrLives, NameLives, ValueLives, ValuesLive};
ghost use Rattle.pattern_compiler.specs.View.{instr_of, name_of};
ghost use Rattle.world.specs.Marking.{VariablesLive};
ghost use Rattle.values.specs.Values.{value_of};

use crate::world::World;
use heap::Marks;
use pattern_compiler::{Instr, Name, PatCode, Pattern};
use std::alloc::AllocError;
use values::Value;

impl World {
    /// Marks the objects that variables hold.
    pub fn mark_variables(&self, marks: &mut Marks) -> Result<(), AllocError>
        ensures lives { OnOk result (VariablesLive self.now marks.new) }
        ensures grown { OnOk result (HasMarked marks.old marks.new) }
    {
        for slot in 0..self.variables.len() {
            if let Some((_name, variable)) = self.variables.get_index(slot) {
                variable.value.mark(marks)?;
            }
        }
        Ok(())
    }
}
