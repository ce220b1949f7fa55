//! Variables of a world, found by their slots or by their names.

ghost use Rattle.std.specs.Prelude.{◌≡◌, ◌<◌, length, Some, None, is_some, option_copied};
ghost use Rattle.std.specs.Prelude.{IfSome, true, false, slice_get};
ghost use Rattle.std.specs.Map.{values_of};
ghost use Rattle.model.specs.Deck.Target as target;
ghost use Rattle.model.specs.Deck.Trees.{Bytes};
ghost use Rattle.model.specs.Language.Conversions.{Gives};
ghost use Rattle.model.specs.Language.Io.{Io};
ghost use Rattle.model.specs.Language.Operators.{fetch_op};
ghost use Rattle.model.specs.Language.Values.{Int};
ghost use Rattle.pattern_compiler.specs.View.{name_of};
ghost use Rattle.values.specs.Values.{value_of};
ghost use Rattle.world.specs.Held.{world_of, IsPlain, StandsAs, StandsIn, variable_at, value_in};
ghost use Rattle.world.specs.Held.{Holds, IsSilent};
ghost use Rattle.world.specs.Slots.{IsSlotOf};
ghost use Rattle.values.specs.declared.value.Value.{Value};
ghost use Rattle.values.specs.declared.variable.Variable.{Variable};

use crate::world::World;
use pattern_compiler::Name;
use strings::Text;
use values::{NO_SLOT, Value, Variable};

impl World {
    /// The slot of a variable, if it is there and its slot is known.
    pub fn slot_of(&self, name: &Text) -> u32 {
        match self.variables.get_index_of(name) {
            Some(slot) => u32::try_from(slot).unwrap_or(NO_SLOT),
            None => NO_SLOT,
        }
    }

    // Where a variable stands, by a look-up.
    #[cold]
    #[inline(never)]
    fn find_slot(&self, name: &Text) -> Option<usize>
        ensures there { is_some result ≡ is_some (variable_at name.now self.now.variables) }
        ensures entry { IfSome result (λ at. StandsIn name.now at self.now.variables) }
    {
        self.variables.get_index_of(name)
    }

    /// Where a variable stands, which is its slot or else what the look-up finds.
    #[inline(always)]
    pub(crate) fn slot(&self, name: &Text, slot: u32) -> Option<usize>
        ensures there { is_some result ≡ is_some (variable_at name.now self.now.variables) }
        ensures entry { IfSome result (λ at. StandsIn name.now at self.now.variables) }
    {
        let slot = slot as usize;
        if let Some((key, _variable)) = self.variables.get_index(slot) {
            if *key == *name {
                return Some(slot);
            }
        }
        self.find_slot(name)
    }

    /// Where a variable stands, whose slot is known to be right if it is known at all.
    #[inline(always)]
    pub(crate) fn known_slot(&self, name: &Text, slot: u32) -> Option<usize>
        requires { IsSlotOf name.now slot self.now.names }
        ensures there { is_some result ≡ is_some (variable_at name.now self.now.variables) }
        ensures entry { IfSome result (λ at. StandsIn name.now at self.now.variables) }
    {
        if slot == NO_SLOT {
            return self.find_slot(name);
        }
        let _count = self.variables.len();
        Some(slot as usize)
    }

    /// The slot that a name keeps, if it keeps one.
    pub(crate) fn kept_slot(&self, name: &Text) -> u32
        ensures { IsSlotOf name.now result self.now.names }
    {
        let slot = self.slot_of(name);
        if self.is_named(slot, name) {
            slot
        } else {
            NO_SLOT
        }
    }

    // A variable, by a look-up.
    #[cold]
    #[inline(never)]
    fn find_variable(&self, name: &Text) -> Option<&Variable>
        ensures { option_copied result ≡ variable_at name.now self.now.variables }
    {
        self.variables.get(name)
    }

    /// A variable, which stands in its slot or else where the look-up finds it.
    #[inline(always)]
    pub fn variable(&self, name: &Text, slot: u32) -> Option<&Variable>
        ensures { option_copied result ≡ variable_at name.now self.now.variables }
    {
        if let Some((key, variable)) = self.variables.get_index(slot as usize) {
            if *key == *name {
                return Some(variable);
            }
        }
        self.find_variable(name)
    }

    /// Whether the variable in a slot keeps it and has this name.
    pub fn is_named(&self, slot: u32, name: &Text) -> bool
        ensures { result ≡ true → slice_get self.now.names slot ≡ Some name.now }
    {
        match self.names.get(slot as usize) {
            Some(named) => *named == *name,
            None => false,
        }
    }

    /// The name that keeps its slot there.
    pub fn name_in(&self, slot: u32) -> Option<&Text>
        ensures { IfSome result (λ name. slice_get self.now.names slot ≡ Some name.now) }
    {
        self.names.get(slot as usize)
    }

    // The variable in a slot that it keeps.
    #[inline(always)]
    fn variable_in(&self, slot: u32) -> &Variable
        requires { slot < length self.now.names }
        ensures stands { (x : Bytes) → slice_get self.now.names slot ≡ Some x
            → StandsAs x slot result.now self.now.variables }
        ensures held { slice_get (values_of self.now.variables) slot ≡ Some result.now }
    {
        let _count = self.variables.len();
        &self.variables[slot as usize]
    }

    /// The value of the variable in a slot that it keeps, if it reads from no unit.
    #[inline(always)]
    pub fn plain_in(&self, slot: u32) -> Option<&Value>
        requires { slot < length self.now.names }
        ensures { IfSome result (λ value. (x : Bytes) → slice_get self.now.names slot ≡ Some x → (io : Io)
            → fetch_op (target.Variable x) (world_of self.now io)
            ≡ Gives (value_of value.now) (world_of self.now io)) }
    {
        let variable = self.variable_in(slot);
        match variable.input {
            None => Some(&variable.value),
            Some(_) => None,
        }
    }

    /// Whether the variable in a slot that it keeps writes to no unit.
    #[inline(always)]
    pub fn takes_in(&self, slot: u32) -> bool
        requires { slot < length self.now.names }
        ensures { result ≡ true → (x : Bytes) → slice_get self.now.names slot ≡ Some x
            → IsPlain (target.Variable x) slot self.now }
    {
        match self.variable_in(slot).output {
            None => true,
            Some(_) => false,
        }
    }

    /// The value of the variable in a slot that it keeps, if it neither reads from a unit nor writes to one.
    #[inline(always)]
    pub fn silent_in(&self, slot: u32) -> Option<&Value>
        requires { slot < length self.now.names }
        ensures silent { IfSome result (λ _. (x : Bytes) → slice_get self.now.names slot ≡ Some x
            → IsSilent x slot self.now) }
        ensures held { IfSome result (λ value. Holds slot value.now self.now) }
    {
        let variable = self.variable_in(slot);
        let None = variable.output else {
            return None;
        };
        let None = variable.input else {
            return None;
        };
        Some(&variable.value)
    }

    /// The value of the variable in a slot, if it has this name and reads from no unit.
    #[inline(always)]
    pub fn plain(&self, name: &Text, slot: u32) -> Option<&Value>
        ensures { IfSome result (λ value. (io : Io)
            → fetch_op (target.Variable name.now) (world_of self.now io)
            ≡ Gives (value_of value.now) (world_of self.now io)) }
    {
        let (key, variable) = self.variables.get_index(slot as usize)?;
        if variable.input.is_none() && *key == *name {
            Some(&variable.value)
        } else {
            None
        }
    }

    /// The value of the variable in a slot, if it has this name, and neither reads from a unit nor writes to one.
    #[inline(always)]
    pub fn silent(&self, name: &Text, slot: u32) -> Option<&Value>
        ensures value { IfSome result (λ value. (io : Io)
            → fetch_op (target.Variable name.now) (world_of self.now io)
            ≡ Gives (value_of value.now) (world_of self.now io)) }
        ensures plain { IfSome result (λ _. IsPlain (target.Variable name.now) slot self.now) }
        ensures held { IfSome result (λ value. Holds slot value.now self.now) }
    {
        let (key, variable) = self.variables.get_index(slot as usize)?;
        let None = variable.output else {
            return None;
        };
        let None = variable.input else {
            return None;
        };
        if *key == *name {
            Some(&variable.value)
        } else {
            None
        }
    }

    /// Whether the variable in a slot has this name and writes to no unit.
    #[inline(always)]
    pub fn takes(&self, name: &Text, slot: u32) -> bool
        ensures { result ≡ true → IsPlain (target.Variable name.now) slot self.now }
    {
        let Some((key, variable)) = self.variables.get_index(slot as usize) else {
            return false;
        };
        match variable.output {
            None => *key == *name,
            Some(_) => false,
        }
    }

    /// Whether the variable of a name stands in a slot and writes to no unit.
    #[inline(always)]
    pub fn is_plain(&self, name: &Name, slot: u32) -> bool
        ensures { result ≡ true → IsPlain (name_of name.now) slot self.now }
    {
        match (name, self.variables.get_index(slot as usize)) {
            (Name::Variable(name), Some((key, variable))) => {
                variable.output.is_none() && *key == *name
            }
            _ => false,
        }
    }
}
