//! Calls of functions that DEFINE made: what a call saves, and what it gives back.

ghost use Rattle.std.specs.Prelude.{◌≡◌, ◌+◌, ◌-◌, ◌<◌, ◌≤◌, ◌++◌, ◌∷◌, ℕ, [], map, length, take, drop, get_or};
ghost use Rattle.std.specs.Prelude.{true, option_map, Some, IfOk, OnOk};
ghost use Rattle.model.specs.Language.Io.{Io};
ghost use Rattle.model.specs.Language.Calls.{as_name, back_to_caller, bind_arguments, enter_call, leave_op};
ghost use Rattle.model.specs.Language.Calls.{AValue, restore};
ghost use Rattle.model.specs.Language.Calls as calls;
ghost use Rattle.model.specs.Language.Conversions.{Gives};
ghost use Rattle.model.specs.Language.Prototypes.{are_distinct};
ghost use Rattle.model.specs.Machine.Steps.{MW, PCode};
ghost use Rattle.model.specs.declared.run.Stop.TheVariants.{NoMemory};
ghost use Rattle.pattern_compiler.specs.View.{name_of};
ghost use Rattle.prototypes.specs.Views.{names_of};
ghost use Rattle.values.specs.Answers.{answer_map, op_of, AnswersOrFails, IfStopped};
ghost use Rattle.values.specs.Arguments.{AreFilled, ArePut};
ghost use Rattle.world.specs.Calling.{AreSaved, IsKept, LeavesTo, given_of, kept_with, saved_as, saved_below};
ghost use Rattle.world.specs.declared.calls.Given.TheVariants as given;
ghost use Rattle.world.specs.Held.{value_in, variable_at, world_of};
ghost use Rattle.world.specs.Slots.{AreSlotsOf, HasSlots, KeptStands};
ghost use Rattle.values.specs.Values.{value_of};

use crate::world::World;
use model::{ErrorCode, ReturnKind};
use pattern_compiler::Name;
use prototypes::FunctionPrototype;
use std::alloc::{AllocError, Global};
use strings::Text;
use values::{Fault, NO_SLOT, Value, put_values, slot_at};

/// What a call keeps for its end, beside the values that it saved.
pub struct Kept {
    pub prototype: FunctionPrototype,
    /// `&STNO` of the caller.
    pub statement: i64,
    /// `&FNCLEVEL` of the caller.
    pub level: i64,
}

impl Drop for Kept {
    fn drop(self) {
        let Kept {
            prototype: _,
            statement: _,
            level: _,
        } = self;
    }
}

/// What a call gave.
#[derive(Drop)]
pub enum Given {
    Value(Value),
    Name(Name),
}

impl Given {
    /// The name, where one is wanted; a value is none.
    pub fn into_name(self) -> Result<Name, ErrorCode>
        ensures { (w : MW) → op_of (answer_map name_of result) w ≡ as_name (given_of self) w }
    {
        match self {
            Given::Name(name) => Ok(name),
            Given::Value(_value) => Err(ErrorCode::NotAName),
        }
    }
}

impl World {
    // A variable's value, which is null at first.
    fn value(&self, name: &Text, slot: u32) -> Result<Value, AllocError>
        ensures { IfOk result (λ value. value_of value ≡ value_in (variable_at name.now self.now.variables)) }
    {
        match self.variable(name, slot) {
            Some(variable) => variable.value.clone(),
            None => Ok(Value::null()),
        }
    }

    // Exchanges the values of variables with those from a place on, one after the other. Reads no unit.
    #[inline(always)]
    fn exchange_all(
        &mut self,
        names: &[Text],
        slots: &[u32],
        base: usize,
        values: &mut Vec<Value>,
    ) -> Result<(), AllocError>
        requires distinct { are_distinct names.now ≡ true }
        requires slots { AreSlotsOf names.now slots.now self.old.names }
        requires count { base + length names.now ≡ length values.old.items }
        ensures set { OnOk result ((io : Io) → world_of self.new io
            ≡ bind_arguments names.now (map value_of (drop base values.old.items)) (world_of self.old io)) }
        ensures had { OnOk result
            (AreSaved names.now (take base values.old.items) values.new.items self.old) }
        ensures names { self.new.names ≡ self.old.names }
    {
        for (number, name) in names.iter().enumerate() {
            self.exchange(name, slot_at(slots, number), &mut values[base + number])?;
        }
        Ok(())
    }

    // Gives variables the values at the end, which are taken off there, the last one first. Tells what the first variable
    // had.
    #[inline(always)]
    fn give_back(
        &mut self,
        names: &[Text],
        slots: &[u32],
        saved: &mut Vec<Value>,
    ) -> Result<Value, AllocError>
        requires distinct { are_distinct names.now ≡ true }
        requires slots { AreSlotsOf names.now slots.now self.old.names }
        requires some { 0 < length names.now }
        requires count { length names.now ≤ length saved.old.items }
        ensures values { OnOk result
            (saved.new.items ≡ take (length saved.old.items - length names.now) saved.old.items) }
        ensures set { OnOk result ((io : Io) → world_of self.new io
            ≡ restore (saved_as names.now (drop (length saved.old.items - length names.now) saved.old.items))
            (world_of self.old io)) }
        ensures had { IfOk result (λ had.
            value_of had ≡ value_in (variable_at (get_or names.now 0 []) self.old.variables)) }
        ensures names { self.new.names ≡ self.old.names }
    {
        let mut left = names.len() - 1;
        while left > 0 {
            self.give_last(&names[left], slot_at(slots, left), saved)?;
            left -= 1;
        }
        let Some(value) = saved.pop() else {
            unreachable!()
        };
        self.replace_value(&names[0], slot_at(slots, 0), value)
    }

    /// Begins a call: puts the values that it changes at the end of `saved`, and gives each argument its value, which
    /// is moved. Reads no unit. Without memory the keywords stay as they were.
    #[inline(always)]
    pub fn enter_call(
        &mut self,
        prototype: FunctionPrototype,
        arguments: &mut Vec<Value>,
        saved: &mut Vec<Value>,
    ) -> Result<Kept, AllocError>
        requires { HasSlots self.old.names prototype }
        ensures entered { OnOk result ((io : Io)
            → world_of self.new io
            ≡ enter_call prototype.name prototype.arguments prototype.locals
            (map value_of arguments.old.items) (world_of self.old io)) }
        ensures kept { IfOk result (λ kept. IsKept kept prototype saved.old.items saved.new.items self.old) }
        ensures names { self.new.names ≡ self.old.names }
    {
        let statement = self.statement();
        let level = self.level();
        let base = saved.len();
        put_values(&prototype, arguments, saved)?;
        self.exchange_all(prototype.names(), prototype.slots(), base, saved)?;
        self.deepen();
        Ok(Kept {
            prototype,
            statement,
            level,
        })
    }

    /// `enter_call` with one argument, of a function that takes any.
    #[inline(always)]
    pub fn enter_call_with(
        &mut self,
        prototype: FunctionPrototype,
        argument: Value,
        saved: &mut Vec<Value>,
    ) -> Result<Kept, AllocError>
        requires slots { HasSlots self.old.names prototype }
        requires some { 0 < length prototype.arguments }
        ensures entered { OnOk result ((io : Io)
            → world_of self.new io
            ≡ enter_call prototype.name prototype.arguments prototype.locals
            (value_of argument ∷ []) (world_of self.old io)) }
        ensures kept { IfOk result (λ kept. IsKept kept prototype saved.old.items saved.new.items self.old) }
        ensures names { self.new.names ≡ self.old.names }
    {
        let statement = self.statement();
        let level = self.level();
        let names = prototype.names();
        let slots = prototype.slots();
        self.save(&names[0], slot_at(slots, 0), Value::null(), saved)?;
        self.save(&names[1], slot_at(slots, 1), argument, saved)?;
        for number in 2..names.len() {
            self.save(&names[number], slot_at(slots, number), Value::null(), saved)?;
        }
        self.deepen();
        Ok(Kept {
            prototype,
            statement,
            level,
        })
    }

    /// `enter_call` with two arguments, of a function that takes them.
    #[inline(always)]
    pub fn enter_call_with_two(
        &mut self,
        prototype: FunctionPrototype,
        first: Value,
        second: Value,
        saved: &mut Vec<Value>,
    ) -> Result<Kept, AllocError>
        requires slots { HasSlots self.old.names prototype }
        requires some { 1 < length prototype.arguments }
        ensures entered { OnOk result ((io : Io)
            → world_of self.new io
            ≡ enter_call prototype.name prototype.arguments prototype.locals
            (value_of first ∷ value_of second ∷ []) (world_of self.old io)) }
        ensures kept { IfOk result (λ kept. IsKept kept prototype saved.old.items saved.new.items self.old) }
        ensures names { self.new.names ≡ self.old.names }
    {
        let statement = self.statement();
        let level = self.level();
        let names = prototype.names();
        let slots = prototype.slots();
        self.save(&names[0], slot_at(slots, 0), Value::null(), saved)?;
        self.save(&names[1], slot_at(slots, 1), first, saved)?;
        self.save(&names[2], slot_at(slots, 2), second, saved)?;
        for number in 3..names.len() {
            self.save(&names[number], slot_at(slots, number), Value::null(), saved)?;
        }
        self.deepen();
        Ok(Kept {
            prototype,
            statement,
            level,
        })
    }

    // The name that the end of a call gives.
    fn name_given(&self, alloc: Global, name: &Text, slot: u32) -> Result<Name, Fault>
        ensures given { (io : Io) (c : calls.Kept PCode ℕ) → c.name ≡ name.now
            → LeavesTo (answer_map (λ n. Some (given.Name n)) result) (world_of self.now io)
            (back_to_caller ReturnKind.NReturn c (world_of self.now io))
            (leave_op ReturnKind.NReturn c (world_of self.now io)) }
        ensures stop { IfStopped result (λ stop. stop ≡ NoMemory) }
    {
        match self.value(name, slot)?.to_name(alloc) {
            Ok(name) => Ok(name),
            Err(Fault::Error(_)) => Err(Fault::Error(ErrorCode::NotAName)),
            Err(stop) => Err(stop),
        }
    }

    // The world of the caller, and what the function's name had.
    #[inline(always)]
    fn back(
        &mut self,
        kind: ReturnKind,
        kept: &Kept,
        saved: &mut Vec<Value>,
    ) -> Result<Value, AllocError>
        requires { KeptStands self.old.names kept.now }
        ensures values { OnOk result
            (saved.new.items ≡ saved_below (names_of kept.now.prototype) saved.old.items) }
        ensures back { OnOk result ((io : Io)
            → world_of self.new io ≡ back_to_caller kind (kept_with kept.now saved.old.items) (world_of self.old io)) }
        ensures had { IfOk result (λ had.
            value_of had ≡ value_in (variable_at kept.now.prototype.name self.old.variables)) }
        ensures names { self.new.names ≡ self.old.names }
    {
        let names = kept.prototype.names();
        let slots = kept.prototype.slots();
        let count = names.len().min(saved.len());
        if count == 0 {
            let had = self.value(kept.prototype.name(), slot_at(slots, 0))?;
            self.put_back(kind, kept.statement, kept.level);
            return Ok(had);
        }
        let had = self.give_back(&names[..count], slots, saved)?;
        self.put_back(kind, kept.statement, kept.level);
        Ok(had)
    }

    // Ends a call that gives a name, unless it can't.
    #[inline(never)]
    fn leave_by_name(
        &mut self,
        alloc: Global,
        kept: &Kept,
        saved: &mut Vec<Value>,
    ) -> Result<Option<Given>, Fault>
        requires { KeptStands self.old.names kept.now }
        ensures values { OnOk result
            (saved.new.items ≡ saved_below (names_of kept.now.prototype) saved.old.items) }
        ensures left { (io : Io) → AnswersOrFails (answer_map (option_map given_of) result) (world_of self.new io)
            (leave_op ReturnKind.NReturn (kept_with kept.now saved.old.items) (world_of self.old io)) }
        ensures stop { IfStopped result (λ stop. stop ≡ NoMemory) }
        ensures names { self.new.names ≡ self.old.names }
    {
        let slot = slot_at(kept.prototype.slots(), 0);
        let name = self.name_given(alloc, kept.prototype.name(), slot)?;
        self.back(ReturnKind::NReturn, kept, saved)?;
        Ok(Some(Given::Name(name)))
    }

    /// Ends a call: takes what it saved off the end of `saved`, and returns what it gives, or `None` if it failed.
    /// Where it should give a name and can't, nothing changes.
    pub fn leave(
        &mut self,
        alloc: Global,
        kind: ReturnKind,
        kept: &Kept,
        saved: &mut Vec<Value>,
    ) -> Result<Option<Given>, Fault>
        requires { KeptStands self.old.names kept.now }
        ensures values { OnOk result
            (saved.new.items ≡ saved_below (names_of kept.now.prototype) saved.old.items) }
        ensures left { (io : Io) → AnswersOrFails (answer_map (option_map given_of) result) (world_of self.new io)
            (leave_op kind (kept_with kept.now saved.old.items) (world_of self.old io)) }
        ensures stop { IfStopped result (λ stop. stop ≡ NoMemory) }
        ensures names { self.new.names ≡ self.old.names }
    {
        if let ReturnKind::NReturn = kind {
            return self.leave_by_name(alloc, kept, saved);
        }
        let value = self.back(kind, kept, saved)?;
        match kind {
            ReturnKind::Return => Ok(Some(Given::Value(value))),
            ReturnKind::FReturn => Ok(None),
            ReturnKind::NReturn => unreachable!(),
        }
    }

    /// Ends a call by RETURN, where a value is wanted, as `leave` does: returns what it gives.
    #[inline(always)]
    pub fn leave_with_value(
        &mut self,
        kept: &Kept,
        saved: &mut Vec<Value>,
    ) -> Result<Value, AllocError>
        requires { KeptStands self.old.names kept.now }
        ensures values { OnOk result
            (saved.new.items ≡ saved_below (names_of kept.now.prototype) saved.old.items) }
        ensures left { IfOk result (λ value. (io : Io)
            → leave_op ReturnKind.Return (kept_with kept.now saved.old.items) (world_of self.old io)
            ≡ Gives (AValue (value_of value)) (world_of self.new io)) }
        ensures names { self.new.names ≡ self.old.names }
    {
        let value = self.back(ReturnKind::Return, kept, saved)?;
        Ok(value)
    }
}
