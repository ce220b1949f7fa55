//! The world of a run.

ghost use Rattle.std.specs.Prelude.{◌≡◌, ◌<◌, ◌≤◌, ◌+◌, ◌∷◌, ◌++◌, ℕ, [], take, drop, length, pos, Some, None, is_some};
ghost use Rattle.std.specs.Prelude.{IfOk, true, false, OnOk, OnErr, slice_get, if◌then◌else◌};
ghost use Rattle.std.specs.Map.{keys_of};
ghost use Rattle.model.specs.Deck.Target as target;
ghost use Rattle.model.specs.Deck.Trees.{Bytes};
ghost use Rattle.model.specs.Language.Conversions.{Gives};
ghost use Rattle.model.specs.Language.Io.{Io};
ghost use Rattle.model.specs.Language.Operators.{assign_op, fetch_op};
ghost use Rattle.model.specs.Language.Values.{Str, set_var};
ghost use Rattle.model.specs.Language.Primitives.{set_reads, set_writes};
ghost use Rattle.model.specs.Language.Keywords.{key_value};
ghost use Rattle.model.specs.Laws.Agreement.{first_m};
ghost use Rattle.model.specs.Laws.PrintedBefore.{after_w};
ghost use Rattle.values.specs.Values.{value_of};
ghost use Rattle.world.specs.Held.{world_of, IsPlain, name_at, zero_in, variable_at, value_in};
ghost use Rattle.world.specs.Held.{Holds, IsLeftOf, StaySilent};
ghost use Rattle.world.specs.Held.{input_in, output_in};
ghost use Rattle.world.specs.Calling.{AreSaved};
ghost use Rattle.world.specs.Slots.{IsSlotOf};
ghost use Rattle.world.specs.Held.{with_variable, pattern_variable, first_patterns, first_variables};
ghost use Rattle.values.specs.declared.value.Value.TheVariants.{String};
ghost use Rattle.values.specs.declared.value.Value.{Value};
ghost use Rattle.values.specs.declared.variable.Variable.{Variable};

use heap::Heap;
use indexmap::IndexMap;
use keywords::{KeyValue, Keywords};
use model::{KeyId, Level};
use pattern_compiler::{Basic, Name, PatCode, Pattern};
use std::alloc::{AllocError, Global};
use std::marker::Model;
use std::mem;
use strings::Text;
use values::{FunctionTable, NO_SLOT, Value, Variable};

/// What a run holds besides what stands on its units.
pub struct World {
    pub(crate) variables: IndexMap<Text, Variable>,
    pub(crate) heap: Heap<Value>,
    pub(crate) functions: FunctionTable,
    pub(crate) keywords: Keywords,
    // Of the module that runs.
    level: Level,
    // Of the variables in the first slots, which never leave them.
    pub(crate) names: Vec<Text>,
}

impl Drop for World {
    fn drop(self) {
        let World {
            variables: _,
            heap: _,
            functions: _,
            keywords: _,
            level: _,
            names: _,
        } = self;
    }
}

impl Model for World {
    ghost use Rattle.world.specs.Held.{AreNamed, WorldView};
    ghost use Rattle.world.specs.Slots.{FunctionsStand};

    ghost Value = { WorldView };

    ghost view = { λ w. record {
      variables = w.variables.entries;
      objects = w.heap;
      functions = w.functions;
      keys = w.keywords;
      level = w.level;
      names = w.names.items;
    } };

    ghost invariant = { λ w.
        AreNamed w.names.items w.variables.entries × FunctionsStand w.names.items w.functions };
}

impl World {
    /// The world as a run of a module of a level begins.
    pub fn new(alloc: Global, level: Level) -> Result<World, AllocError>
        ensures { IfOk result (λ world.
            (io : Io) → world_of world io ≡ after_w io.printed (first_m level io.left)) }
    {
        let Ok(keywords) = Keywords::new(alloc) else {
            return Err(AllocError);
        };
        let mut world = World {
            variables: IndexMap::new(alloc),
            heap: Heap::new(alloc),
            functions: FunctionTable::new(alloc),
            keywords,
            level,
            names: Vec::new(alloc),
        };
        world.put_patterns(alloc)?;
        world.put_units(alloc)?;
        Ok(world)
    }

    /// The level of the module that runs.
    pub fn module_level(&self) -> Level
        ensures { result ≡ self.now.level }
    {
        self.level
    }

    /// The longest string that `&MAXLNGTH` allows.
    pub fn longest(&self) -> usize
        ensures { self.now.keys.maxlngth ≡ pos result }
    {
        self.keywords.longest()
    }

    // The variables that hold patterns at first.
    fn put_patterns(&mut self, alloc: Global) -> Result<(), AllocError>
        requires { self.old.variables ≡ [] }
        ensures { OnOk result (self.new ≡ record self.old { variables = first_patterns }) }
    {
        self.put_pattern(alloc, b"ARB", PatCode::prim(alloc, Basic::Arb)?)?;
        self.put_pattern(alloc, b"BAL", PatCode::prim(alloc, Basic::Bal)?)?;
        self.put_pattern(alloc, b"REM", PatCode::prim(alloc, Basic::Rem)?)?;
        self.put_pattern(alloc, b"FAIL", PatCode::prim(alloc, Basic::Fail)?)?;
        self.put_pattern(alloc, b"SUCCEED", PatCode::succeed(alloc)?)?;
        self.put_pattern(alloc, b"ABORT", PatCode::abort(alloc)?)?;
        self.put_pattern(alloc, b"FENCE", PatCode::fence(alloc)?)
    }

    // The variables that have units at first.
    fn put_units(&mut self, alloc: Global) -> Result<(), AllocError>
        requires { self.old.variables ≡ first_patterns }
        ensures { OnOk result (self.new ≡ record self.old { variables = first_variables }) }
    {
        self.put(alloc, b"INPUT", Variable::on_units(Some(5), None))?;
        self.put(alloc, b"OUTPUT", Variable::on_units(None, Some(6)))?;
        self.put(alloc, b"PUNCH", Variable::on_units(None, Some(7)))
    }

    fn put_pattern(&mut self, alloc: Global, name: &[u8], code: PatCode) -> Result<(), AllocError>
        ensures { OnOk result (self.new ≡ with_variable name.now (pattern_variable code) self.old) }
    {
        self.put(
            alloc,
            name,
            Variable::holding(Value::Pattern(Pattern::of(code))),
        )
    }

    fn put(&mut self, alloc: Global, name: &[u8], variable: Variable) -> Result<(), AllocError>
        ensures { OnOk result (self.new ≡ with_variable name.now variable self.old) }
    {
        let Ok(name) = Text::from_slice(alloc, name) else {
            return Err(AllocError);
        };
        let _old = self.variables.insert(name, variable)?;
        Ok(())
    }

    /// Puts a variable in with a null value, unless it is there; no meaning sees that. Gives its slot, which it keeps.
    pub fn enter(&mut self, name: &Text) -> Result<u32, AllocError>
        ensures slot { IfOk result (λ slot. name_at slot self.new.variables ≡ Some name.now) }
        ensures unseen { (io : Io) → world_of self.new io ≡ world_of self.old io }
        ensures err { OnErr result (self.new ≡ self.old) }
        ensures names { self.new.names ≡ self.old.names }
    {
        if let Some(slot) = self.slot(name, NO_SLOT) {
            let Ok(slot) = u32::try_from(slot) else {
                return Err(AllocError);
            };
            return Ok(slot);
        }
        let Ok(slot) = u32::try_from(self.variables.len()) else {
            return Err(AllocError);
        };
        let variable = Variable::holding(Value::null());
        let _none = self.variables.insert(name.clone()?, variable)?;
        Ok(slot)
    }

    /// Where memory comes from.
    pub fn alloc(&self) -> Global {
        *self.variables.allocator()
    }

    /// From now on each variable that is there keeps its slot, which `names` says. No meaning sees that.
    pub fn keep_slots(&mut self) -> Result<(), AllocError>
        ensures names { OnOk result (self.new.names ≡ keys_of self.old.variables) }
        ensures variables { self.new.variables ≡ self.old.variables }
        ensures unseen { (io : Io) → world_of self.new io ≡ world_of self.old io }
        ensures err { OnErr result (self.new ≡ self.old) }
    {
        let names = names_in(self.alloc(), &self.variables)?;
        self.names = names;
        Ok(())
    }

    /// Gives the variable in a slot another value, and returns no unit. What writes to no unit writes to none after it.
    #[inline(always)]
    pub fn set_plain(&mut self, slot: u32, value: Value)
        ensures set { (name : target.Name) → IsPlain name slot self.old → (io : Io)
            → assign_op name (value_of value) (world_of self.old io)
            ≡ Gives (record {}) (world_of self.new io) }
        ensures others { (name other : target.Name) (at : ℕ) → IsPlain name slot self.old
            → IsPlain other at self.old → IsPlain other at self.new }
        ensures silent { StaySilent self.old self.new }
        ensures apart { (at : ℕ) (u : Value) → (at ≡ slot → ⊥) → Holds at u self.old → Holds at u self.new }
        ensures keys { self.new.keys ≡ self.old.keys }
        ensures names { self.new.names ≡ self.old.names }
    {
        let Some(variable) = self.variables.get_index_mut(slot as usize) else {
            return;
        };
        variable.set(value);
    }

    /// Puts two texts behind the string of a variable that neither reads from a unit nor writes to one, in place in its
    /// slot; whether that is made, or else nothing changes. Made in one string of so many bytes at most, and, where that is
    /// asked for, behind another one than the null string.
    #[inline(always)]
    pub fn append_in_place(
        &mut self,
        alloc: Global,
        name: &Text,
        slot: u32,
        one: &Text,
        two: &Text,
        filled: bool,
        limit: usize,
    ) -> bool
        ensures made { result ≡ true → (u : Bytes)
            × ((io : Io) → fetch_op (target.Variable name.now) (world_of self.old io)
            ≡ Gives (Str u) (world_of self.old io))
            × (length u + (length one.now + length two.now) ≤ limit)
            × (filled ≡ true → 0 < length u)
            × ((io : Io) → assign_op (target.Variable name.now) (Str ((u ++ one.now) ++ two.now)) (world_of self.old io)
            ≡ Gives (record {}) (world_of self.new io)) }
        ensures kept { result ≡ false → self.new ≡ self.old }
        ensures names { self.new.names ≡ self.old.names }
    {
        let Some(Value::String(text)) = self.silent(name, slot) else {
            return false;
        };
        let front = text.len();
        let middle = one.len();
        let back = two.len();
        if filled && front == 0 {
            return false;
        }
        if front > limit || middle > limit - front || back > limit - front - middle {
            return false;
        }
        let Some(found) = self.variables.get_index_mut(slot as usize) else {
            return false;
        };
        found.append_in_place(alloc, one, two)
    }

    /// `append_in_place` of the variable in a slot that it keeps.
    #[inline(always)]
    pub fn append_in_slot(
        &mut self,
        alloc: Global,
        slot: u32,
        one: &Text,
        two: &Text,
        filled: bool,
        limit: usize,
    ) -> bool
        requires { slot < length self.old.names }
        ensures made { result ≡ true → (x : Bytes) → slice_get self.old.names slot ≡ Some x → (u : Bytes)
            × ((io : Io) → fetch_op (target.Variable x) (world_of self.old io)
            ≡ Gives (Str u) (world_of self.old io))
            × (length u + (length one.now + length two.now) ≤ limit)
            × (filled ≡ true → 0 < length u)
            × ((io : Io) → assign_op (target.Variable x) (Str ((u ++ one.now) ++ two.now)) (world_of self.old io)
            ≡ Gives (record {}) (world_of self.new io)) }
        ensures kept { result ≡ false → self.new ≡ self.old }
        ensures names { self.new.names ≡ self.old.names }
    {
        let Some(Value::String(text)) = self.silent_in(slot) else {
            return false;
        };
        let front = text.len();
        let middle = one.len();
        let back = two.len();
        if filled && front == 0 {
            return false;
        }
        if front > limit || middle > limit - front || back > limit - front - middle {
            return false;
        }
        let Some(found) = self.variables.get_index_mut(slot as usize) else {
            return false;
        };
        found.append_in_place(alloc, one, two)
    }

    /// Whether what is left of a subject without its front is no longer than `&MAXLNGTH` allows.
    #[inline(always)]
    pub fn may_cut(&self, subject: &Text, count: usize) -> bool
        ensures left { result ≡ true → IsLeftOf subject.now 0 count (String (drop count subject.now)) self.now }
        ensures within { result ≡ true → count ≤ length subject.now }
    {
        let len = subject.len();
        count <= len && len - count <= self.longest()
    }

    /// Takes bytes off the front of the string in a slot.
    #[inline(always)]
    pub fn cut_front(&mut self, slot: u32, count: usize)
        ensures set { (u : Bytes) (name : target.Name) → Holds slot (String u) self.old → count ≤ length u
            → IsPlain name slot self.old → (io : Io)
            → assign_op name (Str (drop count u)) (world_of self.old io) ≡ Gives (record {}) (world_of self.new io) }
        ensures names { self.new.names ≡ self.old.names }
    {
        let Some(found) = self.variables.get_index_mut(slot as usize) else {
            return;
        };
        found.cut_front(count);
    }

    /// Takes a byte out of the string in a slot, if that is one of few.
    #[inline(always)]
    pub fn take_byte(&mut self, slot: u32, place: usize)
        ensures set { (u : Bytes) (name : target.Name) → Holds slot (String u) self.old → place < length u
            → length u ≤ 22 → IsPlain name slot self.old → (io : Io)
            → assign_op name (Str (take place u ++ drop (place + 1) u)) (world_of self.old io)
            ≡ Gives (record {}) (world_of self.new io) }
        ensures names { self.new.names ≡ self.old.names }
    {
        let Some(found) = self.variables.get_index_mut(slot as usize) else {
            return;
        };
        found.take_byte(place);
    }

    /// The unit that a variable reads from, unless `&INPUT` is 0.
    #[inline]
    pub fn reads(&self, variable: &Variable) -> Option<u8>
        ensures { result ≡ (if zero_in
            (key_value KeyId.Input self.now.keys) then None else variable.now.input) }
    {
        let unit = variable.input?;
        if is_zero(&self.keywords, KeyId::Input) {
            None
        } else {
            Some(unit)
        }
    }

    // Puts a variable in that isn't there.
    #[cold]
    #[inline(never)]
    fn set_new(&mut self, name: &Text, value: Value) -> Result<(), AllocError>
        requires { is_some (variable_at name.now self.old.variables) ≡ false }
        ensures set { OnOk result
            ((io : Io) → world_of self.new io
            ≡ set_var name.now (value_of value) (world_of self.old io)) }
        ensures err { OnErr result (self.new ≡ self.old) }
        ensures names { self.new.names ≡ self.old.names }
    {
        let variable = Variable::holding(value);
        let _none = self.variables.insert(name.clone()?, variable)?;
        Ok(())
    }

    /// Gives a variable another value, and returns the unit that it writes to.
    pub fn set(&mut self, name: &Text, slot: u32, value: Value) -> Result<Option<u8>, AllocError>
        ensures set { OnOk result
            ((io : Io) → world_of self.new io
            ≡ set_var name.now (value_of value) (world_of self.old io)) }
        ensures output { IfOk result (λ unit.
            unit ≡ output_in (variable_at name.now self.old.variables)) }
        ensures err { OnErr result (self.new ≡ self.old) }
        ensures names { self.new.names ≡ self.old.names }
    {
        let Some(at) = self.slot(name, slot) else {
            self.set_new(name, value)?;
            return Ok(None);
        };
        match self.variables.get_index_mut(at) {
            Some(variable) => {
                variable.set(value);
                Ok(variable.output)
            }
            None => unreachable!(),
        }
    }

    // Puts a variable in that isn't there, with a value which becomes null.
    #[cold]
    #[inline(never)]
    fn exchange_new(&mut self, name: &Text, value: &mut Value) -> Result<(), AllocError>
        requires { is_some (variable_at name.now self.old.variables) ≡ false }
        ensures set { OnOk result
            ((io : Io) → world_of self.new io
            ≡ set_var name.now (value_of value.old) (world_of self.old io)) }
        ensures had { value_of value.new ≡ value_in (variable_at name.now self.old.variables) }
        ensures names { self.new.names ≡ self.old.names }
    {
        let new = mem::replace(value, Value::null());
        self.set_new(name, new)
    }

    /// Gives a variable another value, which becomes the one that it had. Tells no unit.
    #[inline(always)]
    pub(crate) fn exchange(
        &mut self,
        name: &Text,
        slot: u32,
        value: &mut Value,
    ) -> Result<(), AllocError>
        requires { IsSlotOf name.now slot self.old.names }
        ensures set { OnOk result
            ((io : Io) → world_of self.new io
            ≡ set_var name.now (value_of value.old) (world_of self.old io)) }
        ensures had { OnOk result
            (value_of value.new ≡ value_in (variable_at name.now self.old.variables)) }
        ensures names { self.new.names ≡ self.old.names }
    {
        let Some(at) = self.known_slot(name, slot) else {
            return self.exchange_new(name, value);
        };
        match self.variables.get_index_mut(at) {
            Some(variable) => variable.exchange(value),
            None => unreachable!(),
        }
        Ok(())
    }

    /// Puts the value of a variable at the end, and gives the variable another one. Tells no unit.
    #[inline(always)]
    pub(crate) fn save(
        &mut self,
        name: &Text,
        slot: u32,
        value: Value,
        saved: &mut Vec<Value>,
    ) -> Result<(), AllocError>
        requires { IsSlotOf name.now slot self.old.names }
        ensures set { OnOk result
            ((io : Io) → world_of self.new io
            ≡ set_var name.now (value_of value) (world_of self.old io)) }
        ensures had { OnOk result (AreSaved (name.now ∷ []) saved.old.items saved.new.items self.old) }
        ensures names { self.new.names ≡ self.old.names }
    {
        if saved.len() >= saved.capacity() {
            saved.reserve(1)?;
        }
        let Some(at) = self.known_slot(name, slot) else {
            saved.push_reserved(Value::null());
            return self.set_new(name, value);
        };
        match self.variables.get_index_mut(at) {
            Some(variable) => saved.push_reserved(variable.replace(value)),
            None => unreachable!(),
        }
        Ok(())
    }

    /// Gives a variable another value, and returns the one that it had, and no unit.
    #[inline(always)]
    pub(crate) fn replace_value(
        &mut self,
        name: &Text,
        slot: u32,
        value: Value,
    ) -> Result<Value, AllocError>
        requires { IsSlotOf name.now slot self.old.names }
        ensures set { OnOk result
            ((io : Io) → world_of self.new io
            ≡ set_var name.now (value_of value) (world_of self.old io)) }
        ensures had { IfOk result (λ had.
            value_of had ≡ value_in (variable_at name.now self.old.variables)) }
        ensures names { self.new.names ≡ self.old.names }
    {
        let Some(at) = self.known_slot(name, slot) else {
            self.set_new(name, value)?;
            return Ok(Value::null());
        };
        match self.variables.get_index_mut(at) {
            Some(variable) => Ok(variable.replace(value)),
            None => unreachable!(),
        }
    }

    /// Gives a variable the last value, which is taken off once it is known where the variable stands. Tells no unit.
    #[inline(always)]
    pub(crate) fn give_last(
        &mut self,
        name: &Text,
        slot: u32,
        saved: &mut Vec<Value>,
    ) -> Result<(), AllocError>
        requires slot { IsSlotOf name.now slot self.old.names }
        requires some { 0 < length saved.old.items }
        ensures set { OnOk result ((value : Value) × (saved.old.items ≡ saved.new.items ++ value ∷ [])
            × ((io : Io) → world_of self.new io
            ≡ set_var name.now (value_of value) (world_of self.old io))) }
        ensures names { self.new.names ≡ self.old.names }
    {
        let Some(at) = self.known_slot(name, slot) else {
            let Some(value) = saved.pop() else {
                unreachable!()
            };
            return self.set_new(name, value);
        };
        match self.variables.get_index_mut(at) {
            Some(variable) => {
                let Some(last) = saved.pop() else {
                    unreachable!()
                };
                variable.set(last);
            }
            None => unreachable!(),
        }
        Ok(())
    }

    /// The units that a variable reads from and writes to.
    pub(crate) fn units(&self, name: &Text) -> (Option<u8>, Option<u8>)
        ensures { result ≡ (
          input_in (variable_at name.now self.now.variables),
          output_in
              (variable_at name.now self.now.variables),
        ) }
    {
        match self.variables.get(name) {
            Some(variable) => (variable.input, variable.output),
            None => (None, None),
        }
    }

    /// Gives a variable other units.
    pub(crate) fn set_units(
        &mut self,
        name: &Text,
        input: Option<u8>,
        output: Option<u8>,
    ) -> Result<(), AllocError>
        ensures set { OnOk result
            ((io : Io) → world_of self.new io
            ≡ set_writes name.now output (set_reads name.now input (world_of self.old io))) }
        ensures err { OnErr result (self.new ≡ self.old) }
        ensures names { self.new.names ≡ self.old.names }
    {
        if let Some(variable) = self.variables.get_mut(name) {
            variable.set_units(input, output);
            return Ok(());
        }
        let variable = Variable::on_units(input, output);
        let _none = self.variables.insert(name.clone()?, variable)?;
        Ok(())
    }
}

// The names of variables, in their order.
fn names_in(alloc: Global, variables: &IndexMap<Text, Variable>) -> Result<Vec<Text>, AllocError>
    ensures { IfOk result (λ names. names.items ≡ keys_of variables.now.entries) }
{
    let mut names = Vec::new(alloc);
    for at in 0..variables.len() {
        let Some((name, _variable)) = variables.get_index(at) else {
            unreachable!()
        };
        names.push(name.clone()?)?;
    }
    Ok(names)
}

/// Whether a keyword holds the integer 0.
pub fn is_zero(keywords: &Keywords, id: KeyId) -> bool
    ensures { result ≡ zero_in (key_value id keywords.now) }
{
    match keywords.get(id) {
        KeyValue::Integer(n) => n == 0,
        KeyValue::Text(_) => false,
    }
}
