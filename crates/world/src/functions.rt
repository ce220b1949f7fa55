//! Functions that aren't primitive.

ghost use Rattle.std.specs.Prelude.{◌≡◌, [], cond, bytes_eq, option_map, Some, IfOk, IfSome, OnOk, OnErr};
ghost use Rattle.std.specs.Option.{option_copied, option_or};
ghost use Rattle.model.specs.Language.Io.{Io};
ghost use Rattle.indexmap.specs.IndexMap.{IsUnique};
ghost use Rattle.model.specs.Deck.Trees.{Bytes};
ghost use Rattle.model.specs.Language.Values.{Str};
ghost use Rattle.model.specs.Language.Conversions.{Gives};
ghost use Rattle.model.specs.Language.Primitives.{define_op, entry_or, set_function};
ghost use Rattle.prototypes.specs.Views.{prototype_of};
ghost use Rattle.values.specs.Functions.{function_of, function_at, IsNamed, IfNamed};
ghost use Rattle.world.specs.Held.{world_of};
ghost use Rattle.world.specs.Slots.{AreSlotsOf, FunctionStands, FunctionsStand, HasSlots, IfStands};

use crate::world::World;
use indexmap::IndexMap;
use prototypes::{FunctionPrototype, TypePrototype};
use std::alloc::{AllocError, Global};
use strings::Text;
use values::{Function, slot_at};

// The label, or else the name.
fn label_or(entry: Option<Text>, name: &Text) -> Result<Text, AllocError>
    ensures { IfOk result (λ label. label ≡ entry_or name.now entry) }
{
    match entry {
        Some(label) => Ok(label),
        None => Ok(name.clone()?),
    }
}

impl World {
    /// The function of a name, if it has one that isn't primitive. The variable of the name may stand in the slot.
    pub fn function(&self, name: &Text, slot: u32) -> Result<Option<Function>, AllocError>
        ensures function { IfOk result (λ found. (io : Io)
            → option_map function_of found ≡ (world_of self.now io).plain.functions name.now) }
        ensures named { IfOk result (λ found. IfNamed name.now found) }
        ensures stands { IfOk result (λ found. IfStands self.now.names found) }
    {
        match self.functions.get(name, slot) {
            Some(function) => Ok(Some(function.clone()?)),
            None => Ok(None),
        }
    }

    /// The function of a name where it is held, if it has one that isn't primitive. The variable of the name may stand
    /// in the slot.
    #[inline(always)]
    pub fn held_function(&self, name: &Text, slot: u32) -> Option<&Function>
        ensures function { (io : Io)
            → option_map function_of (option_copied result) ≡ (world_of self.now io).plain.functions name.now }
        ensures named { IfSome result (λ f. IsNamed name.now f.now) }
        ensures stands { IfSome result (λ f. FunctionStands self.now.names f.now) }
    {
        self.functions.get(name, slot)
    }

    /// Gives a name another function.
    pub(crate) fn put_function(&mut self, name: Text, function: Function) -> Result<(), AllocError>
        requires named { IsNamed name function }
        requires stands { FunctionStands self.old.names function }
        ensures ok { OnOk result ((io : Io)
            → world_of self.new io ≡ set_function name (function_of function) (world_of self.old io)) }
        ensures err { OnErr result (self.new ≡ self.old) }
        ensures names { self.new.names ≡ self.old.names }
    {
        self.functions.put(name, function)
    }

    /// Puts the functions of a type in the places of those that have their names.
    pub fn append_functions(
        &mut self,
        functions: IndexMap<Text, Function>,
    ) -> Result<(), AllocError>
        requires unique { IsUnique bytes_eq functions }
        requires named { (x : Bytes) → IfNamed x (function_at x functions.entries) }
        requires stands { FunctionsStand self.old.names functions.entries }
        ensures ok { OnOk result ((x : Bytes) → function_at x self.new.functions
            ≡ option_or (function_at x functions.entries) (function_at x self.old.functions)) }
        ensures others { self.new ≡ record self.old { functions = self.new.functions } }
        ensures err { OnErr result (self.new ≡ self.old) }
    {
        self.functions.append(functions)
    }

    // The slots that names keep.
    fn slots_of(&self, names: &[Text]) -> Result<Vec<u32>, AllocError>
        ensures { IfOk result (λ slots. AreSlotsOf names.now slots.items self.now.names) }
    {
        let mut slots = Vec::new(self.alloc());
        for name in names {
            slots.push(self.kept_slot(name))?;
        }
        Ok(slots)
    }

    // Notes where the function of a name will stand, whose variable stands in a slot.
    fn note_function(&mut self, name: &Text, slot: u32) -> Result<(), AllocError>
        ensures { self.new ≡ self.old }
    {
        self.functions.note(name, slot)
    }

    /// Notes where the functions of a type stand: the one that makes its records, and those of its fields.
    pub fn note_type(&mut self, prototype: &TypePrototype)
        ensures { self.new ≡ self.old }
    {
        for field in prototype.fields() {
            let slot = self.slot_of(field);
            let _noted = self.note_function(field, slot);
        }
        let slot = self.slot_of(prototype.name());
        let _noted = self.note_function(prototype.name(), slot);
    }

    /// Notes the names of fields that a deck's types are expected to have. No meaning sees that.
    pub fn expect_fields(&mut self, fields: &[Text]) -> Result<(), AllocError>
        ensures { self.new ≡ self.old }
    {
        for field in fields {
            let slot = self.slot_of(field);
            self.functions.expect_field(slot)?;
        }
        Ok(())
    }

    /// Whether the variable in a slot has the name of a field that is expected.
    pub fn expects_field(&self, slot: u32) -> bool {
        self.functions.expects_field(slot)
    }

    // Makes a function, as `define` does.
    fn define_here(
        &mut self,
        entry: Option<Text>,
        prototype: FunctionPrototype,
    ) -> Result<(), AllocError>
        requires { HasSlots self.old.names prototype }
        ensures ok { OnOk result ((io : Io)
            → define_op entry (Some (prototype_of prototype)) (world_of self.old io)
            ≡ Gives (Str []) (world_of self.new io)) }
        ensures err { OnErr result (self.new ≡ self.old) }
        ensures names { self.new.names ≡ self.old.names }
    {
        let name = prototype.name().clone()?;
        let label = label_or(entry, &name)?;
        self.put_function(name, Function::Defined(label, prototype))
    }

    /// Makes a function, which begins at a label, or else at the label of its own name. Its prototype has no slots yet.
    pub fn define(
        &mut self,
        entry: Option<Text>,
        prototype: FunctionPrototype,
    ) -> Result<(), AllocError>
        requires { prototype.slots ≡ [] }
        ensures ok { OnOk result ((io : Io)
            → define_op entry (Some (prototype_of prototype)) (world_of self.old io)
            ≡ Gives (Str []) (world_of self.new io)) }
        ensures err { OnErr result (self.new ≡ self.old) }
        ensures names { self.new.names ≡ self.old.names }
    {
        let slots = self.slots_of(prototype.names())?;
        self.note_function(prototype.name(), slot_at(slots.as_slice(), 0))?;
        let prototype = prototype.with_slots(self.alloc(), slots)?;
        self.define_here(entry, prototype)
    }
}
