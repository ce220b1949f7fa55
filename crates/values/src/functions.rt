//! Functions that aren't primitive.

ghost use Rattle.std.specs.Prelude.{◌≡◌, [], cond, bytes_eq, Some, IfSome, OnOk, OnErr};
ghost use Rattle.std.specs.Option.{option_copied, option_or};
ghost use Rattle.indexmap.specs.IndexMap.{IsUnique};
ghost use Rattle.model.specs.Deck.Trees.{Bytes};
ghost use Rattle.values.specs.Functions.{function_at, IsNamed, IfNamed};

use crate::arguments::slot_at;
use crate::variable::NO_SLOT;
use aggregates::Names;
use indexmap::IndexMap;
use prototypes::FunctionPrototype;
use std::alloc::{AllocError, Global};
use std::marker::Model;
use strings::Text;

/// Stands for the place of the function of a name that is expected to be a field's.
const EXPECTED_FIELD: u32 = NO_SLOT - 1;

/// A function that isn't primitive. Its clones share its names.
#[derive(Drop)]
pub enum Function {
    /// Made by DEFINE: the label where it begins, and its prototype.
    Defined(Text, FunctionPrototype),
    /// Made by DATA: gives a record of the type that has its name, with these fields.
    Constructor(Names),
    /// Made by DATA: the field that has its name.
    Field,
}

impl Clone for Function {
    ghost use Rattle.std.specs.Prelude.{◌≡◌};

    ghost is_clone = { λ function copy. copy ≡ function };

    fn clone(&self) -> Result<Function, AllocError> {
        Ok(match self {
            Function::Defined(entry, prototype) => {
                Function::Defined(entry.clone()?, prototype.clone()?)
            }
            Function::Constructor(fields) => Function::Constructor(fields.clone()?),
            Function::Field => Function::Field,
        })
    }
}

/// Functions by their names.
pub struct FunctionTable {
    functions: IndexMap<Text, Function>,
    // Where the function that has the name of a variable may stand, by the variable's slot. They are hints.
    places: Vec<u32>,
}

impl Drop for FunctionTable {
    fn drop(self) {
        let FunctionTable {
            functions: _,
            places: _,
        } = self;
    }
}

impl Model for FunctionTable {
    ghost use Rattle.model.specs.Deck.Trees.{Bytes};
    ghost use Rattle.values.specs.Functions.{Functions, IfNamed, function_at};

    ghost Value = { Functions };

    ghost view = { λ t. t.functions.entries };

    ghost invariant = { λ t. (x : Bytes) → IfNamed x (function_at x t.functions.entries) };
}

// The function of a name, which stands in this place or else where the look-up finds it.
#[inline(always)]
fn find<'a>(
    functions: &'a IndexMap<Text, Function>,
    place: u32,
    name: &Text,
) -> Option<&'a Function>
    ensures { option_copied result ≡ function_at name.now functions.now.entries }
{
    if let Some((key, function)) = functions.get_index(place as usize) {
        if *key == *name {
            return Some(function);
        }
    }
    functions.get(name)
}

impl FunctionTable {
    /// Without functions. Takes no memory.
    pub fn new(alloc: Global) -> FunctionTable
        ensures { result ≡ [] }
    {
        FunctionTable {
            functions: IndexMap::new(alloc),
            places: Vec::new(alloc),
        }
    }

    /// The function of a name, whose variable may stand in a slot.
    #[inline(always)]
    pub fn get(&self, name: &Text, slot: u32) -> Option<&Function>
        ensures function { option_copied result ≡ function_at name.now self.now }
        ensures named { IfSome result (λ f. IsNamed name.now f.now) }
    {
        let place = slot_at(self.places.as_slice(), slot as usize);
        find(&self.functions, place, name)
    }

    /// Notes where the function of a name will stand, whose variable stands in a slot.
    pub fn note(&mut self, name: &Text, slot: u32) -> Result<(), AllocError>
        ensures { self.new ≡ self.old }
    {
        if slot == NO_SLOT {
            return Ok(());
        }
        let place = match self.functions.get_index_of(name) {
            Some(place) => place,
            None => self.functions.len(),
        };
        self.note_at(slot, u32::try_from(place).unwrap_or(NO_SLOT))
    }

    // Notes a place for the variable in a slot.
    fn note_at(&mut self, slot: u32, place: u32) -> Result<(), AllocError>
        ensures { self.new ≡ self.old }
    {
        let at = slot as usize;
        if at >= self.places.len() {
            self.places.resize(at + 1, NO_SLOT)?;
        }
        self.places[at] = place;
        Ok(())
    }

    /// Notes that the variable in a slot has the name of a field that is expected.
    pub fn expect_field(&mut self, slot: u32) -> Result<(), AllocError>
        ensures { self.new ≡ self.old }
    {
        if slot == NO_SLOT {
            return Ok(());
        }
        self.note_at(slot, EXPECTED_FIELD)
    }

    /// Whether it is expected.
    pub fn expects_field(&self, slot: u32) -> bool {
        slot_at(self.places.as_slice(), slot as usize) == EXPECTED_FIELD
    }

    /// Puts a function in the place of the one that has its name.
    pub fn put(&mut self, name: Text, function: Function) -> Result<(), AllocError>
        requires { IsNamed name function }
        ensures ok { OnOk result ((x : Bytes)
            → function_at x self.new ≡ cond (bytes_eq name x) (Some function) (function_at x self.old)) }
        ensures err { OnErr result (self.new ≡ self.old) }
    {
        let _old = self.functions.insert(name, function)?;
        Ok(())
    }

    /// Puts functions in the places of those that have their names.
    pub fn append(&mut self, functions: IndexMap<Text, Function>) -> Result<(), AllocError>
        requires unique { IsUnique bytes_eq functions }
        requires named { (x : Bytes) → IfNamed x (function_at x functions.entries) }
        ensures ok { OnOk result ((x : Bytes) → function_at x self.new
            ≡ option_or (function_at x functions.entries) (function_at x self.old)) }
        ensures err { OnErr result (self.new ≡ self.old) }
    {
        let mut functions = functions;
        self.functions.append(&mut functions)
    }
}
