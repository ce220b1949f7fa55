//! What a world holds, seen one by one.

ghost use Rattle.std.specs.Borrow.{sem};
ghost use Rattle.std.specs.Prelude.{◌≡◌, ◌≤◌, IfSome, length, None};
ghost use Rattle.world.specs.Held.{IsIn};
ghost use Rattle.world.specs.Lending.{LendsKeywords, LendsObjects};

use crate::world::World;
use heap::Heap;
use keywords::Keywords;
use strings::Text;
use values::Value;

impl World {
    /// The name and the value of the variable in a slot. The slots are in the order of first assignment.
    pub fn named_value(&self, slot: usize) -> Option<(&Text, &Value)>
        ensures there { IfSome result (λ it. IsIn slot it.0.now it.1.now self.now.variables) }
        ensures all { result ≡ None → length self.now.variables ≤ slot }
    {
        let (name, variable) = self.variables.get_index(slot)?;
        Some((name, &variable.value))
    }

    /// The arrays, tables and records, by their numbers in the order of making.
    #[inline(always)]
    pub fn objects(&self) -> &Heap<Value>
        ensures { result.now ≡ self.now.objects }
    {
        &self.heap
    }

    /// The same, to be changed.
    #[inline(always)]
    pub fn objects_mut(&mut self) -> &mut Heap<Value>
        ensures* lends { sem 𝓛 (LendsObjects self.entry result) }
        ensures held { result.now ≡ self.old.objects }
    {
        &mut self.heap
    }

    /// The keywords.
    #[inline(always)]
    pub fn keywords(&self) -> &Keywords
        ensures { result.now ≡ self.now.keys }
    {
        &self.keywords
    }

    /// The same, to be changed.
    #[inline(always)]
    pub fn keywords_mut(&mut self) -> &mut Keywords
        ensures* lends { sem 𝓛 (LendsKeywords self.entry result) }
        ensures held { result.now ≡ self.old.keys }
    {
        &mut self.keywords
    }
}
