//! The table of strings.

ghost use Rattle.std.specs.Prelude.{◌≡◌, ◌<◌, ◌≤◌, ◌+◌, ◌^◌, List, [], ℕ, map, length, IfOk};
ghost use Rattle.std.specs.Prelude.{OnOk, OnErr, Some, option_map};
ghost use Rattle.expr_codegen.specs.Texts.{number_of_text, with_text};

use bumpalo::Bump;
use indexmap::IndexSet;
use std::alloc::{AllocError, Global};
use std::marker::Model;

/// Strings, numbered by first use. Their bytes lie in an arena.
pub struct Strings<'a> {
    arena: &'a Bump,
    set: IndexSet<&'a [u8]>,
}

impl<'a> Drop for Strings<'a> {
    fn drop(self) {
        let Strings { arena: _, set: _ } = self;
    }
}

impl<'a> Model for Strings<'a> {
    ghost Value = { List (List ℕ) };

    ghost view = { λ s. map (λ k. k.now) s.set.keys };
}

impl<'a> Strings<'a> {
    /// No strings.
    pub fn new(alloc: Global, arena: &'a Bump) -> Strings<'a>
        ensures { result ≡ [] }
    {
        Strings {
            arena,
            set: IndexSet::new(alloc),
        }
    }

    /// Makes room for so many more strings.
    pub fn reserve(&mut self, count: usize) -> Result<(), AllocError>
        ensures { self.new ≡ self.old }
    {
        self.set.reserve(count)
    }

    /// The number of a string, which is put last unless it is there.
    pub fn number(&mut self, text: &[u8]) -> Result<u32, AllocError>
        requires { length self.old < 2 ^ 31 }
        ensures put { OnOk result (self.new ≡ with_text text.now self.old) }
        ensures place { IfOk result (λ k. k ≡ number_of_text text.now self.new) }
        ensures few { OnOk result (length self.new ≤ length self.old + 1) }
        ensures refused { OnErr result (self.new ≡ self.old) }
    {
        if let Some(index) = self.set.get_index_of(text) {
            return Ok(index as u32);
        }
        let kept: &'a [u8] = self.arena.try_alloc_slice_copy(text)?;
        let (index, _) = self.set.insert_full(kept)?;
        Ok(index as u32)
    }

    /// The strings in order, without what finds them.
    pub fn into_vec(self, alloc: Global) -> Result<Vec<&'a [u8]>, AllocError>
        ensures { IfOk result (λ strings. map (λ s. s.now) strings.items ≡ self.entry) }
    {
        let Strings { arena: _, set } = self;
        let mut strings = Vec::with_capacity(alloc, set.len())?;
        for text in set {
            strings.push(text)?;
        }
        Ok(strings)
    }
}
