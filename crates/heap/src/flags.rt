//! The marks of a page.

ghost use Rattle.std.specs.Prelude.{◌≡◌, ◌<◌, ◌≤◌, length, [], true, false, OnOk, slice_index_or, slice_set};
ghost use Rattle.heap.specs.Paged.{padded};

use std::alloc::{AllocError, Global};
use std::marker::Model;

/// How many objects a page has.
pub(crate) const PAGE: usize = 512;

/// Marks by their places in a page. Contracts see the list of them; behind those none is set.
#[derive(Drop)]
pub(crate) struct Flags {
    flags: Vec<bool>,
}

impl Model for Flags {
    ghost use Rattle.std.specs.Prelude.{List, Bool};

    ghost Value = { List Bool };

    ghost view = { λ f. f.flags.items };
}

impl Flags {
    /// No mark. Takes no memory.
    pub(crate) fn new(alloc: Global) -> Flags
        ensures { result ≡ [] }
    {
        Flags {
            flags: Vec::new(alloc),
        }
    }

    /// Whether the mark of a place is set.
    #[inline(always)]
    #[tactic(auto, using(crate::proofs::Paging::index_past))]
    pub(crate) fn is_set(&self, index: usize) -> bool
        ensures { result ≡ slice_index_or self.now index false }
    {
        if index >= self.flags.len() {
            return false;
        }
        self.flags[index]
    }

    /// Whether there is none.
    pub(crate) fn is_empty(&self) -> bool
        ensures { result ≡ true → self.now ≡ [] }
    {
        self.flags.is_empty()
    }

    /// Sets the mark of a place.
    #[inline(always)]
    pub(crate) fn set(&mut self, index: usize) -> Result<(), AllocError>
        requires { index < 512 }
        ensures { OnOk result (padded false 512 self.new ≡ slice_set (padded false 512 self.old) index true) }
    {
        self.fill()?;
        self.flags[index] = true;
        Ok(())
    }

    // Holds a mark for each place.
    fn fill(&mut self) -> Result<(), AllocError>
        ensures same { OnOk result (padded false 512 self.new ≡ padded false 512 self.old) }
        ensures all { OnOk result (512 ≤ length self.new) }
    {
        for _place in self.flags.len()..PAGE {
            self.flags.push(false)?;
        }
        Ok(())
    }
}
