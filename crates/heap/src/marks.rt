//! Marks of objects.

ghost use Rattle.std.specs.Prelude.{◌≡◌, ℕ, ◌+◌, ◌*◌, ◌<◌, ◌∷◌, ◌++◌, [], true, false, IfOk, OnOk, MatchOption};
ghost use Rattle.heap.specs.Marked.{HasMarked, marks_in, unmarked};

use crate::flags::{Flags, PAGE};
use std::alloc::{AllocError, Global};
use std::marker::Model;

/// Which objects are marked, and which of those wait to be looked into.
#[derive(Drop)]
pub struct Marks {
    // The marks, in pages. Where none of a page is set nothing is held.
    pages: Vec<Flags>,
    // How many objects there are.
    count: usize,
    // What waits.
    waiting: Vec<usize>,
}

impl Model for Marks {
    ghost use Rattle.heap.specs.Marked.{MarksView};
    ghost use Rattle.heap.specs.Paged.{paged};
    ghost use Rattle.std.specs.Prelude.{take, false, ◌≤◌, ◌*◌, length};

    ghost Value = { MarksView };

    ghost view = { λ m. record { marked = take m.count (paged false 512 m.pages.items); waiting = m.waiting.items } };

    ghost invariant = { λ m. m.count ≤ 512 * length m.pages.items };
}

impl Marks {
    /// No mark on any of so many objects.
    pub fn none(alloc: Global, count: usize) -> Result<Marks, AllocError>
        ensures { IfOk result (λ marks. marks ≡ unmarked count) }
    {
        let mut pages = Vec::with_capacity(alloc, count / PAGE + 1)?;
        for _page in 0..count / PAGE + 1 {
            pages.push_reserved(Flags::new(alloc));
        }
        Ok(Marks {
            pages,
            count,
            waiting: Vec::new(alloc),
        })
    }

    /// Marks an object, which waits from then on if it had no mark. A number past the objects has no mark of its own.
    pub fn mark(&mut self, number: usize) -> Result<(), AllocError>
        ensures marked { OnOk result (marks_in self.new number ≡ true) }
        ensures grown { OnOk result (HasMarked self.old self.new) }
    {
        if number >= self.count {
            return Ok(());
        }
        if self.pages[number / PAGE].is_set(number % PAGE) {
            return Ok(());
        }
        self.waiting.push(number)?;
        self.pages[number / PAGE].set(number % PAGE)?;
        Ok(())
    }

    /// Takes off an object that waits, if one does.
    pub fn next(&mut self) -> Option<usize>
        ensures { MatchOption result ((self.old.waiting ≡ []) × (self.new ≡ self.old))
            (λ number. self.old ≡ record self.new { waiting = self.new.waiting ++ number ∷ [] }) }
    {
        self.waiting.pop()
    }

    /// Whether an object has a mark. A number past the objects has one.
    pub fn has(&self, number: usize) -> bool
        ensures { result ≡ marks_in self.now number }
    {
        self.is_marked(number, 0)
    }

    /// Whether the object of the number `first + index` has a mark. A number past the marks has one.
    #[inline(always)]
    pub(crate) fn is_marked(&self, first: usize, index: usize) -> bool
        ensures { result ≡ marks_in self.now (first + index) }
    {
        let count = self.count;
        let Some(number) = first.checked_add(index) else {
            return true;
        };
        if number >= count {
            return true;
        }
        self.pages[number / PAGE].is_set(number % PAGE)
    }

    /// Whether no object of a page has a mark and each might have one, if a page begins with the number `first + index`.
    pub(crate) fn has_none(&self, first: usize, index: usize) -> bool
        ensures { result ≡ true → (j : ℕ) → j < 512 → marks_in self.now (first + (index + j)) ≡ false }
    {
        let Some(number) = first.checked_add(index) else {
            return false;
        };
        let page = number / PAGE;
        if number % PAGE != 0 || page >= self.count / PAGE {
            return false;
        }
        self.pages[page].is_empty()
    }
}
