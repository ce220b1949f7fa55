//! A stack, which contracts see newest first.

ghost use Rattle.std.specs.Prelude.{◌≡◌, ◌==◌, ◌<◌, ◌-◌, [], ◌∷◌, ◌++◌, length, take, drop, reverse, OnOk, OnErr};
ghost use Rattle.std.specs.Prelude.{Some, option_copied, slice_get};

use std::alloc::{AllocError, Global};
use std::marker::Model;
use std::mem;

/// Items, of which the newest is taken off first. Those of the code that runs lie above those of what waits for it,
/// which stay where they are.
#[derive(Drop)]
pub struct Stack<T> {
    items: Vec<T>,
    /// How many there are of what waits.
    floor: usize,
}

impl<T> Model for Stack<T> {
    ghost use Rattle.std.specs.Prelude.{◌≤◌, length};
    ghost use Rattle.frames.specs.Stacked.{Stacked, parted};

    ghost Value = { Stacked T };

    ghost view = { λ s. parted s.floor s.items.items };

    ghost invariant = { λ s. s.floor ≤ length s.items.items };
}

impl<T: Drop> Stack<T> {
    /// The empty stack. Takes no memory.
    pub fn new(alloc: Global) -> Stack<T>
        ensures { result ≡ record { top = []; under = [] } }
    {
        Stack {
            items: Vec::new(alloc),
            floor: 0,
        }
    }

    /// Puts one on.
    #[inline(always)]
    #[tactic(auto, using(crate::proofs::Stacks::put_on))]
    pub fn push(&mut self, item: T) -> Result<(), AllocError>
        ensures ok { OnOk result (self.new ≡ record self.old { top = item ∷ self.old.top }) }
        ensures err { OnErr result (self.new ≡ self.old) }
    {
        if self.items.len() >= self.items.capacity() {
            self.items.reserve(1)?;
        }
        self.items.push_reserved(item);
        Ok(())
    }

    /// Another one in the place of the newest.
    #[inline(always)]
    pub fn set_top(&mut self, item: T)
        requires { 0 < length self.old.top }
        ensures { self.new ≡ record self.old { top = item ∷ drop 1 self.old.top } }
    {
        let newest = self.items.len() - 1;
        self.items[newest] = item;
    }

    /// Another one in the place of the newest, which is given.
    #[inline(always)]
    pub(crate) fn replace_top(&mut self, item: T) -> T
        requires { 0 < length self.old.top }
        ensures had { slice_get self.old.top 0 ≡ Some result }
        ensures set { self.new ≡ record self.old { top = item ∷ drop 1 self.old.top } }
    {
        let newest = self.items.len() - 1;
        mem::replace(&mut self.items[newest], item)
    }

    /// Another one in the place of the newest two.
    #[inline(always)]
    pub fn replace_two(&mut self, item: T)
        requires { 1 < length self.old.top }
        ensures { self.new ≡ record self.old { top = item ∷ drop 2 self.old.top } }
    {
        self.pop();
        self.set_top(item);
    }

    /// Takes off the newest.
    #[inline(always)]
    pub fn pop(&mut self) -> T
        requires { 0 < length self.old.top }
        ensures { self.old ≡ record self.new { top = result ∷ self.new.top } }
    {
        match self.items.pop() {
            Some(item) => item,
            None => unreachable!(),
        }
    }

    /// The newest, which stays.
    pub fn top(&self) -> &T
        requires { 0 < length self.now.top }
        ensures { self.now.top ≡ result.now ∷ drop 1 self.now.top }
    {
        match self.items.as_slice().last() {
            Some(item) => item,
            None => unreachable!(),
        }
    }

    /// The one under so many, if there is one of the code that runs.
    #[inline(always)]
    pub fn get(&self, depth: usize) -> Option<&T>
        ensures { option_copied result ≡ slice_get self.now.top depth }
    {
        if depth < self.len() {
            Some(&self.items[self.items.len() - 1 - depth])
        } else {
            None
        }
    }

    /// All of them, the oldest first.
    #[tactic(auto, using(crate::proofs::Stacks::all_of))]
    pub fn as_slice(&self) -> &[T]
        ensures { reverse result.now ≡ self.now.top ++ self.now.under }
    {
        self.items.as_slice()
    }

    /// How many there are, of the code that runs.
    pub fn len(&self) -> usize
        ensures { result ≡ length self.now.top }
    {
        self.items.len() - self.floor
    }

    /// Whether there is none, of the code that runs.
    pub fn is_empty(&self) -> bool
        ensures { result ≡ (length self.now.top == 0) }
    {
        self.items.len() == self.floor
    }

    /// Drops those above a depth, the newest ones, if there are more.
    #[tactic(auto, using(crate::proofs::Stacks::cut_at, crate::proofs::Stacks::cut_none))]
    pub fn cut(&mut self, depth: usize)
        ensures { self.new ≡ record self.old {
          top = drop
              (length self.old.top - depth) self.old.top;
        } }
    {
        if depth < self.len() {
            self.items.truncate(self.floor + depth);
        }
    }

    /// Those that are on it wait, and other code runs; how many they are.
    #[tactic(auto, using(crate::proofs::Stacks::opened))]
    pub fn open(&mut self) -> usize
        ensures count { result ≡ length self.old.top }
        ensures opened { self.new ≡ record { top = []; under = self.old.top ++ self.old.under } }
    {
        let count = self.len();
        self.floor = self.items.len();
        count
    }

    /// Drops those of the code that runs; so many that waited are the code's from then on.
    #[tactic(auto, using(crate::proofs::Stacks::closed))]
    pub fn close(&mut self, count: usize)
        ensures { self.new ≡ record {
          top = take count self.old.under;
          under = drop count self.old.under;
        } }
    {
        self.items.truncate(self.floor);
        self.floor = self.floor.saturating_sub(count);
    }
}
