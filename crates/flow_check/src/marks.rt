//! Which shapes reach an offset.

ghost use Rattle.std.specs.Prelude.{◌≡◌, ℕ, true, None, Some, OnOk, IfOk, nat_eq, if◌then◌else◌};
ghost use Rattle.flow_check.specs.Marks.{joined, met, marked, noted, followed};
ghost use Rattle.flow_check.specs.Shapes.{empty_shape};
ghost use Rattle.flow_check.specs.declared.marks.Mark.TheVariants.{One};
ghost use Rattle.flow_check.specs.Slots.{slot_at};
ghost use Rattle.flow_check.specs.declared.shapes.Mode.TheVariants.{Goto};

use crate::flow::empty;
use crate::pool::EMPTY;
use crate::shapes::{Mode, Shape};
use crate::slots::{Slot, Slots};
use indexmap::IndexMap;
use std::alloc::{AllocError, Global};

/// One shape, or two that differ.
#[derive(Clone, Copy)]
pub(crate) enum Mark {
    One(Shape),
    Torn,
}

/// The mark with one more way to its offset.
fn join(shape: Shape, mark: Option<Mark>) -> Option<Mark>
    ensures { result ≡ joined shape mark }
{
    match mark {
        None => Some(Mark::One(shape)),
        Some(Mark::One(other)) => {
            if shape.is_same(other) {
                Some(Mark::One(other))
            } else {
                Some(Mark::Torn)
            }
        }
        Some(Mark::Torn) => Some(Mark::Torn),
    }
}

/// Whether the mark is the usual one: a goto's shape, with nothing.
fn is_bare(mark: Mark) -> bool
    ensures { result ≡ true → mark ≡ One (empty_shape Goto) }
{
    matches!(
        mark,
        Mark::One(Shape {
            mode: Mode::Goto,
            kinds: EMPTY,
            depth: 0,
            handlers: EMPTY,
            floor: 0,
        },)
    )
}

/// The mark of each offset that is reached by a way other than from the instruction before it.
#[derive(Drop)]
pub(crate) struct Marks {
    /// What is known without the map, of the first offsets. Most have no mark, and most that have one have the usual
    /// one.
    slots: Slots,
    map: IndexMap<u32, Mark>,
}

impl Marks {
    /// No marks; of so many offsets it is known without the map what they have.
    pub(crate) fn new(alloc: Global, slots: usize) -> Result<Marks, AllocError>
        ensures { IfOk result (λ marks. (y : ℕ) → marked marks y ≡ None) }
    {
        Ok(Marks {
            slots: Slots::new(alloc, slots)?,
            map: IndexMap::new(alloc),
        })
    }

    fn slot(&self, at: u32) -> Slot
        ensures { result ≡ slot_at self.now.slots.bytes.items at }
    {
        self.slots.get(at as usize)
    }

    /// Whether it is known without the map that an offset has no mark.
    pub(crate) fn is_free(&self, at: u32) -> bool
        ensures { result ≡ true → marked self.now at ≡ None }
    {
        matches!(self.slot(at), Slot::Free)
    }

    fn at(&self, at: u32) -> Option<Mark>
        ensures { result ≡ marked self.now at }
    {
        match self.slot(at) {
            Slot::Free => None,
            Slot::Bare => Some(Mark::One(empty(Mode::Goto))),
            Slot::Other => self.map.get(&at).copied(),
        }
    }

    /// Whether it is known without the map that the usual shape leaves the usual mark at an offset.
    fn is_plain(&self, at: u32) -> bool
        ensures { result ≡ true
            → joined (empty_shape Goto) (marked self.now at) ≡ Some (One (empty_shape Goto)) }
    {
        match self.slot(at) {
            Slot::Free | Slot::Bare => true,
            Slot::Other => false,
        }
    }

    /// Whether it is known without the map that the usual mark is met at an offset to which this was carried.
    #[inline(always)]
    pub(crate) fn is_usual(&self, at: u32, carried: Option<Shape>) -> bool
        ensures { result ≡ true → met carried (marked self.now at) ≡ Some (One (empty_shape Goto)) }
    {
        match carried {
            None => matches!(self.slot(at), Slot::Bare),
            Some(shape) => is_bare(Mark::One(shape)) && self.is_plain(at),
        }
    }

    /// The mark at an offset to which this was carried from the instruction before it.
    pub(crate) fn meet(&self, at: u32, carried: Option<Shape>) -> Option<Mark>
        ensures { result ≡ met carried (marked self.now at) }
    {
        let mark = self.at(at);
        match carried {
            None => mark,
            Some(shape) => join(shape, mark),
        }
    }

    /// One more way to a target.
    #[inline(always)]
    pub(crate) fn note(&mut self, target: u32, shape: Shape) -> Result<(), AllocError>
        ensures { OnOk result
            ((y : ℕ) → marked self.new y ≡ noted target shape (marked self.old) y) }
    {
        let mark = Mark::One(shape);
        if is_bare(mark) && self.is_plain(target) {
            return self.put(target, mark);
        }
        self.note_other(target, shape)
    }

    /// The same of any shape and target.
    #[inline(never)]
    fn note_other(&mut self, target: u32, shape: Shape) -> Result<(), AllocError>
        ensures { OnOk result
            ((y : ℕ) → marked self.new y ≡ noted target shape (marked self.old) y) }
    {
        match join(shape, self.at(target)) {
            Some(mark) => self.put(target, mark),
            None => Ok(()),
        }
    }

    /// The mark of a target in place of the one it had.
    #[inline(always)]
    fn put(&mut self, target: u32, mark: Mark) -> Result<(), AllocError>
        ensures { OnOk result ((y : ℕ) → marked self.new y
            ≡ (if nat_eq target y then Some mark else marked self.old y)) }
    {
        let place = target as usize;
        if !self.slots.has(place) {
            self.map.insert(target, mark)?;
            return Ok(());
        }
        if is_bare(mark) {
            self.slots.set(place, Slot::Bare);
            return Ok(());
        }
        self.map.insert(target, mark)?;
        self.slots.set(place, Slot::Other);
        Ok(())
    }

    /// The same where the target is after the offset.
    pub(crate) fn follow(&mut self, at: u32, target: Option<(u32, Shape)>) -> Result<(), AllocError>
        ensures { OnOk result
            ((y : ℕ) → marked self.new y ≡ followed at target (marked self.old) y) }
    {
        match target {
            Some((target, shape)) if at < target => self.note(target, shape),
            _ => Ok(()),
        }
    }
}
