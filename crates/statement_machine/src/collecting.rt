//! Objects that nothing reaches are given back between two steps.

ghost use Rattle.std.specs.Prelude.{◌≡◌, ◌++◌, IfOk, IfSome, true};
ghost use Rattle.frames.specs.Frames.{AreCalls};
ghost use Rattle.statement_machine.specs.Collecting.{IsInCalls, IsSameRun, StateLives};
ghost use Rattle.operations.specs.Marking.{without_unmarked};

use crate::run::{Run, Task};
use frames::{are_calls, mark_operands};
use heap::Marks;
use instruction_steps::State;
use operations::{drop_unmarked, held_size, made_size, mark_reached, no_marks};
use std::alloc::AllocError;
use values::mark_values;
use world::World;

/// How much is made before objects are given back, at least.
const LEAST: usize = 1 << 16;

/// When objects are given back: once five eighths as much was made as stayed the last time. What is made is counted in
/// values: the objects, and the values that they held when they were made.
#[derive(Clone, Copy)]
pub(crate) struct CollectionSchedule {
    // How much was made, over the whole run, when objects were given back the last time.
    begun: usize,
    // How much was made when they are given back again.
    due: usize,
}

impl CollectionSchedule {
    /// Nothing was made.
    pub(crate) fn new() -> CollectionSchedule {
        CollectionSchedule {
            begun: 0,
            due: LEAST,
        }
    }

    /// Whether objects are to be given back.
    #[inline(always)]
    pub(crate) fn is_due(&self, world: &World) -> bool {
        made_size(world) >= self.due
    }

    // How much was made since objects were given back.
    fn made(&self, world: &World) -> usize {
        made_size(world).saturating_sub(self.begun)
    }

    // From now on nothing was made. So much stayed.
    fn begin(&mut self, world: &World, stayed: usize) {
        self.begun = made_size(world);
        self.due = self.begun.saturating_add((stayed / 8 * 5).max(LEAST));
    }
}

// The marks of the objects that a state reaches, if there is room for marks.
fn reached(state: &State) -> Result<Option<Marks>, AllocError>
    ensures { IfOk result (λ found. IfSome found (λ marks. StateLives state.now marks)) }
{
    let mut marks = no_marks(&state.world, state.alloc)?;
    state.world.mark_variables(&mut marks)?;
    mark_operands(&state.operands, &mut marks)?;
    mark_values(state.saved.as_slice(), &mut marks)?;
    if mark_reached(&state.world, &mut marks)? {
        Ok(Some(marks))
    } else {
        Ok(None)
    }
}

impl Run {
    // Whether it is in the code, and calls alone wait.
    fn is_in_calls(&self) -> bool
        ensures { result ≡ true → IsInCalls self.now }
    {
        match &self.task {
            Task::Code => are_calls(&self.frames),
            _ => false,
        }
    }

    // Gives back the objects that nothing reaches. Where a match waits, or memory is refused, nothing is given back.
    #[cold]
    #[inline(never)]
    fn collect(&mut self)
        ensures { IsSameRun self.old self.new }
    {
        let made = self.pace.made(&self.state.world);
        self.pace.begin(&self.state.world, made);
        if !self.is_in_calls() {
            return;
        }
        let Ok(Some(marks)) = reached(&self.state) else {
            return;
        };
        drop_unmarked(&mut self.state.world, self.state.alloc, &marks);
        let stayed = held_size(&self.state.world);
        self.pace.begin(&self.state.world, stayed);
    }

    /// Gives back the objects that nothing reaches, if they are due.
    #[inline(always)]
    pub(crate) fn collect_if_due(&mut self)
        ensures { IsSameRun self.old self.new }
    {
        if !self.pace.is_due(&self.state.world) {
            return;
        }
        self.collect();
    }
}
