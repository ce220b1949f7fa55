//! How often each statement ran, and how many steps it took.

use indexmap::IndexMap;
use statement_machine::{Clock, Watch, WatchRun};
use std::alloc::{AllocError, Global};
use strings::Text;
use world::World;

/// The number of what runs outside of functions.
pub(crate) const OUTSIDE: usize = usize::MAX;

/// What is counted of a statement.
#[derive(Clone, Copy)]
pub(crate) struct Counts {
    pub(crate) begun: u64,
    pub(crate) failures: u64,
    pub(crate) steps: u64,
}

/// What is counted of a function: its calls, and the steps of its own statements.
#[derive(Clone, Copy)]
pub(crate) struct Calls {
    pub(crate) calls: u64,
    pub(crate) steps: u64,
}

/// Counts, of each statement of a run, how often it began and failed, and its steps; and the calls and the steps of
/// each function.
#[derive(Drop)]
pub struct Profile {
    /// By the numbers of statements.
    pub(crate) statements: Vec<Counts>,
    pub(crate) functions: IndexMap<Text, Calls>,
    /// What runs outside of functions.
    pub(crate) outside: Calls,
    /// The functions whose code waits, the one whose code runs and the one that was called last, by their numbers.
    waiting: Vec<usize>,
    function: usize,
    last: usize,
    /// How many steps were made when that function was entered or gone on with.
    since: u64,
    /// The statement that runs.
    statement: u32,
    /// How many steps were made, and how many statements had failed, when it was reported last.
    steps: u64,
    failures: i64,
    is_lost: bool,
}

impl Profile {
    /// Nothing is counted.
    pub fn new(alloc: Global) -> Profile {
        Profile {
            statements: Vec::new(alloc),
            functions: IndexMap::new(alloc),
            outside: Calls { calls: 1, steps: 0 },
            waiting: Vec::new(alloc),
            function: OUTSIDE,
            last: OUTSIDE,
            since: 0,
            statement: 0,
            steps: 0,
            failures: 0,
            is_lost: false,
        }
    }

    /// Whether memory was refused, so that not all is counted.
    pub fn is_lost(&self) -> bool {
        self.is_lost
    }

    // Counts the steps since the last report for the statement that ran.
    fn settle_steps(&mut self, steps: u64) {
        if let Some(counts) = self.statements.get_mut(self.statement as usize) {
            let made = steps.wrapping_sub(self.steps);
            counts.steps = counts.steps.wrapping_add(made);
        }
        self.steps = steps;
    }

    // Counts what was done since the last report for the statement that ran.
    #[inline(always)]
    fn settle(&mut self, steps: u64, world: &World) {
        let failures = world.failures();
        if let Some(counts) = self.statements.get_mut(self.statement as usize) {
            let made = steps.wrapping_sub(self.steps);
            counts.steps = counts.steps.wrapping_add(made);
            let failed = failures.wrapping_sub(self.failures).unsigned_abs();
            counts.failures = counts.failures.wrapping_add(failed);
        }
        self.steps = steps;
        self.failures = failures;
    }

    // Counts the steps that were made since the function that runs was entered or gone on with.
    fn settle_function(&mut self, steps: u64) {
        let made = steps.wrapping_sub(self.since);
        self.since = steps;
        match self.functions.get_index_mut(self.function) {
            Some(calls) => calls.steps = calls.steps.wrapping_add(made),
            None => self.outside.steps = self.outside.steps.wrapping_add(made),
        }
    }

    // Room for what is counted of a statement, and its first beginning.
    #[inline(never)]
    fn begin_first(&mut self, statement: u32) {
        for _ in self.statements.len()..=statement as usize {
            let none = Counts {
                begun: 0,
                failures: 0,
                steps: 0,
            };
            if self.statements.push(none).is_err() {
                self.is_lost = true;
                return;
            }
        }
        if let Some(counts) = self.statements.get_mut(statement as usize) {
            counts.begun = 1;
        }
    }

    // The number of a function.
    fn number_of(&mut self, name: &Text) -> Result<usize, AllocError> {
        if let Some((last, _calls)) = self.functions.get_index(self.last) {
            if *last == *name {
                return Ok(self.last);
            }
        }
        if let Some(number) = self.functions.get_index_of(name) {
            return Ok(number);
        }
        let number = self.functions.len();
        self.functions
            .insert(name.clone()?, Calls { calls: 0, steps: 0 })?;
        Ok(number)
    }

    // A function was called.
    fn enter(&mut self, name: &Text) -> Result<(), AllocError> {
        let number = self.number_of(name)?;
        self.waiting.push(self.function)?;
        self.function = number;
        self.last = number;
        if let Some(calls) = self.functions.get_index_mut(number) {
            calls.calls = calls.calls.wrapping_add(1);
        }
        Ok(())
    }
}

impl Watch for Profile {
    #[inline(always)]
    fn begins(&mut self, statement: u32, clock: Clock, world: &World) {
        self.settle(clock.steps(), world);
        self.statement = statement;
        match self.statements.get_mut(statement as usize) {
            Some(counts) => counts.begun = counts.begun.wrapping_add(1),
            None => self.begin_first(statement),
        }
    }
}

impl WatchRun for Profile {
    fn calls(&mut self, function: &Text, steps: u64, world: &World) {
        self.settle(steps, world);
        self.settle_function(steps);
        if self.enter(function).is_err() {
            self.is_lost = true;
        }
    }

    fn may_return(&mut self, steps: u64, world: &World) {
        self.settle(steps, world);
    }

    // The step belongs to the function's statement. If one failed by it, it is the one that called.
    fn returns(&mut self, statement: u32, steps: u64, world: &World) {
        self.settle_steps(steps);
        self.settle_function(steps);
        self.function = self.waiting.pop().unwrap_or(OUTSIDE);
        self.statement = statement;
        self.settle(steps, world);
    }

    fn ends(&mut self, steps: u64, world: &World) {
        self.settle(steps, world);
        self.settle_function(steps);
    }
}
