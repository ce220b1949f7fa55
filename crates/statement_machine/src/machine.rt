//! A run of a module, up to a bound on its steps.

ghost use Rattle.std.specs.Prelude.{◌≡◌, Option, Some, None, IfOk};
ghost use Rattle.model.specs.Language.Io.{Io};
ghost use Rattle.model.specs.Language.Told.{IfTold};
ghost use Rattle.model.specs.Laws.Agreement.{first_m};
ghost use Rattle.model.specs.Laws.PrintedBefore.{after_s};
ghost use Rattle.model.specs.Machine.Steps as m;
ghost use Rattle.model.specs.Machine.Steps.{begun, steps};
ghost use Rattle.model.specs.Module.Images.{module_of};
ghost use Rattle.statement_machine.specs.Asking.{StopsWhereAsked, StopsWithin};
ghost use Rattle.statement_machine.specs.Runs.{Holds, IsRun, IsStoppedRun};
ghost use Rattle.instruction_steps.specs.Printing.{PrintsWithin};
ghost use Rattle.statement_machine.specs.Stopped.{IfRan, IfStop, ending_of, status_at, stop_of_run, stopped_now};
ghost use Rattle.unit_io.specs.Service.{ServedAll};
ghost use Rattle.instruction_steps.specs.declared.status.Halt.{Halt as RustHalt};

use crate::run::Run;
use crate::watching::{WatchProgress, watch_from_entry};
use instruction_steps::Halt;
use joined_steps::WatchRun;
use loader::Module;
use model::Status;
use segment_loop::Unwatched;
use segments::{Parts, SegmentTable, form_of, parts_of};
use std::alloc::{AllocError, Global};
use std::marker::Model;
use unit_io::Units;

/// A run of a module.
#[derive(Drop)]
pub struct Machine<'m, 'a> {
    pub(crate) program: &'m Module<'a>,
    pub(crate) form: SegmentTable,
    pub(crate) parts: Parts,
    pub(crate) run: Run,
    pub(crate) halt: Option<Halt>,
}

impl<'m, 'a> Model for Machine<'m, 'a> {
    ghost use Rattle.segments.specs.Parts.{IsParts};
    ghost use Rattle.segments.specs.Leading.{IsRunnable};
    ghost use Rattle.segments.specs.Segments.{IsForm};
    ghost use Rattle.statement_machine.specs.Runs.{MachineView, IsGoing, IsInRange, LacksNothing};

    ghost Value = { MachineView };

    ghost view = { λ m. record { image = m.program.now; run = m.run; halt = m.halt } };

    ghost invariant = { λ m.
        IsRunnable m.program.now × IsGoing m.halt (LacksNothing m.program.now m.run)
        × IsForm m.program.now m.run.state.world.names m.form
        × IsParts m.program.now m.run.state.world.names m.parts
        × IsGoing m.halt (IsInRange m.program.now m.run) };
}

impl<'m, 'a> Machine<'m, 'a> {
    /// A run of a module, before its first step.
    pub fn new(alloc: Global, program: &'m Module<'a>) -> Result<Machine<'m, 'a>, AllocError>
        ensures image { IfOk result (λ machine. machine.image ≡ program.now) }
        ensures going { IfOk result (λ machine. machine.halt ≡ None) }
        ensures begun { IfOk result (λ machine.
            (io : Io) → Holds machine io
            (after_s io.printed (begun (module_of program.now) (first_m program.now.level io.left)))) }
    {
        let place = program.start();
        let mut run = Run::new(alloc, program.level(), place)?;
        run.state.enter_variables(program)?;
        run.state.world.keep_slots()?;
        let form = form_of(alloc, program, &run.state.world)?;
        let parts = parts_of(alloc, program, &run.state.world, &form)?;
        Ok(Machine {
            program,
            form,
            parts,
            run,
            halt: None,
        })
    }

    /// At most so many steps. A run that ended or stopped answers the same from then on.
    pub fn run<U: Units>(&mut self, units: &mut U, bound: u64) -> Status
        ensures image { self.new.image ≡ self.old.image }
        ensures status { result ≡ status_at self.new.halt }
        ensures served { ServedAll U.Units
            (stopped_now self.old.halt result) units.old units.new (λ io io'.
            IfRan result ((st : m.State) → Holds self.old io st
            → Holds self.new io' (steps (module_of self.old.image) bound st))) }
        ensures printed { (st : Io → m.State) → ((io : Io) → Holds self.old io (st io)) →
            PrintsWithin (stopped_now self.old.halt result) (U.told units.old) (U.told units.new) (λ io.
            steps (module_of self.old.image) bound (st io)) }
        // A run that a unit stopped did so where the machine asks that unit.
        ensures stops { (st : Io → m.State) → ((io : Io) → Holds self.old io (st io)) →
            StopsWithin self.old.image bound (U.may_fail units.old) (stopped_now self.old.halt result)
            (U.told units.old) (U.told units.new) st }
        ensures again { (halt : RustHalt) → self.old.halt ≡ Some halt → (self.new ≡ self.old)
            × (units.new ≡ units.old) }
    {
        self.run_watched(units, bound, &mut Unwatched)
    }

    /// What `run` does, watched.
    pub(crate) fn run_watched<U: Units, W: WatchRun>(
        &mut self,
        units: &mut U,
        bound: u64,
        watch: &mut W,
    ) -> Status
        ensures image { self.new.image ≡ self.old.image }
        ensures status { result ≡ status_at self.new.halt }
        ensures served { ServedAll U.Units
            (stopped_now self.old.halt result) units.old units.new (λ io io'.
            IfRan result ((st : m.State) → Holds self.old io st
            → Holds self.new io' (steps (module_of self.old.image) bound st))) }
        ensures printed { (st : Io → m.State) → ((io : Io) → Holds self.old io (st io)) →
            PrintsWithin (stopped_now self.old.halt result) (U.told units.old) (U.told units.new) (λ io.
            steps (module_of self.old.image) bound (st io)) }
        ensures stops { (st : Io → m.State) → ((io : Io) → Holds self.old io (st io)) →
            StopsWithin self.old.image bound (U.may_fail units.old) (stopped_now self.old.halt result)
            (U.told units.old) (U.told units.new) st }
        ensures again { (halt : RustHalt) → self.old.halt ≡ Some halt → (self.new ≡ self.old)
            × (units.new ≡ units.old) }
    {
        if let Some(halt) = self.halt {
            return halt.status();
        }
        let mut heard = WatchProgress::of(&self.run.state.world);
        match self.run.make_steps(
            self.program,
            &mut self.form,
            &self.parts,
            units,
            bound,
            &mut heard,
            watch,
        ) {
            Ok(()) => {
                watch.ends(bound, &self.run.state.world);
                Status::Running
            }
            Err(halt) => {
                watch.ends(heard.steps, &self.run.state.world);
                self.halt = Some(halt);
                halt.status()
            }
        }
    }
}

/// Runs a module from its entry, at most so many steps.
pub fn run_from_entry<U: Units>(
    alloc: Global,
    program: &Module,
    units: &mut U,
    bound: u64,
) -> Status
    // What was printed follows what was printed before.
    ensures served { ServedAll U.Units (stop_of_run result) units.old units.new (λ io io'.
        IfRan result (IsRun program.now bound (ending_of result) io io')) }
    // A run that stopped has printed a prefix of what the machine prints.
    ensures printed { IfStop result
        (IfTold (U.told units.old) (U.told units.new) (IsStoppedRun program.now bound)) }
    // A run that a unit stopped did so where the machine asks that unit.
    ensures asked { StopsWhereAsked program.now bound (U.may_fail units.old) (stop_of_run result)
        (U.told units.old) (U.told units.new) }
{
    watch_from_entry(alloc, program, units, bound, &mut Unwatched)
}
