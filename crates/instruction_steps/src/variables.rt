//! Instructions that may read from a unit or write to one, by a variable that has it.

ghost use Rattle.std.specs.Prelude.{ℕ, Bool, Option, ◌∷◌, List, [], option_map, ◌≡◌, Some, IfSome};
ghost use Rattle.model.specs.Language.Conversions.{Op};
ghost use Rattle.model.specs.Module.Flow.{V, N, R};
ghost use Rattle.model.specs.Language.Io.{Io};
ghost use Rattle.model.specs.Machine.Steps.{MVal, MW, OV, Run, after_op};
ghost use Rattle.model.specs.declared.image.Image.{Image};
ghost use Rattle.frames.specs.Kinds.{AreOnTop};
ghost use Rattle.loader.specs.Places.{offset_at};
ghost use Rattle.frames.specs.View.{operands_of};
ghost use Rattle.frames.specs.declared.frame.Frame.{Frame};
ghost use Rattle.values.specs.Answers.{AnswersAs, AnswersOrFails, answer_map, done, stopped_by};
ghost use Rattle.world.specs.Held.{world_of};
ghost use Rattle.values.specs.Values.{value_of};
ghost use Rattle.operations.specs.Asking.{Prints, Takes};
ghost use Rattle.instruction_steps.specs.Asking.{io_at};
ghost use Rattle.instruction_steps.specs.Held.{Left, Meets, StaysSound, after, handlers_in, waiting};
ghost use Rattle.instruction_steps.specs.Stopped.{halted_by};
ghost use Rattle.unit_io.specs.Service.{IsQuiet, KeepsCounts, KeepsIo, ReadsOne, Served};
ghost use Rattle.unit_io.specs.Ways.{Way};

use crate::state::State;
use crate::status::Exit;
use frames::{pop_name, pop_span, pop_value, top_name};
use model::Instr;
use operations::{assign_at, fetch_at, splice_at};
use unit_io::Units;
use values::{Fault, Value};

impl State {
    // On after an operation that gives nothing and may be an error.
    #[inline(always)]
    fn went(&mut self, answer: Result<(), Fault>, next: usize) -> Result<(), Exit>
        ensures left { (im : Image) (fs : List Frame) (io : Io) (o : Op MW (record {}))
            → AnswersAs (done answer) (world_of self.old.world io) o →
            Left im fs result self.new io
            (after_op o (handlers_in im self.old) (operands_of self.old.operands.top)
            (waiting im fs self.old)
            (λ _ w. Run (offset_at im.code next) (operands_of self.old.operands.top)
            (handlers_in im self.old) (waiting im fs self.old) w)) }
        ensures counts { (old new : ℕ → ℕ) → KeepsCounts (stopped_by answer) old new
            → KeepsCounts (halted_by result) old new }
        ensures stop { IfSome (halted_by result) (λ why. stopped_by answer ≡ Some why) }
        ensures names { self.new.world.names ≡ self.old.world.names }
    {
        match answer {
            Ok(()) => {
                self.place = next;
                Ok(())
            }
            Err(fault) => Err(Exit::Fault(fault)),
        }
    }

    /// On with the value of an operation that may fail or be an error.
    #[inline(always)]
    pub(crate) fn gave(
        &mut self,
        answer: Result<Option<Value>, Fault>,
        next: usize,
    ) -> Result<(), Exit>
        ensures left { (im : Image) (fs : List Frame) (io : Io) (o : Op MW MVal)
            → AnswersOrFails (answer_map (option_map value_of) answer)
            (world_of self.old.world io) o →
            Left im fs result self.new io
            (after_op o (handlers_in im self.old) (operands_of self.old.operands.top)
            (waiting im fs self.old)
            (λ v w. Run (offset_at im.code next) (OV v ∷ operands_of self.old.operands.top)
            (handlers_in im self.old) (waiting im fs self.old) w)) }
        ensures counts { (old new : ℕ → ℕ) → KeepsCounts (stopped_by answer) old new
            → KeepsCounts (halted_by result) old new }
        ensures asked { (may : Way → ℕ → Bool) (f : Io → Io)
            → Takes may (stopped_by answer) f → Takes may (halted_by result) f }
        ensures quiet { (before after : Option Io) → ReadsOne (stopped_by answer) before after
            → IsQuiet (halted_by result) before after }
        ensures names { self.new.world.names ≡ self.old.world.names }
    {
        match answer {
            Ok(Some(value)) => self.put(value, next),
            Ok(None) => self.fail(),
            Err(fault) => Err(Exit::Fault(fault)),
        }
    }

    /// The value goes to the name, and to the unit that its variable writes to.
    pub(crate) fn assign<U: Units>(&mut self, units: &mut U, next: usize) -> Result<(), Exit>
        requires { AreOnTop (V ∷ N ∷ []) self.old.operands.top }
        ensures served { Served U.Units (halted_by result) units.old units.new (λ io io'.
            (im : Image) (fs : List Frame)
            → Left im fs result self.new io' (after im Instr.Assign next fs self.old io)) }
        ensures quiet { KeepsIo (halted_by result) (U.told units.old) (U.told units.new) }
        ensures asked { (im : Image) (fs : List Frame)
            → Prints (U.may_fail units.old) (halted_by result) (λ io.
            io_at (after im Instr.Assign next fs self.old io)) }
        ensures sound { (im : Image) (fs : List Frame) → Meets im Instr.Assign next fs self.old
            → StaysSound im fs result self.new }
        ensures names { self.new.world.names ≡ self.old.world.names }
    {
        let value = pop_value(&mut self.operands);
        let named = pop_name(&mut self.operands);
        let answer = assign_at(
            &mut self.world,
            self.alloc,
            units,
            &named.name,
            named.slot,
            value,
        );
        self.went(answer, next)
    }

    /// The value of the name, in its place. At the end of the unit that its variable reads from that fails.
    pub(crate) fn fetch<U: Units>(&mut self, units: &mut U, next: usize) -> Result<(), Exit>
        requires { AreOnTop (N ∷ []) self.old.operands.top }
        ensures served { Served U.Units (halted_by result) units.old units.new (λ io io'.
            (im : Image) (fs : List Frame)
            → Left im fs result self.new io' (after im Instr.Fetch next fs self.old io)) }
        ensures quiet { IsQuiet (halted_by result) (U.told units.old) (U.told units.new) }
        ensures asked { (im : Image) (fs : List Frame)
            → Takes (U.may_fail units.old) (halted_by result) (λ io. io_at (after im Instr.Fetch next fs self.old io)) }
        ensures sound { (im : Image) (fs : List Frame) → Meets im Instr.Fetch next fs self.old
            → StaysSound im fs result self.new }
        ensures names { self.new.world.names ≡ self.old.world.names }
    {
        let named = pop_name(&mut self.operands);
        let answer = fetch_at(&mut self.world, units, &named.name, named.slot);
        self.gave(answer, next)
    }

    /// The value of the name, above the name.
    pub(crate) fn fetch_above<U: Units>(&mut self, units: &mut U, next: usize) -> Result<(), Exit>
        requires { AreOnTop (N ∷ []) self.old.operands.top }
        ensures served { Served U.Units (halted_by result) units.old units.new (λ io io'.
            (im : Image) (fs : List Frame)
            → Left im fs result self.new io' (after im Instr.FetchK next fs self.old io)) }
        ensures quiet { IsQuiet (halted_by result) (U.told units.old) (U.told units.new) }
        ensures asked { (im : Image) (fs : List Frame)
            → Takes (U.may_fail units.old) (halted_by result) (λ io.
            io_at (after im Instr.FetchK next fs self.old io)) }
        ensures sound { (im : Image) (fs : List Frame) → Meets im Instr.FetchK next fs self.old
            → StaysSound im fs result self.new }
        ensures names { self.new.world.names ≡ self.old.world.names }
    {
        let named = top_name(&self.operands);
        let answer = fetch_at(&mut self.world, units, &named.name, named.slot);
        self.gave(answer, next)
    }

    /// The value goes into the place of what a match found, and the whole to the name.
    pub(crate) fn splice<U: Units>(&mut self, units: &mut U, next: usize) -> Result<(), Exit>
        requires { AreOnTop (V ∷ R ∷ N ∷ []) self.old.operands.top }
        ensures served { Served U.Units (halted_by result) units.old units.new (λ io io'.
            (im : Image) (fs : List Frame)
            → Left im fs result self.new io' (after im Instr.Splice next fs self.old io)) }
        ensures quiet { KeepsIo (halted_by result) (U.told units.old) (U.told units.new) }
        ensures asked { (im : Image) (fs : List Frame)
            → Prints (U.may_fail units.old) (halted_by result) (λ io.
            io_at (after im Instr.Splice next fs self.old io)) }
        ensures sound { (im : Image) (fs : List Frame) → Meets im Instr.Splice next fs self.old
            → StaysSound im fs result self.new }
        ensures names { self.new.world.names ≡ self.old.world.names }
    {
        let value = pop_value(&mut self.operands);
        let span = pop_span(&mut self.operands);
        let named = pop_name(&mut self.operands);
        let answer = splice_at(
            &mut self.world,
            self.alloc,
            units,
            &named.name,
            named.slot,
            &span,
            &value,
        );
        self.went(answer, next)
    }
}
