//! Primitives that say something of two values, which need no vector of arguments.

ghost use Rattle.std.specs.Prelude.{◌≡◌, ◌∷◌, List, [], true, false};
ghost use Rattle.model.specs.Language.Io.{Io};
ghost use Rattle.model.specs.Machine.Steps.{primitive};
ghost use Rattle.model.specs.Module.Flow.{V};
ghost use Rattle.model.specs.Module.Images.{module_of};
ghost use Rattle.model.specs.declared.image.Image.{Image};
ghost use Rattle.model.specs.declared.run.Stop.TheVariants.{NoMemory};
ghost use Rattle.frames.specs.Kinds.{AreOnTop};
ghost use Rattle.frames.specs.View.{operands_of};
ghost use Rattle.frames.specs.declared.frame.Frame.{Frame};
ghost use Rattle.loader.specs.Places.{offset_at};
ghost use Rattle.primitives.specs.Answers.{is_test, tested};
ghost use Rattle.world.specs.Held.{world_of};
ghost use Rattle.instruction_steps.specs.Calling.{CallStands};
ghost use Rattle.instruction_steps.specs.Held.{Does, Left, StaysSound, handlers_in, waiting};
ghost use Rattle.instruction_steps.specs.Stopped.{IfHalted};

use crate::state::State;
use crate::status::Exit;
use frames::pop_value;
use model::{ErrorCode, Instr, PrimId};
use primitives::holds;
use values::{Fault, Value};

impl State {
    /// PRIMV of a test with two arguments.
    pub fn test_two(&mut self, id: PrimId, next: usize) -> Result<(), Exit>
        requires test { is_test id ≡ true }
        requires operands { AreOnTop (V ∷ V ∷ []) self.old.operands.top }
        ensures left { Does (Instr.PrimV id 2) next result self.old self.new }
        ensures stop { IfHalted result (λ stop. stop ≡ NoMemory) }
        ensures sound { (im : Image) (fs : List Frame) → CallStands im fs false 2 next self.old
            → StaysSound im fs result self.new }
        ensures names { self.new.world.names ≡ self.old.world.names }
    {
        let second = pop_value(&mut self.operands);
        let first = pop_value(&mut self.operands);
        let answer = holds(id, &first, &second);
        self.tested(answer, next)
    }

    /// PRIMV of a test with one argument; the other one is null.
    pub fn test_one(&mut self, id: PrimId, next: usize) -> Result<(), Exit>
        requires test { is_test id ≡ true }
        requires operands { AreOnTop (V ∷ []) self.old.operands.top }
        ensures left { Does (Instr.PrimV id 1) next result self.old self.new }
        ensures stop { IfHalted result (λ stop. stop ≡ NoMemory) }
        ensures sound { (im : Image) (fs : List Frame) → CallStands im fs false 1 next self.old
            → StaysSound im fs result self.new }
        ensures names { self.new.world.names ≡ self.old.world.names }
    {
        let first = pop_value(&mut self.operands);
        let answer = holds(id, &first, &Value::null());
        self.tested(answer, next)
    }

    // On with what a test answered: null, or failure.
    fn tested(&mut self, answer: Result<bool, ErrorCode>, next: usize) -> Result<(), Exit>
        ensures left { (im : Image) (fs : List Frame) (io : Io) → Left im fs result self.new io
            (primitive (module_of im) false (tested answer (world_of self.old.world io)) (offset_at im.code next)
            (operands_of self.old.operands.top) (handlers_in im self.old) (waiting im fs self.old)) }
        ensures stop { IfHalted result (λ stop. stop ≡ NoMemory) }
        ensures names { self.new.world.names ≡ self.old.world.names }
    {
        match answer {
            Ok(true) => self.put(Value::null(), next),
            Ok(false) => self.fail(),
            Err(code) => Err(Exit::Fault(Fault::Error(code))),
        }
    }
}
