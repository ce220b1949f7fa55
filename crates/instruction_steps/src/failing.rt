//! Failure, and where it leads.

ghost use Rattle.std.specs.Prelude.{◌≡◌, List, Ok};
ghost use Rattle.model.specs.Language.Io.{Io};
ghost use Rattle.model.specs.Machine.Steps.{fail_to};
ghost use Rattle.model.specs.declared.image.Image.{Image};
ghost use Rattle.model.specs.declared.run.Stop.TheVariants.{NoMemory};
ghost use Rattle.loader.specs.Places.{offset_at};
ghost use Rattle.frames.specs.Failing.{IsInTry};
ghost use Rattle.frames.specs.View.{operands_of};
ghost use Rattle.frames.specs.declared.frame.Frame.{Frame};
ghost use Rattle.world.specs.Held.{world_of};
ghost use Rattle.instruction_steps.specs.Held.{Does, Left, after, handlers_in, waiting};
ghost use Rattle.instruction_steps.specs.Stopped.{IfHalted};

use crate::state::State;
use crate::status::Exit;
use frames::{Caught, Handler, fail, pop_try};
use model::Instr;

impl State {
    /// A failure: on where the newest handler leads. Without a handler the frames tell.
    pub fn fail(&mut self) -> Result<(), Exit>
        ensures left { (im : Image) (fs : List Frame) (io : Io) →
            Left im fs result self.new io
            (fail_to (handlers_in im self.old) (operands_of self.old.operands.top)
            (waiting im fs self.old) (world_of self.old.world io)) }
        ensures stop { IfHalted result (λ stop. stop ≡ NoMemory) }
        ensures names { self.new.world.names ≡ self.old.world.names }
    {
        match fail(&mut self.operands, &mut self.handlers) {
            Some(Caught::Statement { target }) => {
                self.world.count_failure();
                self.place = target;
                Ok(())
            }
            Some(Caught::Try { target }) => {
                self.place = target;
                Ok(())
            }
            None => Err(Exit::Failure),
        }
    }

    /// From here on a failure leads to the target, with the operands that there are.
    pub(crate) fn begin_try(&mut self, target: usize, next: usize) -> Result<(), Exit>
        ensures left { (im : Image) (fs : List Frame) (io : Io) →
            Left im fs result self.new io (after im (Instr.Try (offset_at im.code target)) next fs self.old io) }
        ensures stop { IfHalted result (λ stop. stop ≡ NoMemory) }
        ensures names { self.new.world.names ≡ self.old.world.names }
    {
        let depth = self.operands.len();
        self.handlers.push(Handler::Try { target, depth })?;
        self.place = next;
        Ok(())
    }

    /// The newest TRY ends.
    pub fn end_try(&mut self, next: usize)
        requires { IsInTry self.old.handlers.top }
        ensures left { Does Instr.Untry next (Ok tt) self.old self.new }
        ensures names { self.new.world.names ≡ self.old.world.names }
    {
        pop_try(&mut self.handlers);
        self.place = next;
    }
}
