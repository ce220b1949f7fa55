//! Names of elements of arrays and tables.

ghost use Rattle.std.specs.Prelude.{◌≡◌, ◌∷◌, ℕ, List, []};
ghost use Rattle.model.specs.Language.Io.{Io};
ghost use Rattle.model.specs.Module.Flow.{V, takes};
ghost use Rattle.model.specs.declared.image.Image.{Image};
ghost use Rattle.model.specs.declared.run.Stop.TheVariants.{NoMemory};
ghost use Rattle.frames.specs.Kinds.{AreOnTop};
ghost use Rattle.frames.specs.declared.frame.Frame.{Frame};
ghost use Rattle.values.specs.Answers.{IfStopped};
ghost use Rattle.instruction_steps.specs.Elements.{Named};
ghost use Rattle.instruction_steps.specs.Held.{Does, after};
ghost use Rattle.instruction_steps.specs.Stopped.{IfHalted};

use crate::state::State;
use crate::status::Exit;
use frames::{pop_value, pop_values};
use model::Instr;
use pattern_compiler::Name;
use values::Fault;

impl State {
    /// The name of an element, by its array or table and the subscripts.
    pub(crate) fn element(&mut self, count: u16, next: usize) -> Result<(), Exit>
        requires { AreOnTop (takes (Instr.Elem count)) self.old.operands.top }
        ensures left { Does (Instr.Elem count) next result self.old self.new }
        ensures stop { IfHalted result (λ stop. stop ≡ NoMemory) }
        ensures names { self.new.world.names ≡ self.old.world.names }
    {
        match self.item(count) {
            Ok(Some(name)) => self.put_name(name, next),
            Ok(None) => self.fail(),
            Err(fault) => Err(Exit::Fault(fault)),
        }
    }

    // The element that the newest operands name, which it takes off.
    fn item(&mut self, count: u16) -> Result<Option<Name>, Fault>
        requires { AreOnTop (takes (Instr.Elem count)) self.old.operands.top }
        ensures named { (im : Image) (fs : List Frame) (next : ℕ) (io : Io) →
            Named im fs next result self.new io (after im (Instr.Elem count) next fs self.old io) }
        ensures stop { IfStopped result (λ stop. stop ≡ NoMemory) }
        ensures names { self.new.world.names ≡ self.old.world.names }
    {
        if count == 1 {
            return self.item_of_one();
        }
        pop_values(&mut self.operands, count as usize, &mut self.arguments)?;
        let base = pop_value(&mut self.operands);
        operations::item(&self.world, &base, self.arguments.as_slice())
    }
    // The element with one subscript, which needs no vector.
    fn item_of_one(&mut self) -> Result<Option<Name>, Fault>
        requires { AreOnTop (V ∷ V ∷ []) self.old.operands.top }
        ensures named { (im : Image) (fs : List Frame) (next : ℕ) (io : Io) →
            Named im fs next result self.new io (after im (Instr.Elem 1) next fs self.old io) }
        ensures stop { IfStopped result (λ stop. stop ≡ NoMemory) }
        ensures names { self.new.world.names ≡ self.old.world.names }
    {
        let subscript = pop_value(&mut self.operands);
        let base = pop_value(&mut self.operands);
        operations::item(&self.world, &base, &[subscript])
    }
}
