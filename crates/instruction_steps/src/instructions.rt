//! What each instruction does.

ghost use Rattle.std.specs.Prelude.{◌≡◌, ◌<◌, ◌∷◌, List, Ok, length};
ghost use Rattle.model.specs.Language.Io.{Io};
ghost use Rattle.model.specs.Machine.Steps.{Run, OV, ON};
ghost use Rattle.model.specs.declared.image.Image.{Image};
ghost use Rattle.model.specs.declared.run.Stop.TheVariants.{NoMemory};
ghost use Rattle.pattern_compiler.specs.View.{name_of};
ghost use Rattle.values.specs.Values.{value_of};
ghost use Rattle.world.specs.Held.{world_of};
ghost use Rattle.model.specs.Module.Images.{statement_number};
ghost use Rattle.loader.specs.Places.{offset_at};
ghost use Rattle.frames.specs.View.{operands_of};
ghost use Rattle.frames.specs.declared.frame.Frame.{Frame};
ghost use Rattle.frames.specs.Failing.{IsInBegin};
ghost use Rattle.instruction_steps.specs.Held.{Does, DoesIn, Left, after, handlers_in, waiting};
ghost use Rattle.instruction_steps.specs.Stopped.{IfHalted, halt_of};

use crate::state::State;
use crate::status::{Exit, Halt};
use frames::{Handler, Named, Operand, pop_begin};
use loader::Module;
use model::{Ending, Instr};
use pattern_compiler::Name;
use values::{Fault, NO_SLOT, Value};

impl State {
    /// What a fault comes to.
    pub fn halt(&self, fault: Fault) -> Halt
        ensures { result ≡ halt_of self.now.world.keys.stno fault }
    {
        match fault {
            Fault::Error(code) => Halt::Ended(Ending::Error {
                code,
                statement: self.world.statement(),
            }),
            Fault::Stop(stop) => Halt::Stopped(stop),
        }
    }

    /// Puts on a value and goes on.
    #[inline(always)]
    pub(crate) fn put(&mut self, value: Value, next: usize) -> Result<(), Exit>
        ensures left { (im : Image) (fs : List Frame) (io : Io) → Left im fs result self.new io
            (Run (offset_at im.code next) (OV (value_of value) ∷ operands_of self.old.operands.top)
            (handlers_in im self.old) (waiting im fs self.old) (world_of self.old.world io)) }
        ensures stop { IfHalted result (λ stop. stop ≡ NoMemory) }
        ensures names { self.new.world.names ≡ self.old.world.names }
    {
        self.operands.push(Operand::Value(value))?;
        self.place = next;
        Ok(())
    }

    /// Puts on a name and goes on.
    pub(crate) fn put_name(&mut self, name: Name, next: usize) -> Result<(), Exit>
        ensures left { (im : Image) (fs : List Frame) (io : Io) → Left im fs result self.new io
            (Run (offset_at im.code next) (ON (name_of name) ∷ operands_of self.old.operands.top)
            (handlers_in im self.old) (waiting im fs self.old) (world_of self.old.world io)) }
        ensures stop { IfHalted result (λ stop. stop ≡ NoMemory) }
        ensures names { self.new.world.names ≡ self.old.world.names }
    {
        self.put_named(
            Named {
                name,
                slot: NO_SLOT,
            },
            next,
        )
    }

    // Puts on a name with its slot and goes on.
    #[inline(always)]
    fn put_named(&mut self, named: Named, next: usize) -> Result<(), Exit>
        ensures left { (im : Image) (fs : List Frame) (io : Io) → Left im fs result self.new io
            (Run (offset_at im.code next) (ON (name_of named.name) ∷ operands_of self.old.operands.top)
            (handlers_in im self.old) (waiting im fs self.old) (world_of self.old.world io)) }
        ensures stop { IfHalted result (λ stop. stop ≡ NoMemory) }
        ensures names { self.new.world.names ≡ self.old.world.names }
    {
        self.operands.push(Operand::Name(named))?;
        self.place = next;
        Ok(())
    }

    /// A statement begins, or the limit ends the run.
    pub(crate) fn begin(&mut self, target: usize, entered: u32, next: usize) -> Result<(), Exit>
        ensures left { (im : Image) (fs : List Frame) (io : Io)
            → entered ≡ statement_number im.statements (offset_at im.code self.old.place) →
            Left im fs result self.new io (after im (Instr.Begin (offset_at im.code target)) next fs self.old io) }
        ensures stop { IfHalted result (λ stop. stop ≡ NoMemory) }
        ensures names { self.new.world.names ≡ self.old.world.names }
    {
        if self.world.is_over_limit() {
            return Err(Exit::Limit(entered));
        }
        self.handlers.push(Handler::Begin { target })?;
        self.world.enter_statement(entered);
        self.place = next;
        Ok(())
    }

    /// The body of a statement ends.
    pub fn end_body(&mut self, next: usize)
        requires { IsInBegin self.old.handlers.top }
        ensures left { Does Instr.Body next (Ok tt) self.old self.new }
        ensures names { self.new.world.names ≡ self.old.world.names }
    {
        pop_begin(&mut self.handlers);
        self.place = next;
    }

    /// A literal.
    pub(crate) fn put_string(
        &mut self,
        program: &Module,
        number: u32,
        next: usize,
    ) -> Result<(), Exit>
        requires { number < length program.now.strings }
        ensures left { DoesIn program.now (Instr.Str number) next result self.old self.new }
        ensures stop { IfHalted result (λ stop. stop ≡ NoMemory) }
        ensures names { self.new.world.names ≡ self.old.world.names }
    {
        let text = program.string(number).clone()?;
        self.put(Value::String(text), next)
    }

    /// The name of a variable.
    pub(crate) fn put_variable(
        &mut self,
        program: &Module,
        number: u32,
        next: usize,
    ) -> Result<(), Exit>
        requires { number < length program.now.strings }
        ensures left { DoesIn program.now (Instr.Var number) next result self.old self.new }
        ensures stop { IfHalted result (λ stop. stop ≡ NoMemory) }
        ensures names { self.new.world.names ≡ self.old.world.names }
    {
        let name = Name::Variable(program.string(number).clone()?);
        let slot = self.slot(number);
        self.put_named(Named { name, slot }, next)
    }
}
