//! Instructions that put a value or a name in the place of operands.

ghost use Rattle.std.specs.Prelude.{◌≡◌, ◌∷◌, [], Ok};
ghost use Rattle.model.specs.Module.Flow.{V, N};
ghost use Rattle.model.specs.declared.run.Stop.TheVariants.{NoMemory};
ghost use Rattle.frames.specs.Kinds.{AreOnTop};
ghost use Rattle.instruction_steps.specs.Held.{Does};
ghost use Rattle.instruction_steps.specs.Stopped.{IfHalted};

use crate::state::State;
use crate::status::Exit;
use frames::{Named, pop_name, pop_value};
use model::{ArithOp, Instr, KeyId, SignOp};
use values::{Fault, SharedName, Value, alt, arith, cond, cursor, imm, indir, sign};

impl State {
    /// Unary `+` or `-`.
    pub(crate) fn sign(&mut self, op: SignOp, next: usize) -> Result<(), Exit>
        requires { AreOnTop (V ∷ []) self.old.operands.top }
        ensures left { Does (Instr.Sign op) next result self.old self.new }
        ensures stop { IfHalted result (λ stop. stop ≡ NoMemory) }
        ensures names { self.new.world.names ≡ self.old.world.names }
    {
        let value = pop_value(&mut self.operands);
        match sign(op, &value) {
            Ok(signed) => self.put(signed, next),
            Err(code) => Err(Exit::Fault(Fault::Error(code))),
        }
    }

    /// Arithmetic of two values.
    pub(crate) fn arith(&mut self, op: ArithOp, next: usize) -> Result<(), Exit>
        requires { AreOnTop (V ∷ V ∷ []) self.old.operands.top }
        ensures left { Does (Instr.Arith op) next result self.old self.new }
        ensures stop { IfHalted result (λ stop. stop ≡ NoMemory) }
        ensures names { self.new.world.names ≡ self.old.world.names }
    {
        let right = pop_value(&mut self.operands);
        let left = pop_value(&mut self.operands);
        match arith(op, &left, &right) {
            Ok(n) => self.put(Value::Integer(n), next),
            Err(code) => Err(Exit::Fault(Fault::Error(code))),
        }
    }

    /// Concatenation.
    pub(crate) fn cat(&mut self, next: usize) -> Result<(), Exit>
        requires { AreOnTop (V ∷ V ∷ []) self.old.operands.top }
        ensures left { Does Instr.Cat next result self.old self.new }
        ensures stop { IfHalted result (λ stop. stop ≡ NoMemory) }
        ensures names { self.new.world.names ≡ self.old.world.names }
    {
        let right = pop_value(&mut self.operands);
        let left = pop_value(&mut self.operands);
        match operations::cat(&self.world, self.alloc, left, right) {
            Ok(value) => self.put(value, next),
            Err(fault) => Err(Exit::Fault(fault)),
        }
    }

    /// `|`.
    pub(crate) fn alt(&mut self, next: usize) -> Result<(), Exit>
        requires { AreOnTop (V ∷ V ∷ []) self.old.operands.top }
        ensures left { Does Instr.Alt next result self.old self.new }
        ensures stop { IfHalted result (λ stop. stop ≡ NoMemory) }
        ensures names { self.new.world.names ≡ self.old.world.names }
    {
        let right = pop_value(&mut self.operands);
        let left = pop_value(&mut self.operands);
        match alt(self.alloc, left, right) {
            Ok(value) => self.put(value, next),
            Err(fault) => Err(Exit::Fault(fault)),
        }
    }

    /// Binary `.`.
    pub(crate) fn cond(&mut self, next: usize) -> Result<(), Exit>
        requires { AreOnTop (N ∷ V ∷ []) self.old.operands.top }
        ensures left { Does Instr.Cond next result self.old self.new }
        ensures stop { IfHalted result (λ stop. stop ≡ NoMemory) }
        ensures names { self.new.world.names ≡ self.old.world.names }
    {
        let Named { name, slot: _ } = pop_name(&mut self.operands);
        let value = pop_value(&mut self.operands);
        match cond(self.alloc, value, name) {
            Ok(pattern) => self.put(pattern, next),
            Err(fault) => Err(Exit::Fault(fault)),
        }
    }

    /// Binary `$`.
    pub(crate) fn imm(&mut self, next: usize) -> Result<(), Exit>
        requires { AreOnTop (N ∷ V ∷ []) self.old.operands.top }
        ensures left { Does Instr.Imm next result self.old self.new }
        ensures stop { IfHalted result (λ stop. stop ≡ NoMemory) }
        ensures names { self.new.world.names ≡ self.old.world.names }
    {
        let Named { name, slot: _ } = pop_name(&mut self.operands);
        let value = pop_value(&mut self.operands);
        match imm(self.alloc, value, name) {
            Ok(pattern) => self.put(pattern, next),
            Err(fault) => Err(Exit::Fault(fault)),
        }
    }

    /// Unary `@`.
    pub(crate) fn cursor(&mut self, next: usize) -> Result<(), Exit>
        requires { AreOnTop (N ∷ []) self.old.operands.top }
        ensures left { Does Instr.Cursor next result self.old self.new }
        ensures stop { IfHalted result (λ stop. stop ≡ NoMemory) }
        ensures names { self.new.world.names ≡ self.old.world.names }
    {
        let Named { name, slot: _ } = pop_name(&mut self.operands);
        let pattern = cursor(self.alloc, name)?;
        self.put(pattern, next)
    }

    /// Unary `$`.
    pub(crate) fn indir(&mut self, next: usize) -> Result<(), Exit>
        requires { AreOnTop (V ∷ []) self.old.operands.top }
        ensures left { Does Instr.Indir next result self.old self.new }
        ensures stop { IfHalted result (λ stop. stop ≡ NoMemory) }
        ensures names { self.new.world.names ≡ self.old.world.names }
    {
        let value = pop_value(&mut self.operands);
        match indir(self.alloc, &value) {
            Ok(name) => self.put_name(name, next),
            Err(fault) => Err(Exit::Fault(fault)),
        }
    }

    /// Unary `.`.
    pub(crate) fn name_value(&mut self, next: usize) -> Result<(), Exit>
        requires { AreOnTop (N ∷ []) self.old.operands.top }
        ensures left { Does Instr.NameV next result self.old self.new }
        ensures stop { IfHalted result (λ stop. stop ≡ NoMemory) }
        ensures names { self.new.world.names ≡ self.old.world.names }
    {
        let Named { name, slot: _ } = pop_name(&mut self.operands);
        let name = SharedName::of(self.alloc, name)?;
        self.put(Value::Name(name), next)
    }

    /// The newest value is dropped.
    #[inline(always)]
    pub fn drop_value(&mut self, next: usize)
        requires { AreOnTop (V ∷ []) self.old.operands.top }
        ensures left { Does Instr.Drop next (Ok tt) self.old self.new }
        ensures names { self.new.world.names ≡ self.old.world.names }
    {
        pop_value(&mut self.operands);
        self.place = next;
    }

    /// A keyword's value.
    pub(crate) fn keyword(&mut self, id: KeyId, next: usize) -> Result<(), Exit>
        ensures left { Does (Instr.KeyGet id) next result self.old self.new }
        ensures stop { IfHalted result (λ stop. stop ≡ NoMemory) }
        ensures names { self.new.world.names ≡ self.old.world.names }
    {
        match operations::keyword(&self.world, id) {
            Ok(value) => self.put(value, next),
            Err(fault) => Err(Exit::Fault(fault)),
        }
    }

    /// An assignment to a keyword.
    pub(crate) fn set_keyword(&mut self, id: KeyId, next: usize) -> Result<(), Exit>
        requires { AreOnTop (V ∷ []) self.old.operands.top }
        ensures left { Does (Instr.KeySet id) next result self.old self.new }
        ensures stop { IfHalted result (λ stop. stop ≡ NoMemory) }
        ensures names { self.new.world.names ≡ self.old.world.names }
    {
        let value = pop_value(&mut self.operands);
        match operations::set_keyword(&mut self.world, id, &value) {
            Ok(()) => {
                self.place = next;
                Ok(())
            }
            Err(code) => Err(Exit::Fault(Fault::Error(code))),
        }
    }
}
