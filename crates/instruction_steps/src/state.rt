//! The state of a run outside of its matches, and its instructions.

ghost use Rattle.std.specs.Prelude.{◌≡◌, List, [], IfOk, true, false};
ghost use Rattle.model.specs.Language.Io.{Io};
ghost use Rattle.model.specs.Laws.Agreement.{first_m};
ghost use Rattle.model.specs.Laws.PrintedBefore.{after_w};
ghost use Rattle.model.specs.Machine.Steps.{At};
ghost use Rattle.model.specs.Module.Images.{fetch_from};
ghost use Rattle.model.specs.Module.Flow.{takes};
ghost use Rattle.frames.specs.Kinds.{AreOnTop};
ghost use Rattle.frames.specs.declared.frame.Frame.{Frame};
ghost use Rattle.loader.specs.Places.{offset_at};
ghost use Rattle.operations.specs.Asking.{TakesOrPrints};
ghost use Rattle.world.specs.Held.{world_of};
ghost use Rattle.segments.specs.Leading.{IsRunnable};
ghost use Rattle.instruction_steps.specs.Runnable.{is_of_call, is_of_match, is_operator, uses_units};
ghost use Rattle.instruction_steps.specs.Held.{Does, DoesIn, IsFit, IsSound, IsThere, Left, StaysSound, after};
ghost use Rattle.instruction_steps.specs.Asking.{io_at};
ghost use Rattle.instruction_steps.specs.Stopped.{IfHalted, halted_by};
ghost use Rattle.unit_io.specs.Service.{IsQuiet, Served};
ghost use Rattle.model.specs.declared.run.Stop.TheVariants.{NoMemory};

use crate::status::Exit;
use frames::{Handler, Operand, Stack};
use loader::{Decoded, Module};
use model::{Instr, Level};
use std::alloc::{AllocError, Global};
use unit_io::Units;
use values::Value;
use world::World;

/// Where a run stands, and what it holds.
pub struct State {
    /// Who is asked for memory.
    pub alloc: Global,
    /// The place in the code.
    pub place: usize,
    /// What the code has put on and not taken off.
    pub operands: Stack<Operand>,
    /// Where a failure leads, in the statement and in what it tries.
    pub handlers: Stack<Handler>,
    /// Room for the arguments of calls, which serves each of them.
    pub arguments: Vec<Value>,
    /// What the calls under way saved, the newest call's last.
    pub saved: Vec<Value>,
    /// Variables, objects, functions and units.
    pub world: World,
    /// The slots of the variables that the module's strings name, by the numbers of the strings. They are hints.
    pub(crate) slots: Vec<u32>,
    /// The slots of the variables that matches assigned to last, by a number made of the name. They are hints.
    pub assigned: Vec<u32>,
    /// The numbers of the strings that label statements, by a number made of the label. They are hints.
    pub labels: Vec<u32>,
}

impl Drop for State {
    fn drop(self) {
        let State {
            alloc: _,
            place: _,
            operands: _,
            handlers: _,
            arguments: _,
            saved: _,
            world: _,
            slots: _,
            assigned: _,
            labels: _,
        } = self;
    }
}

// Whether an instruction may read from a unit or write to one.
fn uses_units(instr: Instr) -> bool
    ensures { result ≡ uses_units instr }
{
    matches!(
        instr,
        Instr::Fetch | Instr::FetchK | Instr::Assign | Instr::Splice
    )
}

// Whether an instruction takes operands off and uses no unit.
fn is_operator(instr: Instr) -> bool
    ensures { result ≡ is_operator instr }
{
    matches!(
        instr,
        Instr::KeySet(_)
            | Instr::Indir
            | Instr::Elem(_)
            | Instr::NameV
            | Instr::Drop
            | Instr::Sign(_)
            | Instr::Arith(_)
            | Instr::Cat
            | Instr::Alt
            | Instr::Cond
            | Instr::Imm
            | Instr::Cursor
    )
}

/// Whether an instruction calls, or may leave what was called.
pub fn is_of_call(instr: Instr) -> bool
    ensures { result ≡ is_of_call instr }
{
    matches!(
        instr,
        Instr::Return(_)
            | Instr::GotoV
            | Instr::CallV(..)
            | Instr::CallN(..)
            | Instr::PrimV(..)
            | Instr::PrimN(..)
    )
}

impl State {
    /// The state before the instruction at a place, as a run at a level begins.
    pub fn new(alloc: Global, level: Level, place: usize) -> Result<State, AllocError>
        ensures place { IfOk result (λ state.
            (state.place ≡ place) × (state.operands.top ≡ []) × (state.handlers.top ≡ [])) }
        ensures world { IfOk result (λ state.
            (io : Io) → world_of state.world io ≡ after_w io.printed (first_m level io.left)) }
    {
        Ok(State {
            alloc,
            place,
            operands: Stack::new(alloc),
            handlers: Stack::new(alloc),
            arguments: Vec::new(alloc),
            saved: Vec::new(alloc),
            world: World::new(alloc, level)?,
            slots: Vec::new(alloc),
            assigned: Vec::new(alloc),
            labels: Vec::new(alloc),
        })
    }

    // One instruction that takes operands off and uses no unit; `next` is the place after it.
    #[inline(always)]
    fn operate(&mut self, instr: Instr, next: usize) -> Result<(), Exit>
        requires there { AreOnTop (takes instr) self.old.operands.top }
        requires operator { is_operator instr ≡ true }
        ensures left { Does instr next result self.old self.new }
        ensures stop { IfHalted result (λ stop. stop ≡ NoMemory) }
        ensures names { self.new.world.names ≡ self.old.world.names }
    {
        match instr {
            Instr::KeySet(id) => self.set_keyword(id, next),
            Instr::Indir => self.indir(next),
            Instr::Elem(count) => self.element(count, next),
            Instr::NameV => self.name_value(next),
            Instr::Drop => {
                self.drop_value(next);
                Ok(())
            }
            Instr::Sign(op) => self.sign(op, next),
            Instr::Arith(op) => self.arith(op, next),
            Instr::Cat => self.cat(next),
            Instr::Alt => self.alt(next),
            Instr::Cond => self.cond(next),
            Instr::Imm => self.imm(next),
            Instr::Cursor => self.cursor(next),
            _ => unreachable!(),
        }
    }

    // One instruction that uses no unit; `next` is the place after it.
    #[inline(always)]
    fn execute_alone(&mut self, program: &Module, it: Decoded, next: usize) -> Result<(), Exit>
        requires matches { is_of_match it.instr ≡ false }
        requires calls { is_of_call it.instr ≡ false }
        requires fits { IsFit program.now self.old }
        requires there { IsThere program.now it next self.old }
        requires runnable { IsRunnable program.now }
        requires alone { uses_units it.instr ≡ false }
        ensures left { DoesIn program.now it.instr next result self.old self.new }
        ensures stop { IfHalted result (λ stop. stop ≡ NoMemory) }
        ensures names { self.new.world.names ≡ self.old.world.names }
    {
        if is_operator(it.instr) {
            return self.operate(it.instr, next);
        }
        match it.instr {
            Instr::End => Err(Exit::End),
            Instr::Begin(_) => self.begin(it.target, it.number, next),
            Instr::Body => {
                self.end_body(next);
                Ok(())
            }
            Instr::Str(number) => self.put_string(program, number, next),
            Instr::Var(number) => self.put_variable(program, number, next),
            Instr::Pat(number) => self.put_pattern(program, number, next),
            Instr::Int(n) => self.put(Value::Integer(n), next),
            Instr::Null => self.put(Value::null(), next),
            Instr::Expr(number) => self.put(Value::Expression(number), next),
            Instr::KeyGet(id) => self.keyword(id, next),
            Instr::Goto(_) => {
                self.place = it.target;
                Ok(())
            }
            Instr::NoLabel => Err(self.no_label()),
            Instr::Try(_) => self.begin_try(it.target, next),
            Instr::Untry => {
                self.end_try(next);
                Ok(())
            }
            Instr::Fail => self.fail(),
            _ => unreachable!(),
        }
    }

    // One instruction that may use a unit; `next` is the place after it.
    #[inline(always)]
    fn execute_with<U: Units>(
        &mut self,
        program: &Module,
        instr: Instr,
        next: usize,
        units: &mut U,
    ) -> Result<(), Exit>
        requires fits { IsFit program.now self.old }
        requires there { fetch_from 0 program.now.code (offset_at program.now.code self.old.place)
            ≡ At instr (offset_at program.now.code next) }
        requires runnable { IsRunnable program.now }
        requires with_units { uses_units instr ≡ true }
        ensures served { Served U.Units (halted_by result) units.old units.new (λ io io'.
            (fs : List Frame) → Left program.now fs result self.new io' (after program.now instr next fs self.old io)) }
        ensures quiet { IsQuiet (halted_by result) (U.told units.old) (U.told units.new) }
        ensures asked { (fs : List Frame)
            → TakesOrPrints (U.may_fail units.old) (halted_by result) (λ io.
            io_at (after program.now instr next fs self.old io)) }
        ensures sound { (fs : List Frame) → IsSound program.now fs self.old
            → StaysSound program.now fs result self.new }
        ensures names { self.new.world.names ≡ self.old.world.names }
    {
        match instr {
            Instr::Fetch => self.fetch(units, next),
            Instr::FetchK => self.fetch_above(units, next),
            Instr::Assign => self.assign(units, next),
            Instr::Splice => self.splice(units, next),
            _ => unreachable!(),
        }
    }

    /// One instruction that no match and no call takes part in; `next` is the place after it.
    #[inline(always)]
    pub fn execute<U: Units>(
        &mut self,
        program: &Module,
        it: Decoded,
        next: usize,
        units: &mut U,
    ) -> Result<(), Exit>
        requires matches { is_of_match it.instr ≡ false }
        requires calls { is_of_call it.instr ≡ false }
        requires fits { IsFit program.now self.old }
        requires there { IsThere program.now it next self.old }
        requires runnable { IsRunnable program.now }
        ensures served { Served U.Units (halted_by result) units.old units.new (λ io io'.
            (fs : List Frame) → Left program.now fs result self.new io'
            (after program.now it.instr next fs self.old io)) }
        ensures quiet { IsQuiet (halted_by result) (U.told units.old) (U.told units.new) }
        ensures asked { (fs : List Frame)
            → TakesOrPrints (U.may_fail units.old) (halted_by result) (λ io.
            io_at (after program.now it.instr next fs self.old io)) }
        ensures sound { (fs : List Frame) → IsSound program.now fs self.old
            → StaysSound program.now fs result self.new }
        ensures names { self.new.world.names ≡ self.old.world.names }
    {
        if uses_units(it.instr) {
            return self.execute_with(program, it.instr, next, units);
        }
        self.execute_alone(program, it, next)
    }
}
