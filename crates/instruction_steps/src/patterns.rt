//! Patterns that stand in the module.

ghost use Rattle.std.specs.Prelude.{◌≡◌, Some, IfOk, option_map, slice_get};
ghost use Rattle.model.specs.Machine.Steps.{PCode};
ghost use Rattle.model.specs.Module.Images.{module_of, pattern_code, pattern_instr};
ghost use Rattle.model.specs.declared.run.Stop.TheVariants.{NoMemory};
ghost use Rattle.pattern_compiler.specs.View.{instr_of};
ghost use Rattle.instruction_steps.specs.Held.{DoesIn};
ghost use Rattle.instruction_steps.specs.Stopped.{IfHalted};

use crate::state::State;
use crate::status::Exit;
use loader::Module;
use model::{Instr, PatInstr};
use pattern_compiler::{Basic, Instr as Part, PatCode, Pattern, Set};
use std::alloc::{AllocError, Global};
use values::Value;

// The set of a string's bytes, if there is such a string.
fn set_of(alloc: Global, program: &Module, number: u32) -> Result<Option<Set>, AllocError>
    ensures { IfOk result (λ set. set ≡ slice_get program.now.strings number) }
{
    match program.text(number) {
        Some(text) => Ok(Some(Set::of(alloc, text.clone()?)?)),
        None => Ok(None),
    }
}

// A part of a pattern, if its string is there.
fn part_of(alloc: Global, program: &Module, part: PatInstr) -> Result<Option<Part>, AllocError>
    ensures { IfOk result (λ made. option_map instr_of made ≡ pattern_instr program.now.strings part) }
{
    let basic = match part {
        PatInstr::Split(distance) => return Ok(Some(Part::Split(distance as i64))),
        PatInstr::Jmp(distance) => return Ok(Some(Part::Jmp(distance as i64))),
        PatInstr::Len(n) => Basic::Len(n),
        PatInstr::Pos(n) => Basic::Pos(n),
        PatInstr::RPos(n) => Basic::RPos(n),
        PatInstr::Tab(n) => Basic::Tab(n),
        PatInstr::RTab(n) => Basic::RTab(n),
        PatInstr::Lit(number) => match program.text(number) {
            Some(text) => Basic::Lit(text.clone()?),
            None => return Ok(None),
        },
        PatInstr::Any(number) => match set_of(alloc, program, number)? {
            Some(set) => Basic::Any(set),
            None => return Ok(None),
        },
        PatInstr::NotAny(number) => match set_of(alloc, program, number)? {
            Some(set) => Basic::NotAny(set),
            None => return Ok(None),
        },
        PatInstr::Span(number) => match set_of(alloc, program, number)? {
            Some(set) => Basic::Span(set),
            None => return Ok(None),
        },
        PatInstr::Break(number) => match set_of(alloc, program, number)? {
            Some(set) => Basic::Break(set),
            None => return Ok(None),
        },
    };
    Ok(Some(Part::Do(basic)))
}

// The code of a pattern, if its strings are there.
fn code_of(
    alloc: Global,
    program: &Module,
    parts: &[PatInstr],
) -> Result<Option<PatCode>, AllocError>
    ensures { IfOk result (λ code. code ≡ pattern_code program.now.strings parts.now) }
{
    let mut made = Vec::with_capacity(alloc, parts.len())?;
    for part in parts {
        match part_of(alloc, program, *part)? {
            Some(it) => made.push(it)?,
            None => return Ok(None),
        }
    }
    Ok(Some(PatCode::from_list(made)?))
}

impl State {
    /// A pattern of the module, by its number.
    pub(crate) fn put_pattern(
        &mut self,
        program: &Module,
        number: u32,
        next: usize,
    ) -> Result<(), Exit>
        requires { (code : PCode) × ((module_of program.now).pattern number ≡ Some code) }
        ensures left { DoesIn program.now (Instr.Pat number) next result self.old self.new }
        ensures stop { IfHalted result (λ stop. stop ≡ NoMemory) }
        ensures names { self.new.world.names ≡ self.old.world.names }
    {
        let Some(parts) = program.pattern(number) else {
            unreachable!()
        };
        let Some(code) = code_of(self.alloc, program, parts)? else {
            unreachable!()
        };
        self.put(Value::Pattern(Pattern::of(code)), next)
    }
}
