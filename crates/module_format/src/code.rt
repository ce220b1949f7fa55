//! The code: its length, and instructions that fill it.

ghost use Rattle.std.specs.Prelude.{◌≡◌, ◌+◌, [], length, IfOk};
ghost use Rattle.model.specs.declared.format.FormatRule.TheVariants.{UnknownInstruction};
ghost use Rattle.model.specs.Module.Reading.{Finds, Reads, code_from, code_at, known_of};
ghost use Rattle.module_format.specs.Views.{instrs_from};
ghost use Rattle.model.specs.Module.Spelling.{is_of, is_of_one};

use crate::fields::{MOST_CODE, read_bytes, read_count};
use code_format::first_instr;
use model::{FormatRule, Instr, Level, Miss};

// Whether level 1 has an instruction.
fn is_of_one(instr: Instr) -> bool
    ensures { result ≡ is_of_one instr }
{
    match instr {
        Instr::PrimV(id, _) | Instr::PrimN(id, _) => !id.is_newer(),
        _ => true,
    }
}

// Whether a level has an instruction.
fn is_of(level: Level, instr: Instr) -> bool
    ensures { result ≡ is_of level instr }
{
    match level {
        Level::One => is_of_one(instr),
        Level::Two => true,
    }
}

// The instruction in front, if a level has it, and the bytes behind it.
#[tactic(auto, unfolding(model::specs::Module::Reading::known_of))]
fn first_known(level: Level, bytes: &[u8]) -> Option<(Instr, &[u8])>
    ensures { Finds (λ x. (x.0, x.1.now)) result (known_of level bytes.now) }
{
    let (instr, rest) = first_instr(bytes)?;
    if !is_of(level, instr) {
        return None;
    }
    Some((instr, rest))
}

fn bad_instr(rest: &[u8], behind: &[u8]) -> Miss
    ensures { result ≡ record {
      left = length rest.now + length behind.now;
      rule = UnknownInstruction;
    } }
{
    Miss {
        left: rest.len() + behind.len(),
        rule: FormatRule::UnknownInstruction,
    }
}

// How many instructions the bytes are; `behind` is what stands after them. Each takes a byte at least, so there are at
// most as many as bytes.
fn count_instrs(level: Level, n: u32, bytes: &[u8], behind: &[u8]) -> Result<usize, Miss>
    ensures read { Reads (λ count. instrs_from count bytes.now) result
        (code_from level [] n behind.now bytes.now) }
    ensures count { IfOk result (λ count. length (instrs_from count bytes.now) ≡ count) }
{
    let mut rest = bytes;
    for count in 0..n {
        if rest.is_empty() {
            return Ok(count as usize);
        }
        match first_known(level, rest) {
            Some((_, after)) => rest = after,
            None => return Err(bad_instr(rest, behind)),
        }
    }
    if rest.is_empty() {
        return Ok(n as usize);
    }
    Err(bad_instr(rest, behind))
}

/// The code of a level: how many instructions it has, and its bytes; and the bytes behind it.
#[tactic(auto, unfolding(model::specs::Module::Reading::code_at))]
pub(crate) fn read_code(level: Level, bytes: &[u8]) -> Result<((usize, &[u8]), &[u8]), Miss>
    ensures read { Reads (λ x. (instrs_from x.0.0 x.0.1.now, x.1.now)) result
        (code_at level bytes.now) }
    ensures count { IfOk result (λ x. length (instrs_from x.0.0 x.0.1.now) ≡ x.0.0) }
{
    let (n, rest) = read_count(MOST_CODE, bytes)?;
    let (code, rest) = read_bytes(n as usize, rest)?;
    let count = count_instrs(level, n, code, rest)?;
    Ok(((count, code), rest))
}
