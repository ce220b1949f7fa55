//! Code that is joined of the codes of parts. If these stand for patterns, it stands for the joined one.

ghost use Rattle.std.specs.Prelude.{◌≡◌, ◌≤◌, ◌+◌, [], ◌∷◌, ◌++◌, ℕ, Option, IfOk, OnOk, length};
ghost use Rattle.model.specs.Pattern.Patterns as pattern;
ghost use Rattle.model.specs.Pattern.Patterns.{Pat};
ghost use Rattle.model.specs.Pattern.Code.{exits_past, exit_past, alt_code, cat_code, arbno_code};
ghost use Rattle.model.specs.Pattern.Code.{fence_code, cond_code, imm_code};
ghost use Rattle.model.specs.Pattern.Stands.{Stands};
ghost use Rattle.model.specs.Deck.Trees.{Expr};
ghost use Rattle.pattern_compiler.specs.View.{instr_of, name_of, code_of};

use crate::code::PatCode;
use crate::instr::{Instr, Name};
use crate::pattern::{Pattern, ROOM};
use std::alloc::{AllocError, Global};

impl Pattern {
    /// One pattern and then the other. Code that nothing else shares isn't copied.
    pub fn cat(alloc: Global, left: Pattern, right: Pattern) -> Result<Pattern, AllocError>
        ensures code { IfOk result (λ code. code ≡ cat_code left right) }
        ensures stands { IfOk result (λ code.
            (xs : ℕ → Option Expr) (p q : Pat) → Stands xs p left → Stands xs q right
            → Stands xs (pattern.Cat p q) code) }
    {
        let code = match left.into_instr() {
            Ok(first) => led(alloc, first, right)?,
            Err(code) => code.followed_by(alloc, right)?,
        };
        Ok(Pattern::of(code))
    }

    /// One pattern, or else the other. Where the first's code leads to its end, it leads past the second.
    pub fn alt(alloc: Global, left: Pattern, right: Pattern) -> Result<Pattern, AllocError>
        ensures code { IfOk result (λ code. code ≡ alt_code left right) }
        ensures stands { IfOk result (λ code.
            (xs : ℕ → Option Expr) (p q : Pat) → Stands xs p left → Stands xs q right
            → Stands xs (pattern.Alt p q) code) }
    {
        let front = left.into_code(alloc)?;
        let first = front.as_slice();
        let mut second = right.into_list(alloc, 0)?;
        let past = second.as_slice().len() + 1;
        let mut instrs = Vec::with_capacity(alloc, first.len() + past + 1)?;
        instrs.push(Instr::Split((first.len() + 2) as i64))?;
        put_led_past(&mut instrs, first, past)?;
        instrs.push(Instr::Jmp(past as i64))?;
        instrs.append(&mut second)?;
        Ok(Pattern::of(PatCode::from_list(instrs)?))
    }

    /// The pattern as often as need be, at first not at all.
    pub fn arbno(alloc: Global, part: Pattern) -> Result<Pattern, AllocError>
        ensures code { IfOk result (λ code. code ≡ arbno_code part) }
        ensures stands { IfOk result (λ code.
            (xs : ℕ → Option Expr) (p : Pat) → Stands xs p part
            → Stands xs (pattern.Arbno p) code) }
    {
        Ok(Pattern::of(repeated(alloc, part)?))
    }

    /// The pattern, of which the first end alone is taken.
    pub fn fence_of(alloc: Global, part: Pattern) -> Result<Pattern, AllocError>
        ensures code { IfOk result (λ code. code ≡ fence_code part) }
        ensures stands { IfOk result (λ code.
            (xs : ℕ → Option Expr) (p : Pat) → Stands xs p part
            → Stands xs (pattern.FenceOf p) code) }
    {
        between(alloc, Instr::OpenFence, part, Instr::CloseFence)
    }

    /// The pattern with a conditional assignment of what it matched.
    pub fn cond(alloc: Global, part: Pattern, name: Name) -> Result<Pattern, AllocError>
        ensures code { IfOk result (λ code. code ≡ cond_code part (name_of name)) }
        ensures stands { IfOk result (λ code.
            (xs : ℕ → Option Expr) (p : Pat) → Stands xs p part
            → Stands xs (pattern.Cond p (name_of name)) code) }
    {
        between(alloc, Instr::Open, part, Instr::Close(name))
    }

    /// The pattern with an immediate assignment of what it matched.
    pub fn imm(alloc: Global, part: Pattern, name: Name) -> Result<Pattern, AllocError>
        ensures code { IfOk result (λ code. code ≡ imm_code part (name_of name)) }
        ensures stands { IfOk result (λ code.
            (xs : ℕ → Option Expr) (p : Pat) → Stands xs p part
            → Stands xs (pattern.Imm p (name_of name)) code) }
    {
        between(alloc, Instr::Open, part, Instr::Say(name))
    }
}

// The code of a pattern as often as need be.
fn repeated(alloc: Global, part: Pattern) -> Result<PatCode, AllocError>
    ensures { IfOk result (λ code. code ≡ arbno_code part) }
{
    let mut turn = part.into_list(alloc, 0)?;
    let past = (turn.as_slice().len() + 2) as i64;
    let mut instrs = Vec::with_capacity(alloc, turn.as_slice().len() + 3)?;
    instrs.push(Instr::Split(2))?;
    instrs.push(Instr::Jmp(past))?;
    instrs.append(&mut turn)?;
    instrs.push(Instr::Jmp(-past))?;
    PatCode::from_list(instrs)
}

// An instruction and a pattern behind it.
fn led(alloc: Global, first: Instr, part: Pattern) -> Result<PatCode, AllocError>
    ensures { IfOk result (λ code. code ≡ instr_of first ∷ part) }
{
    match part.into_instr() {
        Ok(only) => {
            let mut instrs = Vec::with_capacity(alloc, ROOM)?;
            instrs.push(first)?;
            instrs.push(only)?;
            PatCode::from_list(instrs)
        }
        Err(code) => code.led_by(alloc, first),
    }
}

// The part between two instructions.
#[inline(always)]
fn between(alloc: Global, first: Instr, part: Pattern, last: Instr) -> Result<Pattern, AllocError>
    ensures { IfOk result (λ code. code ≡ instr_of first ∷ (part ++ instr_of last ∷ [])) }
{
    let code = match part.into_instr() {
        Ok(only) => {
            let mut instrs = Vec::with_capacity(alloc, ROOM)?;
            instrs.push(first)?;
            instrs.push(only)?;
            instrs.push(last)?;
            PatCode::from_list(instrs)?
        }
        Err(code) => code.between(alloc, first, last)?,
    };
    Ok(Pattern::of(code))
}

// Puts copies of the instructions at the end; what led to the end of the part leads `by` further.
fn put_led_past(instrs: &mut Vec<Instr>, part: &[Instr], by: usize) -> Result<(), AllocError>
    requires { length part.now + by ≤ 9223372036854775807 }
    ensures { OnOk result
        (code_of instrs.new.items ≡ code_of instrs.old.items ++ exits_past by (code_of part.now)) }
{
    for place in 0..part.len() {
        instrs.push(led_past(&part[place], part.len() - place, by)?)?;
    }
    Ok(())
}

// The instruction; if it leads over all of those that are left, it leads `by` further.
fn led_past(instr: &Instr, left: usize, by: usize) -> Result<Instr, AllocError>
    requires { left + by ≤ 9223372036854775807 }
    ensures { IfOk result (λ i. instr_of i ≡ exit_past by left (instr_of instr.now)) }
{
    match instr {
        Instr::Split(d) => Ok(Instr::Split(farther(*d, left, by))),
        Instr::Jmp(d) => Ok(Instr::Jmp(farther(*d, left, by))),
        other => other.clone(),
    }
}

// A distance, or one that is `by` longer if it leads over all of those that are left.
fn farther(d: i64, left: usize, by: usize) -> i64
    requires { left + by ≤ 9223372036854775807 }
    ensures split { pattern.Split result ≡ exit_past by left (pattern.Split d) }
    ensures jmp { pattern.Jmp result ≡ exit_past by left (pattern.Jmp d) }
{
    if d == left as i64 {
        (left + by) as i64
    } else {
        d
    }
}
