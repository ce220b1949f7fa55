//! Patterns as values have them.

ghost use Rattle.std.specs.Prelude.{◌≡◌, ◌<◌, ◌^◌, [], ◌∷◌, ◌++◌, ℕ, Option, IfOk, IfSome, OnOk, MatchOption, MatchResult, length};
ghost use Rattle.model.specs.Pattern.Patterns as pattern;
ghost use Rattle.model.specs.Pattern.Code.{basic_code};
ghost use Rattle.model.specs.Pattern.Stands.{Stands};
ghost use Rattle.model.specs.Deck.Trees.{Expr};
ghost use Rattle.pattern_compiler.specs.Forms.{counted_of, IsPart};
ghost use Rattle.pattern_compiler.specs.View.{basic_of, instr_of, code_of};

use crate::code::PatCode;
use crate::instr::{Basic, Instr};
use crate::set::Set;
use crate::single::one;
use std::alloc::{AllocError, Global};
use std::marker::Model;
use strings::{InlineBytes, SharedBytes, Text};

/// For how many instructions there is room at least where codes are joined.
pub(crate) const ROOM: usize = 4;

/// A part that has a count.
#[derive(Clone, Copy)]
pub enum Counted {
    Len(u64),
    Pos(u64),
    RPos(u64),
    Tab(u64),
    RTab(u64),
}

// What a pattern is kept as. Bytes stand here without the tag of a text, as there is one of the form.
#[derive(Drop)]
enum Form {
    // A literal of few bytes, which isn't null.
    Lit(InlineBytes),
    // A literal of bytes that are shared, which isn't null.
    Long(SharedBytes),
    Counted(Counted),
    // BREAK of few bytes.
    Break(InlineBytes),
    Code(PatCode),
}

/// A pattern as a value, which contracts see as its code. A literal, a part that has a count and BREAK of few bytes take
/// no memory of their own, and clones share code.
pub struct Pattern {
    form: Form,
}

const _: () = prove!(size_of::<Pattern>() <= 24);

impl Drop for Pattern {
    #[inline(never)]
    fn drop(self) {
        let Pattern { form: _ } = self;
    }
}

impl Model for Pattern {
    ghost use Rattle.model.specs.Pattern.Steps.{Code};
    ghost use Rattle.pattern_compiler.specs.Forms.{form_code};

    ghost Value = { Code };

    ghost view = { λ p. form_code p.form };
}

impl Counted {
    // The part.
    fn basic(self) -> Basic
        ensures { basic_of result ≡ counted_of self }
    {
        match self {
            Counted::Len(n) => Basic::Len(n),
            Counted::Pos(n) => Basic::Pos(n),
            Counted::RPos(n) => Basic::RPos(n),
            Counted::Tab(n) => Basic::Tab(n),
            Counted::RTab(n) => Basic::RTab(n),
        }
    }
}

impl Pattern {
    /// The pattern that has this code. Takes no memory.
    pub fn of(code: PatCode) -> Pattern
        ensures { result ≡ code }
    {
        Pattern {
            form: Form::Code(code),
        }
    }

    /// The code of a pattern that is kept as code. Takes no memory.
    #[inline(always)]
    pub fn kept_code(&self) -> Option<&PatCode>
        ensures { IfSome result (λ code. code.now ≡ self.now) }
    {
        match &self.form {
            Form::Code(code) => Some(code),
            _ => None,
        }
    }

    /// The code of a pattern that is kept as code; any other is one part without parts and without effect. Takes no
    /// memory.
    pub fn code_or_part(&self) -> Option<&PatCode>
        ensures { MatchOption result (IsPart self.now) (λ code. code.now ≡ self.now) }
    {
        match &self.form {
            Form::Code(code) => Some(code),
            Form::Lit(_) | Form::Long(_) | Form::Counted(_) | Form::Break(_) => None,
        }
    }

    /// A literal. Takes no memory.
    pub fn lit(text: Text) -> Pattern
        ensures code { result ≡ basic_code (pattern.Lit text) }
        ensures stands { (xs : ℕ → Option Expr) → Stands xs (pattern.Plain (pattern.Lit text)) result }
    {
        if text.is_empty() {
            return Pattern::of(PatCode::null());
        }
        let form = match text.into_inline() {
            Ok(few) => Form::Lit(few),
            Err(many) => Form::Long(many),
        };
        Pattern { form }
    }

    /// A part that has a count. Takes no memory.
    pub fn counted(part: Counted) -> Pattern
        ensures code { result ≡ basic_code (counted_of part) }
        ensures stands { (xs : ℕ → Option Expr) → Stands xs (pattern.Plain (counted_of part)) result }
    {
        Pattern {
            form: Form::Counted(part),
        }
    }

    /// BREAK of these bytes. Up to three take no memory: they are found without a table.
    pub fn break_of(alloc: Global, text: Text) -> Result<Pattern, AllocError>
        ensures code { IfOk result (λ code. code ≡ basic_code (pattern.Break text)) }
        ensures stands { IfOk result (λ code.
            (xs : ℕ → Option Expr) → Stands xs (pattern.Plain (pattern.Break text)) code) }
    {
        if text.len() <= 3 {
            return Ok(Pattern {
                form: Form::Break(InlineBytes::of(text.as_slice())),
            });
        }
        Pattern::part(alloc, Basic::Break(Set::of(alloc, text)?))
    }

    /// A part without parts and without effect.
    pub fn part(alloc: Global, part: Basic) -> Result<Pattern, AllocError>
        ensures code { IfOk result (λ code. code ≡ basic_code (basic_of part)) }
        ensures stands { IfOk result (λ code.
            (xs : ℕ → Option Expr) → Stands xs (pattern.Plain (basic_of part)) code) }
    {
        Ok(match &part {
            Basic::Len(n) => Pattern::counted(Counted::Len(*n)),
            Basic::Pos(n) => Pattern::counted(Counted::Pos(*n)),
            Basic::RPos(n) => Pattern::counted(Counted::RPos(*n)),
            Basic::Tab(n) => Pattern::counted(Counted::Tab(*n)),
            Basic::RTab(n) => Pattern::counted(Counted::RTab(*n)),
            _ => Pattern::of(PatCode::prim(alloc, part)?),
        })
    }

    /// Its code.
    pub fn to_code(&self, alloc: Global) -> Result<PatCode, AllocError>
        ensures { IfOk result (λ code. code ≡ self.now) }
    {
        match &self.form {
            Form::Lit(few) => one(alloc, Instr::Do(Basic::Lit(few.to_text()))),
            Form::Long(many) => one(alloc, Instr::Do(Basic::Lit(many.clone()?.into_text()))),
            Form::Counted(part) => one(alloc, Instr::Do(part.basic())),
            Form::Break(few) => one(alloc, Instr::Do(Basic::Break(Set::once(few.to_text())))),
            Form::Code(code) => code.clone(),
        }
    }

    /// `to_code` of a pattern that isn't needed any more.
    pub fn into_code(self, alloc: Global) -> Result<PatCode, AllocError>
        ensures { IfOk result (λ code. code ≡ self) }
    {
        match self.into_instr() {
            Ok(part) => one(alloc, part),
            Err(code) => Ok(code),
        }
    }

    /// For how many instructions it needs room.
    pub(crate) fn room(&self) -> usize
        ensures { result < 2 ^ 63 }
    {
        match &self.form {
            Form::Lit(_) | Form::Long(_) | Form::Counted(_) | Form::Break(_) => 1,
            Form::Code(code) => code.as_slice().len(),
        }
    }

    /// Its only instruction, or else its code.
    #[inline(always)]
    pub(crate) fn into_instr(self) -> Result<Instr, PatCode>
        ensures { MatchResult result (λ part. self ≡ instr_of part ∷ []) (λ code. self ≡ code) }
    {
        let Pattern { form } = self;
        match form {
            Form::Lit(few) => Ok(Instr::Do(Basic::Lit(few.to_text()))),
            Form::Long(many) => Ok(Instr::Do(Basic::Lit(many.into_text()))),
            Form::Counted(part) => Ok(Instr::Do(part.basic())),
            Form::Break(few) => Ok(Instr::Do(Basic::Break(Set::once(few.to_text())))),
            Form::Code(code) => Err(code),
        }
    }

    /// Puts its instructions at the end.
    pub(crate) fn put_in(self, instrs: &mut Vec<Instr>) -> Result<(), AllocError>
        ensures { OnOk result (code_of instrs.new.items ≡ code_of instrs.old.items ++ self) }
    {
        match self.into_instr() {
            Ok(part) => instrs.push(part)?,
            Err(code) => code.put_in(instrs)?,
        }
        Ok(())
    }

    /// Its instructions.
    pub(crate) fn into_list(self, alloc: Global, room: usize) -> Result<Vec<Instr>, AllocError>
        requires { room < 2 ^ 63 }
        ensures { IfOk result (λ instrs. code_of instrs.items ≡ self) }
    {
        match self.into_instr() {
            Ok(part) => {
                let mut instrs = Vec::with_capacity(alloc, ROOM)?;
                instrs.push(part)?;
                Ok(instrs)
            }
            Err(code) => code.into_list(alloc, room),
        }
    }
}

impl Clone for Pattern {
    ghost use Rattle.std.specs.Prelude.{◌≡◌};

    ghost is_clone = { λ pattern copy. copy ≡ pattern };

    #[inline(never)]
    fn clone(&self) -> Result<Pattern, AllocError> {
        let form = match &self.form {
            Form::Lit(few) => Form::Lit(few.clone()?),
            Form::Long(many) => Form::Long(many.clone()?),
            Form::Counted(part) => Form::Counted(*part),
            Form::Break(few) => Form::Break(few.clone()?),
            Form::Code(code) => Form::Code(code.clone()?),
        };
        Ok(Pattern { form })
    }
}
