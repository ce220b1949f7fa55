//! Code of patterns without parts.

ghost use Rattle.std.specs.Prelude.{◌≡◌, [], ◌∷◌, ℕ, Option, Some, IfOk, OnOk};
ghost use Rattle.model.specs.Pattern.Patterns as pattern;
ghost use Rattle.model.specs.Pattern.Code.{basic_code, cursor_code, defer_code, defer_basic_code};
ghost use Rattle.model.specs.Pattern.Stands.{Stands};
ghost use Rattle.model.specs.Deck.Trees.{Expr};
ghost use Rattle.pattern_compiler.specs.View.{basic_of, instr_of, kind_of, name_of};

use crate::code::PatCode;
use crate::instr::{Basic, Instr, Kind, Name};
use crate::pattern::ROOM;
use std::alloc::{AllocError, Global};
use strings::Text;

impl PatCode {
    /// The code of a literal, which shares its text. That of the null string has no instruction.
    pub fn lit(alloc: Global, text: &Text) -> Result<PatCode, AllocError>
        ensures code { IfOk result (λ code. code ≡ basic_code (pattern.Lit text.now)) }
        ensures stands { IfOk result (λ code.
            (xs : ℕ → Option Expr) → Stands xs (pattern.Plain (pattern.Lit text.now)) code) }
    {
        PatCode::prim(alloc, Basic::Lit(text.clone()?))
    }

    /// The code of a literal. This code becomes it if the text isn't null, in place if nothing else holds the memory.
    pub fn lit_again(&mut self, alloc: Global, text: &Text) -> Result<PatCode, AllocError>
        ensures { IfOk result (λ code. code ≡ basic_code (pattern.Lit text.now)) }
    {
        if text.is_empty() {
            Ok(PatCode::null())
        } else {
            self.become_lit(alloc, text)?;
            self.clone()
        }
    }

    // Becomes the code of a literal that isn't null.
    #[inline(always)]
    fn become_lit(&mut self, alloc: Global, text: &Text) -> Result<(), AllocError>
        ensures { OnOk result (self.new ≡ pattern.Do (pattern.Lit text.now) ∷ []) }
    {
        if let Some(Instr::Do(Basic::Lit(last))) = self.only() {
            if *last == *text {
                return Ok(());
            }
        }
        if self.replace_only(Instr::Do(Basic::Lit(text.clone()?))) {
            return Ok(());
        }
        self.become_new_lit(alloc, text)
    }

    // Becomes the code of a literal, in new memory.
    #[inline(never)]
    fn become_new_lit(&mut self, alloc: Global, text: &Text) -> Result<(), AllocError>
        ensures { OnOk result (self.new ≡ pattern.Do (pattern.Lit text.now) ∷ []) }
    {
        *self = one(alloc, Instr::Do(Basic::Lit(text.clone()?)))?;
        Ok(())
    }

    /// The code of a part without parts and without effect.
    pub fn prim(alloc: Global, part: Basic) -> Result<PatCode, AllocError>
        ensures code { IfOk result (λ code. code ≡ basic_code (basic_of part)) }
        ensures stands { IfOk result (λ code.
            (xs : ℕ → Option Expr) → Stands xs (pattern.Plain (basic_of part)) code) }
    {
        if let Basic::Lit(text) = &part {
            if text.is_empty() {
                return Ok(PatCode::null());
            }
        }
        one(alloc, Instr::Do(part))
    }

    /// SUCCEED.
    pub fn succeed(alloc: Global) -> Result<PatCode, AllocError>
        ensures code { IfOk result (λ code. code ≡ pattern.DoSucceed ∷ []) }
        ensures stands { IfOk result (λ code.
            (xs : ℕ → Option Expr) → Stands xs pattern.Succeed code) }
    {
        one(alloc, Instr::Succeed)
    }

    /// ABORT.
    pub fn abort(alloc: Global) -> Result<PatCode, AllocError>
        ensures code { IfOk result (λ code. code ≡ pattern.DoAbort ∷ []) }
        ensures stands { IfOk result (λ code.
            (xs : ℕ → Option Expr) → Stands xs pattern.Abort code) }
    {
        one(alloc, Instr::Abort)
    }

    /// FENCE.
    pub fn fence(alloc: Global) -> Result<PatCode, AllocError>
        ensures code { IfOk result (λ code. code ≡ pattern.DoFence ∷ []) }
        ensures stands { IfOk result (λ code.
            (xs : ℕ → Option Expr) → Stands xs pattern.Fence code) }
    {
        one(alloc, Instr::Fence)
    }

    /// The assignment of the cursor.
    pub fn at(alloc: Global, name: Name) -> Result<PatCode, AllocError>
        ensures code { IfOk result (λ code. code ≡ cursor_code (name_of name)) }
        ensures stands { IfOk result (λ code.
            (xs : ℕ → Option Expr) → Stands xs (pattern.At (name_of name)) code) }
    {
        one(alloc, Instr::At(name))
    }

    /// The pattern that the expression of this number gives where it is reached.
    pub fn defer(alloc: Global, expr: u32) -> Result<PatCode, AllocError>
        ensures code { IfOk result (λ code. code ≡ defer_code expr) }
        ensures stands { IfOk result (λ code.
            (xs : ℕ → Option Expr) (e : Expr) → xs expr ≡ Some e
            → Stands xs (pattern.Defer e) code) }
    {
        one(alloc, Instr::Eval(expr))
    }

    /// The kind with the argument that the expression of this number gives where it is reached.
    pub fn defer_prim(alloc: Global, kind: Kind, expr: u32) -> Result<PatCode, AllocError>
        ensures code { IfOk result (λ code. code ≡ defer_basic_code (kind_of kind) expr) }
        ensures stands { IfOk result (λ code.
            (xs : ℕ → Option Expr) (e : Expr) → xs expr ≡ Some e
            → Stands xs (pattern.DeferBasic (kind_of kind) e) code) }
    {
        one(alloc, Instr::EvalBasic(kind, expr))
    }
}

/// The code of one instruction.
pub(crate) fn one(alloc: Global, instr: Instr) -> Result<PatCode, AllocError>
    ensures { IfOk result (λ code. code ≡ instr_of instr ∷ []) }
{
    let mut instrs = Vec::with_capacity(alloc, ROOM)?;
    instrs.push(instr)?;
    PatCode::from_list(instrs)
}
