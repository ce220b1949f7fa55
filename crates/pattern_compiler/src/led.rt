//! Code behind parts that change.

ghost use Rattle.std.specs.Prelude.{◌≡◌, ◌<◌, ◌∷◌, IfOk, IfSome, length};
ghost use Rattle.model.specs.Pattern.Code.{cat_code};
ghost use Rattle.model.specs.Pattern.Steps.{Code};
ghost use Rattle.pattern_compiler.specs.Behind.{IsBehind};
ghost use Rattle.pattern_compiler.specs.View.{instr_of, code_of, IsLed};

use crate::code::{PatCode, put};
use crate::instr::Instr;
use crate::pattern::Pattern;
use std::alloc::{AllocError, Global};
use std::marker::Model;
use std::rc::Rc;

/// Code that stands behind a part which is another one each time. Where nothing else holds what it made last, it makes
/// the next in the same memory. Contracts see it as its code.
pub struct Led {
    rest: PatCode,
    // What it made last: an instruction, and then the rest.
    whole: Option<Rc<Vec<Instr>>>,
}

impl Drop for Led {
    fn drop(self) {
        let Led { rest: _, whole: _ } = self;
    }
}

impl Model for Led {
    ghost use Rattle.std.specs.Prelude.{IfSome};
    ghost use Rattle.model.specs.Pattern.Steps.{Code};
    ghost use Rattle.pattern_compiler.specs.View.{IsLed};

    ghost Value = { Code };

    ghost view = { λ l. l.rest };

    ghost invariant = { λ l. IfSome l.whole (λ whole. IsLed l.rest whole.value.items) };
}

impl Led {
    /// What stands before this code. Takes no memory.
    pub fn before(rest: PatCode) -> Led
        ensures { result ≡ rest }
    {
        Led { rest, whole: None }
    }

    /// Its code.
    #[inline(always)]
    pub fn rest(&self) -> &PatCode
        ensures { result.now ≡ self.now }
    {
        &self.rest
    }

    /// The code of a part, and then its own. A part of one instruction takes no memory where nothing else holds what was
    /// made last.
    #[inline(never)]
    pub fn behind(&mut self, alloc: Global, first: Pattern) -> Result<PatCode, AllocError>
        ensures code { IfOk result (λ code. code ≡ cat_code first self.old) }
        ensures same { self.new ≡ self.old }
    {
        match first.into_instr() {
            Ok(only) => self.led_by(alloc, only),
            Err(code) => code.followed_by(alloc, Pattern::of(self.rest.clone()?)),
        }
    }

    /// The code behind a part of one instruction, in the memory of the last such code, lent until `bring_back`.
    /// None where there is none, or where something else holds it.
    #[inline(always)]
    pub fn lend(&mut self, first: Pattern) -> Option<PatCode>
        ensures code { IfSome result (λ code. code ≡ cat_code first self.old) }
        ensures led { IfSome result (λ code. IsBehind self.old code) }
        ensures same { self.new ≡ self.old }
    {
        let Ok(only) = first.into_instr() else {
            return None;
        };
        let Some(mut whole) = self.whole.take() else {
            return None;
        };
        let Some(instrs) = Rc::get_mut(&mut whole) else {
            return None;
        };
        lead(instrs, only);
        Some(PatCode::shared(whole))
    }

    /// Takes what was lent.
    #[inline(always)]
    pub fn bring_back(&mut self, code: PatCode)
        requires { IsBehind self.old code }
        ensures { self.new ≡ self.old }
    {
        self.whole = code.into_shared();
    }

    // The code behind an instruction, in the memory of the last such code if nothing else holds it.
    #[inline(always)]
    fn led_by(&mut self, alloc: Global, first: Instr) -> Result<PatCode, AllocError>
        ensures code { IfOk result (λ code. code ≡ instr_of first ∷ self.old) }
        ensures same { self.new ≡ self.old }
    {
        if let Some(whole) = &mut self.whole {
            if let Some(instrs) = Rc::get_mut(whole) {
                lead(instrs, first);
                return Ok(PatCode::shared(whole.clone()?));
            }
        }
        self.led_anew(alloc, first)
    }

    // The code behind an instruction, in new memory, which the next call may use again.
    #[inline(never)]
    fn led_anew(&mut self, alloc: Global, first: Instr) -> Result<PatCode, AllocError>
        ensures code { IfOk result (λ code. code ≡ instr_of first ∷ self.old) }
        ensures same { self.new ≡ self.old }
    {
        let rest = self.rest.as_slice();
        let mut instrs = Vec::with_capacity(alloc, rest.len() + 1)?;
        instrs.push(first)?;
        put(&mut instrs, rest)?;
        let whole = Rc::new(alloc, instrs)?;
        let code = PatCode::shared(whole.clone()?);
        self.whole = Some(whole);
        Ok(code)
    }
}

// Another first instruction.
#[inline(always)]
fn lead(instrs: &mut Vec<Instr>, first: Instr)
    requires { 0 < length instrs.old.items }
    ensures { (rest : Code) → IsLed rest instrs.old.items
        → code_of instrs.new.items ≡ instr_of first ∷ rest }
{
    instrs[0] = first;
}
