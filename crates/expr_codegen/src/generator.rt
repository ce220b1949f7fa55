//! The state of a generator.

ghost use Rattle.std.specs.Prelude.{◌≡◌, ◌<◌, ◌≤◌, ◌+◌, ◌*◌, ◌^◌, [], length, map, option_map, IfOk, OnOk, OnErr};
ghost use Rattle.model.specs.Module.Images.{instr_size};
ghost use Rattle.model.specs.Deck.TreeViews.{expr_of};
ghost use Rattle.model.specs.Deck.Weights.{of_expr};
ghost use Rattle.expr_codegen.specs.Emitting.{AddsAtMost, size};
ghost use Rattle.model.specs.declared.instr.Instr.{Instr};

use crate::copies::kept_copy;
use crate::strings::Strings;
use bumpalo::Bump;
use byteorder::{BigEndian, ByteOrder};
use code_format::put_instr;
use model::{Expr, Instr};
use std::alloc::{AllocError, Global};
use std::rc::Rc;
use tree_drops::ExprTree;

/// The bytes of the code so far and its tables.
pub struct Generator<'a> {
    code: Vec<u8>,
    strings: Strings<'a>,
    waiting: Vec<Rc<ExprTree>>,
    taken: usize,
    ghost few: { length code.items < 2 ^ 31 },
    ghost within: { taken ≤ length waiting.items },
}

impl<'a> Drop for Generator<'a> {
    fn drop(self) {
        let Generator {
            code: _,
            strings: _,
            waiting: _,
            taken: _,
        } = self;
    }
}

impl<'a> Generator<'a> {
    ghost use Rattle.expr_codegen.specs.Views.{gen_of};
    ghost use Rattle.expr_codegen.specs.Emitting as spec;

    /// No code. Strings are kept in the arena.
    pub fn new(alloc: Global, arena: &'a Bump) -> Generator<'a>
        ensures { gen_of result ≡ record { code = []; texts = []; waiting = []; taken = 0 } }
    {
        Generator {
            code: Vec::new(alloc),
            strings: Strings::new(alloc, arena),
            waiting: Vec::new(alloc),
            taken: 0,
        }
    }

    /// Makes room for so many more strings.
    pub fn reserve_strings(&mut self, count: usize) -> Result<(), AllocError>
        ensures { gen_of self.new ≡ gen_of self.old }
    {
        self.strings.reserve(count)
    }

    /// The offset behind the code so far.
    pub fn at(&self) -> u32
        ensures { result ≡ length (gen_of self.now).code }
    {
        self.code.len() as u32
    }

    /// Puts an instruction.
    #[tactic(auto, using(crate::proofs::Joins::instr_behind), unfolding(crate::specs::Emitting::size))]
    pub fn put(&mut self, i: Instr) -> Result<(), AllocError>
        requires { size (gen_of self.old) + instr_size i < 2 ^ 31 }
        ensures put { OnOk result (gen_of self.new ≡ spec.with_instr i (gen_of self.old)) }
        ensures size { OnOk result
            (size (gen_of self.new) ≡ size (gen_of self.old) + instr_size i) }
        ensures refused { OnErr result (gen_of self.new ≡ gen_of self.old) }
        ensures extends { spec.Extends (gen_of self.old) (gen_of self.new) }
    {
        put_instr(&i, &mut self.code)?;
        Ok(())
    }

    /// The number of a string.
    #[tactic(auto, unfolding(crate::specs::Emitting::size))]
    pub fn string(&mut self, text: &[u8]) -> Result<u32, AllocError>
        requires { size (gen_of self.old) < 2 ^ 31 }
        ensures numbered { IfOk result (λ k.
            spec.Numbered text.now k (gen_of self.old) (gen_of self.new)) }
        ensures size { OnOk result (AddsAtMost 1 (gen_of self.old) (gen_of self.new)) }
        ensures refused { OnErr result (gen_of self.new ≡ gen_of self.old) }
        ensures extends { spec.Extends (gen_of self.old) (gen_of self.new) }
    {
        self.strings.number(text)
    }

    /// Puts the number of an expression that stays unevaluated, and keeps a copy of it.
    #[inline(never)]
    #[tactic(auto, unfolding(crate::specs::Emitting::size))]
    pub fn defer(&mut self, alloc: Global, x: &Expr) -> Result<(), AllocError>
        requires { size (gen_of self.old) + 9 * of_expr (expr_of x.now) + 7 < 2 ^ 31 }
        ensures put { OnOk result
            (gen_of self.new ≡ spec.with_waiting (expr_of x.now)
            (spec.with_instr (Instr.Expr (length (gen_of self.old).waiting)) (gen_of self.old))) }
        ensures size { OnOk result
            (size (gen_of self.new) ≡ size (gen_of self.old) + 9 * of_expr (expr_of x.now) + 7) }
        ensures extends { spec.Extends (gen_of self.old) (gen_of self.new) }
    {
        let kept = kept_copy(alloc, x)?;
        let number = self.waiting.len() as u32;
        self.put(Instr::Expr(number))?;
        self.waiting.push(kept)?;
        Ok(())
    }

    /// Takes the next unevaluated expression.
    pub fn take(&mut self) -> Result<Option<Rc<ExprTree>>, AllocError>
        ensures taken { IfOk result (λ next.
            spec.Takes (option_map (λ e. expr_of e.value.expr) next) (gen_of self.old)
            (gen_of self.new)) }
        ensures refused { OnErr result (gen_of self.new ≡ gen_of self.old) }
    {
        let Some(next) = self.waiting.as_slice().get(self.taken) else {
            return Ok(None);
        };
        let next = next.clone()?;
        self.taken += 1;
        Ok(Some(next))
    }

    /// The bytes of the code, and the strings.
    pub fn into_parts(self) -> (Vec<u8>, Strings<'a>)
        ensures code { result.0.items ≡ (gen_of self.entry).code }
        ensures strings { result.1 ≡ (gen_of self.entry).texts }
    {
        let Generator {
            code,
            strings,
            waiting: _,
            taken: _,
        } = self;
        (code, strings)
    }

    /// Changes the number behind the first byte of the instruction at an offset.
    #[tactic(auto, unfolding(crate::specs::Emitting::size, model::specs::Module::Spelling::u32))]
    pub fn set_number(&mut self, at: u32, n: u32)
        requires { at + 5 ≤ length (gen_of self.old).code }
        ensures put { gen_of self.new ≡ spec.with_number at n (gen_of self.old) }
        ensures size { size (gen_of self.new) ≡ size (gen_of self.old) }
    {
        BigEndian::write_u32(&mut self.code[at as usize + 1..], n);
    }
}
