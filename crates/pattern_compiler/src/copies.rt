//! Copies of instructions, which share their texts.

ghost use Rattle.std.specs.Prelude.{◌≡◌};

use crate::instr::{Basic, Instr};
use std::alloc::AllocError;

impl Clone for Basic {
    ghost is_clone = { λ part copy. copy ≡ part };

    fn clone(&self) -> Result<Basic, AllocError> {
        Ok(match self {
            Basic::Lit(text) => Basic::Lit(text.clone()?),
            Basic::Len(n) => Basic::Len(*n),
            Basic::Pos(n) => Basic::Pos(*n),
            Basic::RPos(n) => Basic::RPos(*n),
            Basic::Tab(n) => Basic::Tab(*n),
            Basic::RTab(n) => Basic::RTab(*n),
            Basic::Any(set) => Basic::Any(set.clone()?),
            Basic::NotAny(set) => Basic::NotAny(set.clone()?),
            Basic::Span(set) => Basic::Span(set.clone()?),
            Basic::Break(set) => Basic::Break(set.clone()?),
            Basic::Rem => Basic::Rem,
            Basic::Arb => Basic::Arb,
            Basic::Bal => Basic::Bal,
            Basic::Fail => Basic::Fail,
        })
    }
}

impl Clone for Instr {
    ghost is_clone = { λ instr copy. copy ≡ instr };

    fn clone(&self) -> Result<Instr, AllocError> {
        Ok(match self {
            Instr::Do(part) => Instr::Do(part.clone()?),
            Instr::Split(d) => Instr::Split(*d),
            Instr::Jmp(d) => Instr::Jmp(*d),
            Instr::Succeed => Instr::Succeed,
            Instr::Abort => Instr::Abort,
            Instr::Fence => Instr::Fence,
            Instr::Open => Instr::Open,
            Instr::OpenFence => Instr::OpenFence,
            Instr::CloseFence => Instr::CloseFence,
            Instr::Close(name) => Instr::Close(name.clone()?),
            Instr::Say(name) => Instr::Say(name.clone()?),
            Instr::At(name) => Instr::At(name.clone()?),
            Instr::Eval(expr) => Instr::Eval(*expr),
            Instr::EvalBasic(kind, expr) => Instr::EvalBasic(*kind, *expr),
        })
    }
}
