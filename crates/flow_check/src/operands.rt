//! What an instruction takes and leaves, and what a handler keeps.

ghost use Rattle.std.specs.Prelude.{◌≡◌, ◌<◌, ◌^◌, List, [], ◌∷◌, ◌++◌, map, length, IfOk, OnOk};
ghost use Rattle.std.specs.Bool.{Decides};
ghost use Rattle.model.specs.Machine.Steps.{Handler};
ghost use Rattle.model.specs.Module.Flow.{floor_of, V};
ghost use Rattle.model.specs.Module.Flow as flow;
ghost use Rattle.flow_check.specs.Numbers.{Is, Grows};
ghost use Rattle.flow_check.specs.Rules.{taken, left, run_kinds};
ghost use Rattle.flow_check.specs.Shapes.{runs, top_of, kind_of, IsTaken};

use crate::pool::{EMPTY, Kind, Node, Pool, Stack, Top};
use crate::rules::{Leaves, Run, Takes, name, values};
use std::alloc::AllocError;

impl Pool {
    #[inline(always)]
    fn pop_run(&mut self, run: Run, stack: Stack) -> Result<Option<Stack>, AllocError>
        ensures grows { OnOk result (Grows self.old.nodes.keys self.new.nodes.keys) }
        ensures taken { IfOk result (λ k.
            (ks : List flow.OperandKind) → Is self.old.nodes.keys stack (runs ks)
            → IsTaken self.new.nodes.keys k (run_kinds run) ks) }
    {
        let below = self.pop(run.kind, run.count, stack)?;
        Ok(below)
    }

    /// The stack below what an instruction takes, if that stands uppermost.
    #[inline(always)]
    pub(crate) fn take(&mut self, takes: Takes, stack: Stack) -> Result<Option<Stack>, AllocError>
        ensures grows { OnOk result (Grows self.old.nodes.keys self.new.nodes.keys) }
        ensures taken { IfOk result (λ k.
            (ks : List flow.OperandKind) → Is self.old.nodes.keys stack (runs ks)
            → IsTaken self.new.nodes.keys k (taken takes) ks) }
    {
        match takes {
            Takes::Values(count) => self.pop_run(values(count), stack),
            Takes::Name => self.pop_run(name(), stack),
            Takes::ValueName => self.pop_both(values(1), name(), stack),
            _ => self.take_runs(takes, stack),
        }
    }

    /// The same by runs of a kind.
    #[inline(never)]
    fn take_runs(&mut self, takes: Takes, stack: Stack) -> Result<Option<Stack>, AllocError>
        ensures grows { OnOk result (Grows self.old.nodes.keys self.new.nodes.keys) }
        ensures taken { IfOk result (λ k.
            (ks : List flow.OperandKind) → Is self.old.nodes.keys stack (runs ks)
            → IsTaken self.new.nodes.keys k (taken takes) ks) }
    {
        let (first, second, third) = takes.runs();
        match self.pop_run(first, stack)? {
            None => Ok(None),
            Some(rest) => {
                let below = self.pop_both(second, third, rest)?;
                Ok(below)
            }
        }
    }

    #[inline(always)]
    fn pop_both(
        &mut self,
        upper: Run,
        lower: Run,
        stack: Stack,
    ) -> Result<Option<Stack>, AllocError>
        ensures grows { OnOk result (Grows self.old.nodes.keys self.new.nodes.keys) }
        ensures taken { IfOk result (λ k.
            (ks : List flow.OperandKind) → Is self.old.nodes.keys stack (runs ks)
            → IsTaken self.new.nodes.keys k (run_kinds upper ++ run_kinds lower) ks) }
    {
        match self.pop_run(upper, stack)? {
            None => Ok(None),
            Some(rest) => {
                let below = self.pop_run(lower, rest)?;
                Ok(below)
            }
        }
    }

    /// The stack with what an instruction leaves.
    #[inline(always)]
    pub(crate) fn leave(&mut self, leaves: Leaves, stack: Stack) -> Result<Stack, AllocError>
        requires { (ks : List flow.OperandKind) × Is self.old.nodes.keys stack (runs ks)
            × (length ks < 2 ^ 31) }
        ensures grows { OnOk result (Grows self.old.nodes.keys self.new.nodes.keys) }
        ensures left { IfOk result (λ k.
            (ks : List flow.OperandKind) → Is self.old.nodes.keys stack (runs ks)
            → Is self.new.nodes.keys k (runs (left leaves ++ ks))) }
    {
        match leaves {
            Leaves::Nothing => Ok(stack),
            Leaves::Value => self.push(Kind::Value, stack),
            Leaves::Name => self.push(Kind::Name, stack),
            Leaves::ValueName => self.push_both(Kind::Value, stack),
            Leaves::SpanName => self.push_both(Kind::Span, stack),
        }
    }

    /// With a name, and one of a kind on it.
    #[inline(never)]
    fn push_both(&mut self, kind: Kind, stack: Stack) -> Result<Stack, AllocError>
        requires { (ks : List flow.OperandKind) × Is self.old.nodes.keys stack (runs ks)
            × (length ks < 2 ^ 31) }
        ensures grows { OnOk result (Grows self.old.nodes.keys self.new.nodes.keys) }
        ensures pushed { IfOk result (λ k.
            (ks : List flow.OperandKind) → Is self.old.nodes.keys stack (runs ks)
            → Is self.new.nodes.keys k (runs (kind_of kind ∷ flow.N ∷ ks))) }
    {
        let name = self.push(Kind::Name, stack)?;
        let both = self.push(kind, name)?;
        Ok(both)
    }

    /// How many operands the newest handler keeps.
    pub(crate) fn floor(&self, handlers: Stack) -> u32
        ensures { (hs : List Handler) → Is self.now.nodes.keys handlers (map top_of hs)
            → result ≡ floor_of hs }
    {
        match self.top(handlers) {
            Some(
                Node {
                    top: Top::Try(_, depth),
                    ..
                },
            ) => depth,
            _ => 0,
        }
    }

    /// Whether there is a value and nothing else.
    pub(crate) fn is_value(&self, stack: Stack) -> bool
        ensures { (ks : List flow.OperandKind) → Is self.now.nodes.keys stack (runs ks)
            → Decides result (ks ≡ V ∷ []) }
    {
        let (count, below) = self.run(Kind::Value, stack);
        if count == 1 { below == EMPTY } else { false }
    }
}
