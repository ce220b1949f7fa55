//! Stacks of operands and of handlers, with equal numbers for equal stacks.

ghost use Rattle.std.specs.Prelude.{◌≡◌, ◌<◌, ◌+◌, ◌-◌, ◌^◌, List, [], ◌∷◌, length, IfOk, OnErr, OnOk, IfSome};
ghost use Rattle.std.specs.Prelude.{IfNone, Some, None, true, option_map, slice_get};
ghost use Rattle.flow_check.specs.declared.pool.Top.{Top};
ghost use Rattle.flow_check.specs.declared.pool.Top.TheVariants.{Run};
ghost use Rattle.flow_check.specs.Numbers.{Is, Grows, AreBoth, node, node_at, run_length, below_run};
ghost use Rattle.flow_check.specs.Numbers.{popped, first_begin, lone_number, placed};
ghost use Rattle.flow_check.specs.Shapes.{kind_of, runs};
ghost use Rattle.model.specs.Module.Flow as flow;

use indexmap::IndexSet;
use std::alloc::{AllocError, Global};

/// What an operand is.
#[derive(Clone, Copy, PartialEq, Eq, Hash)]
pub(crate) enum Kind {
    Value,
    Name,
    Span,
}

/// What stands uppermost on a stack: some operands of a kind, or a handler.
#[derive(Clone, Copy, PartialEq, Eq, Hash)]
pub(crate) enum Top {
    Run(Kind, u32),
    Begin(u32),
    Try(u32, u32),
}

/// The number of a stack, from 1; the empty one has 0.
pub(crate) type Stack = u32;

/// The empty stack.
pub(crate) const EMPTY: Stack = 0;

/// The least number of a stack of one BEGIN. These are known by their numbers; all others have nodes.
const FIRST_BEGIN: Stack = 2_147_483_648;

/// A stack: its top, and the stack below.
#[derive(Clone, Copy, PartialEq, Eq, Hash)]
pub(crate) struct Node {
    pub top: Top,
    pub below: Stack,
}

const RECENT: usize = 48;

/// The stacks that have nodes, no two equal.
#[derive(Drop)]
pub(crate) struct Pool {
    nodes: IndexSet<Node>,
    /// Stacks that were put lately, by what stands uppermost, to be looked at before the set is asked.
    recent: [Stack; RECENT],
}

/// Where a stack is noted once it was put.
fn recent_place(kind: Kind, count: u32, below: Stack) -> usize
    ensures { result < 48 }
{
    let first = match kind {
        Kind::Value => 0,
        Kind::Name => 16,
        Kind::Span => 32,
    };
    first + (count % 4) as usize * 4 + (below % 4) as usize
}

/// The number of the stack whose node stands at a place; a place that has no such number is one that there is no room
/// for.
fn numbered(index: usize) -> Result<Stack, AllocError>
    ensures number { IfOk result (λ k. k ≡ index + 1) }
    ensures low { IfOk result (λ k. k < first_begin) }
{
    if index >= FIRST_BEGIN as usize - 1 {
        return Err(AllocError);
    }
    Ok(index as u32 + 1)
}

/// The number of a stack that is known by it.
fn lone(top: Top, below: Stack) -> Option<Stack>
    ensures { result ≡ lone_number top below }
{
    match top {
        Top::Begin(target) => {
            if below == EMPTY && target < FIRST_BEGIN {
                Some(FIRST_BEGIN + target)
            } else {
                None
            }
        }
        _ => None,
    }
}

impl Pool {
    /// No stacks.
    pub(crate) fn new(alloc: Global) -> Pool
        ensures { result.nodes.keys ≡ [] }
    {
        Pool {
            nodes: IndexSet::new(alloc),
            recent: [EMPTY; RECENT],
        }
    }

    /// The number of the stack with one more on it.
    #[inline(never)]
    pub(crate) fn put(&mut self, top: Top, below: Stack) -> Result<Stack, AllocError>
        ensures grows { OnOk result (Grows self.old.nodes.keys self.new.nodes.keys) }
        ensures put { IfOk result (λ k.
            node_at self.new.nodes.keys k ≡ Some (record { top = top; below = below })) }
    {
        if let Some(stack) = lone(top, below) {
            return Ok(stack);
        }
        let (index, _) = self.nodes.insert_full(Node { top, below })?;
        let stack = numbered(index)?;
        Ok(stack)
    }

    /// The number of the stack with a run on it.
    #[inline(always)]
    fn put_run(&mut self, kind: Kind, count: u32, below: Stack) -> Result<Stack, AllocError>
        ensures grows { OnOk result (Grows self.old.nodes.keys self.new.nodes.keys) }
        ensures put { IfOk result (λ k.
            node_at self.new.nodes.keys k ≡ Some (node (Run kind count) below)) }
    {
        let place = recent_place(kind, count, below);
        let known = self.recent[place];
        if self.is_run(known, kind, count, below) {
            return Ok(known);
        }
        let stack = self.put(Top::Run(kind, count), below)?;
        self.recent[place] = stack;
        Ok(stack)
    }

    /// Whether a stack is a run on this one.
    #[inline(always)]
    fn is_run(&self, stack: Stack, kind: Kind, count: u32, below: Stack) -> bool
        ensures { result ≡ true
            → node_at self.now.nodes.keys stack ≡ Some (node (Run kind count) below) }
    {
        match self.top(stack) {
            Some(
                Node {
                    top: Top::Run(of, there),
                    below: under,
                },
            ) => of == kind && there == count && under == below,
            _ => false,
        }
    }

    /// What stands on a stack.
    #[inline(always)]
    pub(crate) fn top(&self, stack: Stack) -> Option<Node>
        ensures { result ≡ node_at self.now.nodes.keys stack }
    {
        if stack < FIRST_BEGIN {
            self.placed(stack)
        } else {
            Some(Node {
                top: Top::Begin(stack - FIRST_BEGIN),
                below: EMPTY,
            })
        }
    }

    /// The node of a stack that has one.
    #[inline(always)]
    fn placed(&self, stack: Stack) -> Option<Node>
        ensures { result ≡ placed self.now.nodes.keys stack }
    {
        let index = stack.checked_sub(1)?;
        self.nodes.get_index(index as usize).copied()
    }

    /// How many operands of a kind stand uppermost, and the stack below them.
    #[inline(always)]
    pub(crate) fn run(&self, kind: Kind, stack: Stack) -> (u32, Stack)
        ensures { (ts : List Top) → Is self.now.nodes.keys stack ts
            → (result.0 ≡ run_length kind ts)
            × Is self.now.nodes.keys result.1 (below_run kind ts) }
    {
        match self.top(stack) {
            Some(
                Node {
                    top: Top::Run(of, count),
                    below,
                },
            ) if kind == of => (count, below),
            _ => (0, stack),
        }
    }

    /// The stack with one more operand.
    #[inline(always)]
    pub(crate) fn push(&mut self, kind: Kind, stack: Stack) -> Result<Stack, AllocError>
        requires { (ks : List flow.OperandKind) × Is self.old.nodes.keys stack (runs ks)
            × (length ks < 2 ^ 32 - 1) }
        ensures grows { OnOk result (Grows self.old.nodes.keys self.new.nodes.keys) }
        ensures pushed { IfOk result (λ k.
            (ks : List flow.OperandKind) → Is self.old.nodes.keys stack (runs ks)
            → Is self.new.nodes.keys k (runs (kind_of kind ∷ ks))) }
    {
        let (count, below) = self.run(kind, stack);
        let more = self.put_run(kind, count + 1, below)?;
        Ok(more)
    }

    /// The stack without so many operands of a kind, if they stand uppermost.
    #[inline(always)]
    pub(crate) fn pop(
        &mut self,
        kind: Kind,
        count: u32,
        stack: Stack,
    ) -> Result<Option<Stack>, AllocError>
        ensures grows { OnOk result (Grows self.old.nodes.keys self.new.nodes.keys) }
        ensures popped { IfOk result (λ k.
            (ts : List Top) → Is self.old.nodes.keys stack ts
            → AreBoth self.new.nodes.keys k (popped kind count ts)) }
    {
        if count == 0 {
            return Ok(Some(stack));
        }
        let (there, below) = self.run(kind, stack);
        if there < count {
            return Ok(None);
        }
        if there == count {
            return Ok(Some(below));
        }
        let fewer = self.put_run(kind, there - count, below)?;
        Ok(Some(fewer))
    }
}
