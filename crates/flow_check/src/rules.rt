//! What each instruction asks, takes and leaves.

ghost use Rattle.std.specs.Prelude.{◌≡◌, [], ◌∷◌, ◌++◌, length, replicate};
ghost use Rattle.flow_check.specs.Rules.{rule_of, taken, left, run_kinds};
ghost use Rattle.model.specs.Module.Flow.{V, N, R};
ghost use Rattle.model.specs.Module.Images.{instr_size};

use crate::pool::Kind;
use model::Instr;

/// So many operands of a kind.
#[derive(Clone, Copy)]
pub(crate) struct Run {
    pub kind: Kind,
    pub count: u32,
}

/// So many values.
pub(crate) fn values(count: u32) -> Run
    ensures { run_kinds result ≡ replicate count V }
{
    Run {
        kind: Kind::Value,
        count,
    }
}

/// A name.
pub(crate) fn name() -> Run
    ensures { run_kinds result ≡ N ∷ [] }
{
    Run {
        kind: Kind::Name,
        count: 1,
    }
}

fn span() -> Run
    ensures { run_kinds result ≡ R ∷ [] }
{
    Run {
        kind: Kind::Span,
        count: 1,
    }
}

/// The operands that an instruction takes, the newest first.
#[derive(Clone, Copy)]
pub(crate) enum Takes {
    Values(u32),
    Name,
    ValueName,
    NameValue,
    ValuesName,
    ValueSpanName,
}

/// The operands that it leaves.
#[derive(Clone, Copy)]
pub(crate) enum Leaves {
    Nothing,
    Value,
    Name,
    ValueName,
    SpanName,
}

impl Takes {
    /// How many.
    pub(crate) fn count(self) -> u32
        ensures { result ≡ length (taken self) }
    {
        match self {
            Takes::Values(count) => count,
            Takes::Name => 1,
            Takes::ValueName | Takes::NameValue => 2,
            Takes::ValuesName | Takes::ValueSpanName => 3,
        }
    }

    /// As runs of a kind.
    pub(crate) fn runs(self) -> (Run, Run, Run)
        ensures { taken self ≡ run_kinds result.0 ++ (run_kinds result.1 ++ run_kinds result.2) }
    {
        match self {
            Takes::Values(count) => (values(count), values(0), values(0)),
            Takes::Name => (name(), values(0), values(0)),
            Takes::ValueName => (values(1), name(), values(0)),
            Takes::NameValue => (name(), values(1), values(0)),
            Takes::ValuesName => (values(2), name(), values(0)),
            Takes::ValueSpanName => (values(1), span(), name()),
        }
    }
}

impl Leaves {
    /// How many.
    pub(crate) fn count(self) -> u32
        ensures { result ≡ length (left self) }
    {
        match self {
            Leaves::Nothing => 0,
            Leaves::Value | Leaves::Name => 1,
            Leaves::ValueName | Leaves::SpanName => 2,
        }
    }
}

/// What an instruction asks of the code before it, and where it leads.
#[derive(Clone, Copy)]
pub(crate) enum Rule {
    Leave,
    Begin(u32),
    Body,
    Jump,
    Answer,
    Try(u32),
    Untry,
    Fail,
    Operate(Takes, Leaves),
}

/// The rule of an instruction.
pub(crate) fn rule_for(instr: Instr) -> Rule
    ensures { result ≡ rule_of instr }
{
    match instr {
        Instr::End | Instr::Goto(_) | Instr::Return(_) | Instr::NoLabel => Rule::Leave,
        Instr::Begin(target) => Rule::Begin(target),
        Instr::Body => Rule::Body,
        Instr::GotoV => Rule::Jump,
        Instr::Ret => Rule::Answer,
        Instr::Try(target) => Rule::Try(target),
        Instr::Untry => Rule::Untry,
        Instr::Fail => Rule::Fail,
        Instr::Str(_)
        | Instr::Int(_)
        | Instr::Null
        | Instr::KeyGet(_)
        | Instr::Expr(_)
        | Instr::Pat(_) => { Rule::Operate(Takes::Values(0), Leaves::Value) }
        Instr::Var(_) => Rule::Operate(Takes::Values(0), Leaves::Name),
        Instr::Fetch | Instr::NameV | Instr::Cursor => Rule::Operate(Takes::Name, Leaves::Value),
        Instr::KeySet(_) | Instr::Drop => Rule::Operate(Takes::Values(1), Leaves::Nothing),
        Instr::Indir => Rule::Operate(Takes::Values(1), Leaves::Name),
        Instr::Elem(count) => Rule::Operate(Takes::Values(1 + count as u32), Leaves::Name),
        Instr::Assign => Rule::Operate(Takes::ValueName, Leaves::Nothing),
        Instr::CallV(_, count) => Rule::Operate(Takes::Values(count as u32), Leaves::Value),
        Instr::CallN(_, count) => Rule::Operate(Takes::Values(count as u32), Leaves::Name),
        Instr::PrimV(_, count) => Rule::Operate(Takes::Values(count as u32), Leaves::Value),
        Instr::PrimN(_, count) => Rule::Operate(Takes::Values(count as u32), Leaves::Name),
        Instr::Sign(_) => Rule::Operate(Takes::Values(1), Leaves::Value),
        Instr::Arith(_) | Instr::Cat | Instr::Alt => Rule::Operate(Takes::Values(2), Leaves::Value),
        Instr::Cond | Instr::Imm => Rule::Operate(Takes::NameValue, Leaves::Value),
        Instr::FetchK => Rule::Operate(Takes::Name, Leaves::ValueName),
        Instr::Match => Rule::Operate(Takes::Values(2), Leaves::Nothing),
        Instr::MatchR => Rule::Operate(Takes::ValuesName, Leaves::SpanName),
        Instr::Splice => Rule::Operate(Takes::ValueSpanName, Leaves::Nothing),
    }
}
