//! The rules that expressions keep.

ghost use Rattle.std.specs.Prelude.{◌≡◌, ◌&&◌, true};
ghost use Rattle.model.specs.Deck.Faults as faults;
ghost use Rattle.model.specs.Language.Names.{prim_named};
ghost use Rattle.model.specs.Deck.TreeViews.{arg_of, args_of, expr_of};
ghost use Rattle.parser.specs.Rules.{AllKeep, Keeps};

use model::{Argument, Binary, Expr, KeyId, PrimId, Unary};

/// Which rules are kept.
#[derive(Clone, Copy)]
pub(crate) struct Kept {
    /// No primitive is called with too many arguments.
    pub(crate) calls: bool,
    /// Every keyword is known.
    pub(crate) keywords: bool,
    /// Every operand that must be a target is one.
    pub(crate) operands: bool,
}

impl Kept {
    pub(crate) const ALL: Kept = Kept {
        calls: true,
        keywords: true,
        operands: true,
    };

    /// Which rules are kept here and there.
    pub(crate) fn and(self, other: Kept) -> Kept
        ensures calls { result.calls ≡ (self.calls && other.calls) }
        ensures keywords { result.keywords ≡ (self.keywords && other.keywords) }
        ensures operands { result.operands ≡ (self.operands && other.operands) }
    {
        Kept {
            calls: self.calls && other.calls,
            keywords: self.keywords && other.keywords,
            operands: self.operands && other.operands,
        }
    }
}

/// Whether a function of this name takes so many arguments.
#[tactic(auto, using(model::proofs::Decks::ArgumentLists::count_is))]
#[inline(never)]
fn takes(name: &[u8], arguments: &[Argument]) -> bool
    ensures { result ≡ faults.at_most (prim_named name.now) (faults.count (args_of arguments.now)) }
{
    match PrimId::named(name) {
        Some(primitive) => arguments.len() <= primitive.most_arguments(),
        None => true,
    }
}

/// Whether an assignment can be made to the expression.
#[inline(never)]
pub(crate) fn is_target(expr: &Expr) -> bool
    ensures { result ≡ faults.is_target (expr_of expr.now) }
{
    match expr {
        Expr::Name(_) | Expr::Reference(_, _) | Expr::Call(_, _) => true,
        Expr::Unary(op, _) => *op == Unary::Indirect,
        _ => false,
    }
}

/// What the expression itself keeps, apart from its parts.
#[inline(never)]
fn itself(expr: &Expr) -> Kept
    ensures calls { result.calls ≡ faults.call_fits (expr_of expr.now) }
    ensures keywords { result.keywords ≡ faults.keyword_known (expr_of expr.now) }
    ensures operands { result.operands ≡ faults.operand_fits (expr_of expr.now) }
{
    let mut kept = Kept::ALL;
    match expr {
        Expr::Call(name, arguments) => kept.calls = takes(name, arguments),
        Expr::Keyword(name) => kept.keywords = KeyId::named(name).is_some(),
        Expr::Unary(Unary::NameOf | Unary::Cursor, operand) => kept.operands = is_target(operand),
        Expr::Binary(Binary::Conditional | Binary::Immediate, _, right) => {
            kept.operands = is_target(right)
        }
        _ => {}
    }
    kept
}

/// What the expression and its parts keep.
#[cycle(keeps)]
pub(crate) fn keeps(expr: &Expr) -> Kept
    ensures { Keeps result (expr_of expr.now) }
{
    match expr {
        Expr::Call(_, arguments) | Expr::Reference(_, arguments) => {
            itself(expr).and(all_keep(arguments))
        }
        Expr::Unary(_, operand) => itself(expr).and(keeps(operand)),
        Expr::Binary(_, left, right) => itself(expr).and(keeps(left).and(keeps(right))),
        Expr::Keyword(_) => itself(expr),
        Expr::Name(_) | Expr::Integer(_) | Expr::Literal(_) => Kept::ALL,
    }
}

#[cycle(keeps)]
fn argument_keeps(argument: &Argument) -> Kept
    ensures calls { result.calls ≡ faults.in_arg faults.call_fits (arg_of argument.now) }
    ensures keywords { result.keywords ≡ faults.in_arg faults.keyword_known (arg_of argument.now) }
    ensures operands { result.operands ≡ faults.in_arg faults.operand_fits (arg_of argument.now) }
{
    match argument {
        Argument::Absent => Kept::ALL,
        Argument::Given(expr) => keeps(expr),
    }
}

#[cycle(keeps)]
#[inline(never)]
fn all_keep(arguments: &[Argument]) -> Kept
    ensures { AllKeep result (args_of arguments.now) }
{
    let mut all = Kept::ALL;
    for argument in arguments {
        all = all.and(argument_keeps(argument));
    }
    all
}
