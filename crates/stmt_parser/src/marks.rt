//! Marks as the grammar sees them.

ghost use Rattle.std.specs.Prelude.{◌≡◌};
ghost use Rattle.model.specs.Deck.Grammar as grammar;
ghost use Rattle.model.specs.Deck.Parse as spec;
ghost use Rattle.stmt_parser.specs.Views as view;

use model::{Binary, Mark, Unary};

/// What a mark may be.
#[derive(Clone, Copy)]
pub(crate) enum Role {
    /// A round bracket that opens.
    Opens,
    /// `&`
    Refers,
    Prefix(Unary),
    Either(Unary, Binary),
    Infix(Binary),
    Neither,
}

impl Role {
    /// Whether an element may begin so.
    pub(crate) fn starts(self) -> bool
        ensures { result ≡ spec.role_starts (view.role_of self) }
    {
        match self {
            Role::Infix(_) | Role::Neither => false,
            _ => true,
        }
    }
}

pub(crate) fn role_of(mark: Mark) -> Role
    ensures { view.role_of result ≡ spec.role mark }
{
    match mark {
        Mark::Power => Role::Infix(Binary::Power),
        Mark::Open => Role::Opens,
        Mark::Star => Role::Either(Unary::Unevaluated, Binary::Multiply),
        Mark::Slash => Role::Infix(Binary::Divide),
        Mark::Plus => Role::Either(Unary::Plus, Binary::Add),
        Mark::Minus => Role::Either(Unary::Minus, Binary::Subtract),
        Mark::Dot => Role::Either(Unary::NameOf, Binary::Conditional),
        Mark::Dollar => Role::Either(Unary::Indirect, Binary::Immediate),
        Mark::At => Role::Prefix(Unary::Cursor),
        Mark::Question => Role::Prefix(Unary::Interrogate),
        Mark::Ampersand => Role::Refers,
        Mark::Bar => Role::Infix(Binary::Alternate),
        Mark::Tilde => Role::Prefix(Unary::Negate),
        _ => Role::Neither,
    }
}

/// How loosely an operator binds.
pub(crate) fn grade(op: Binary) -> u8
    ensures { result ≡ grammar.grade op }
{
    match op {
        Binary::Conditional | Binary::Immediate => 1,
        Binary::Power => 2,
        Binary::Multiply => 3,
        Binary::Divide => 4,
        Binary::Add | Binary::Subtract => 5,
        Binary::Concatenate => 6,
        Binary::Alternate => 7,
    }
}
