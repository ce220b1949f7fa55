//! The instructions of a module.

ghost use Rattle.std.specs.Prelude.{◌≡◌};
ghost use Rattle.model.specs.Language.Calls.{return_of};
ghost use Rattle.model.specs.Module.Images.{instr_size};

use crate::keys::KeyId;
use crate::primitives::PrimId;

/// How a function is left.
#[derive(Clone, Copy)]
pub enum ReturnKind {
    /// With the value of the variable of its name.
    Return,
    /// As a failure.
    FReturn,
    /// With the name that the value of the variable of its name converts to.
    NReturn,
}

impl ReturnKind {
    /// How a label of this name leaves a function, if it does.
    pub fn named(name: &[u8]) -> Option<ReturnKind>
        ensures { result ≡ return_of name.now }
    {
        if name == b"RETURN".as_slice() {
            Some(ReturnKind::Return)
        } else if name == b"FRETURN".as_slice() {
            Some(ReturnKind::FReturn)
        } else if name == b"NRETURN".as_slice() {
            Some(ReturnKind::NReturn)
        } else {
            None
        }
    }
}

/// A sign before an integer.
#[derive(Clone, Copy)]
pub enum SignOp {
    Plus,
    Minus,
}

/// An operator of two integers.
#[derive(Clone, Copy)]
pub enum ArithOp {
    Add,
    Subtract,
    Multiply,
    /// Cut towards zero.
    Divide,
    Power,
}

/// An instruction, in the order of the codes that modules have for them; docs/module-format.md says what each does.
#[derive(Clone, Copy)]
pub enum Instr {
    /// The run ends normally.
    End,
    /// A statement begins. The offset at which the statement goes on after a failure.
    Begin(u32),
    /// The statement's body is done; its goto begins.
    Body,
    /// To the statement of that number.
    Goto(u32),
    /// Out of a function.
    Return(ReturnKind),
    /// To the label that a value is.
    GotoV,
    /// A label that isn't defined.
    NoLabel,
    /// The string of that number.
    Str(u32),
    /// An integer.
    Int(i64),
    /// The null string.
    Null,
    /// A variable; the number of the string that is its name.
    Var(u32),
    /// From a name to its value, which may read a record.
    Fetch,
    /// A keyword's value.
    KeyGet(KeyId),
    /// An assignment to a keyword.
    KeySet(KeyId),
    /// Unary `$`.
    Indir,
    /// A reference; how many subscripts.
    Elem(u16),
    /// An assignment, which may write a record.
    Assign,
    /// Unary `.`.
    NameV,
    /// Unary `*`; the expression's number.
    Expr(u32),
    /// A call for a value: the number of the string that is the function's name, and how many arguments.
    CallV(u32, u16),
    /// A call for a name: the number of the string that is the function's name, and how many arguments.
    CallN(u32, u16),
    /// A primitive for a value, and how many arguments.
    PrimV(PrimId, u8),
    /// A primitive for a name, and how many arguments.
    PrimN(PrimId, u8),
    /// The newest value is dropped.
    Drop,
    /// The offset at which to go on after a failure.
    Try(u32),
    /// The newest `Try` is over.
    Untry,
    /// A failure.
    Fail,
    /// Unary `+` or `-`.
    Sign(SignOp),
    /// Arithmetic of two values.
    Arith(ArithOp),
    /// Concatenation.
    Cat,
    /// `|`.
    Alt,
    /// Binary `.`.
    Cond,
    /// Binary `$`.
    Imm,
    /// Unary `@`.
    Cursor,
    /// The constant pattern of that number.
    Pat(u32),
    /// As `Fetch`, and the name stays.
    FetchK,
    /// A match of a subject and a pattern.
    Match,
    /// A match of a subject and a pattern whose part is replaced behind it.
    MatchR,
    /// The replacement of what matched.
    Splice,
    /// The end of an unevaluated expression.
    Ret,
}

impl Instr {
    /// How many bytes it has in a module.
    pub fn size(self) -> u32
        ensures { result ≡ instr_size self }
    {
        match self {
            Instr::Int(_) => 9,
            Instr::CallV(..) | Instr::CallN(..) => 7,
            Instr::Begin(_) | Instr::Goto(_) | Instr::Str(_) | Instr::Var(_) => 5,
            Instr::Expr(_) | Instr::Try(_) | Instr::Pat(_) => 5,
            Instr::Elem(_) | Instr::PrimV(..) | Instr::PrimN(..) => 3,
            Instr::Return(_) | Instr::KeyGet(_) | Instr::KeySet(_) => 2,
            Instr::Sign(_) | Instr::Arith(_) => 2,
            _ => 1,
        }
    }
}
