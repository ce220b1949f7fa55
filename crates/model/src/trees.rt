//! Statements and expressions as trees.

use crate::seq::Seq;

/// A unary operator.
#[derive(Clone, Copy, PartialEq, Eq)]
pub enum Unary {
    /// `.`, the name of a variable
    NameOf,
    /// `$`, the variable that a value names
    Indirect,
    /// `*`, the expression itself, unevaluated
    Unevaluated,
    /// `@`, the cursor of a match
    Cursor,
    /// `+`
    Plus,
    /// `-`
    Minus,
    /// `?`, null where the operand succeeds
    Interrogate,
    /// `~`, null where the operand fails
    Negate,
}

/// A binary operator.
#[derive(Clone, Copy, PartialEq, Eq)]
pub enum Binary {
    /// `.`, an assignment after the match
    Conditional,
    /// `$`, an assignment within the match
    Immediate,
    /// `**`
    Power,
    /// `*`
    Multiply,
    /// `/`
    Divide,
    /// `+`
    Add,
    /// `-`
    Subtract,
    /// blanks
    Concatenate,
    /// `|`
    Alternate,
}

/// An expression. Round brackets leave no trace in it.
#[cycle(trees)]
pub enum Expr {
    /// A variable, by its name.
    Name(Vec<u8>),
    /// An integer literal.
    Integer(i64),
    /// The bytes between the quotes.
    Literal(Vec<u8>),
    /// `&` and the keyword's name.
    Keyword(Vec<u8>),
    /// `F(..)`, of a primitive or a function of the program's own.
    Call(Vec<u8>, Vec<Argument>),
    /// `A<..>`; no subscript is absent.
    Reference(Vec<u8>, Vec<Argument>),
    /// An operator and its operand.
    Unary(Unary, Box<Expr>),
    /// An operator, its left operand and its right one.
    Binary(Binary, Box<Expr>, Box<Expr>),
}

impl Drop for Expr {
    #[cycle(trees)]
    fn drop(self) {
        match self {
            Expr::Name(_) | Expr::Literal(_) | Expr::Keyword(_) => {}
            Expr::Integer(_) => {}
            Expr::Call(_, _) | Expr::Reference(_, _) => {}
            Expr::Unary(_, _) => {}
            Expr::Binary(_, _, _) => {}
        }
    }
}

/// An argument, which may be absent.
#[cycle(trees)]
pub enum Argument {
    /// Nothing stands there; it counts as the null string.
    Absent,
    /// An expression stands there.
    Given(Expr),
}

impl Drop for Argument {
    #[cycle(trees)]
    fn drop(self) {
        match self {
            Argument::Absent => {}
            Argument::Given(_) => {}
        }
    }
}

/// Where a goto leads.
pub enum Place {
    /// To a label.
    Label(Vec<u8>),
    /// `$` and an element, whose value is the label.
    Computed(Expr),
}

impl Drop for Place {
    fn drop(self) {
        match self {
            Place::Label(_) => {}
            Place::Computed(_) => {}
        }
    }
}

/// The goto part of a statement.
pub enum Goto {
    /// None: to the next statement.
    Next,
    /// `:(place)`
    Always(Place),
    /// `:S(place)`
    OnSuccess(Place),
    /// `:F(place)`
    OnFailure(Place),
    /// The place after success, then that after failure.
    Both(Place, Place),
}

impl Drop for Goto {
    fn drop(self) {
        match self {
            Goto::Next => {}
            Goto::Always(_) | Goto::OnSuccess(_) | Goto::OnFailure(_) => {}
            Goto::Both(_, _) => {}
        }
    }
}

/// What a statement does. An absent object is `None`.
pub enum Body {
    /// A label, a goto or both alone.
    Nothing,
    /// A subject alone.
    Evaluate(Expr),
    /// Subject and pattern.
    Match(Expr, Expr),
    /// Subject and object.
    Assign(Expr, Option<Expr>),
    /// Subject, pattern and object.
    Replace(Expr, Expr, Option<Expr>),
}

impl Drop for Body {
    fn drop(self) {
        match self {
            Body::Nothing => {}
            Body::Evaluate(_) => {}
            Body::Match(_, _) | Body::Assign(_, _) => {}
            Body::Replace(_, _, _) => {}
        }
    }
}

/// A statement.
pub enum Stmt {
    /// Every statement but END.
    Plain {
        /// The label that it gives, if any.
        label: Option<Vec<u8>>,
        /// What it does.
        body: Body,
        /// Where execution goes on.
        goto: Goto,
    },
    /// The last statement, END.
    End {
        /// The label where execution begins; without one it begins at the first statement.
        entry: Option<Vec<u8>>,
    },
}

impl Drop for Stmt {
    fn drop(self) {
        match self {
            Stmt::Plain {
                label: _,
                body: _,
                goto: _,
            } => {}
            Stmt::End { entry: _ } => {}
        }
    }
}

/// A deck without faults, as trees.
#[derive(Drop)]
pub struct Program {
    /// In order, END's last.
    pub statements: Vec<Stmt>,
    /// The card where each statement begins.
    pub cards: Seq<u32>,
}
