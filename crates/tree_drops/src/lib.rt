//! Trees that are dropped on a small stack, however deep they are: their parts wait in a list, and nothing is called
//! within itself.
//!
//! An `ExprTree` owns an expression that goes so. A `StmtTree` owns a statement; where the tree goes the statement waits
//! in a `LastTree`, and a `FreeParts` makes new expressions of its boxes, texts and lists.
//!
//!     let mut free = FreeParts::new(alloc);
//!     let last = Rc::new(alloc, LastTree::new(alloc))?;
//!     let tree = StmtTree::new(last.clone()?, statement);
//!     drop(tree);
//!     if let Some(mut gone) = last.take() {
//!         free.keep_statement(&mut gone);
//!     }
//!     let name = free.name(b"X")?;
//!
//! Promised: a tree is the statement or the expression that it was made of, and a new expression is what was asked for,
//! whatever its parts were before. Where memory for a list is refused, a part is dropped as it is, which takes a stack
//! as deep as the part.
#![tactic(auto)]

ghost use Rattle.std.specs.Prelude.{◌≡◌};

mod reuse;

use model::{Argument, Body, Expr, Goto, Place, Stmt};
pub use reuse::FreeParts;
use std::alloc::Global;
use std::cell::Cell;
use std::mem;
use std::rc::Rc;

/// Whether an expression has no operands and no arguments.
fn is_leaf(expr: &Expr) -> bool {
    matches!(
        expr,
        Expr::Name(_) | Expr::Integer(_) | Expr::Literal(_) | Expr::Keyword(_)
    )
}

/// Whether all arguments that are given are leaves.
fn are_leaves(arguments: &[Argument]) -> bool {
    for argument in arguments {
        if let Argument::Given(expr) = argument {
            if !is_leaf(expr) {
                return false;
            }
        }
    }
    true
}

/// Whether an expression has at most leaves as its operands and arguments, so that it can be dropped as it is.
fn is_shallow(expr: &Expr) -> bool {
    match expr {
        Expr::Unary(_, operand) => is_leaf(operand),
        Expr::Binary(_, left, right) => is_leaf(left) && is_leaf(right),
        Expr::Call(_, arguments) | Expr::Reference(_, arguments) => are_leaves(arguments),
        Expr::Name(_) | Expr::Integer(_) | Expr::Literal(_) | Expr::Keyword(_) => true,
    }
}

/// Moves an expression to those that wait, unless it is shallow. Where memory for it is refused it is dropped
/// immediately.
fn put(waiting: &mut Vec<Expr>, expr: &mut Expr) {
    if is_shallow(expr) {
        return;
    }
    let taken = mem::replace(expr, Expr::Integer(0));
    let _ = waiting.push(taken);
}

/// Moves the expressions among arguments to those that wait.
fn put_all(waiting: &mut Vec<Expr>, arguments: &mut [Argument]) {
    for argument in arguments {
        if let Argument::Given(expr) = argument {
            put(waiting, expr);
        }
    }
}

/// Moves the operands and arguments of an expression to those that wait.
fn put_parts(waiting: &mut Vec<Expr>, expr: &mut Expr) {
    match expr {
        Expr::Unary(_, operand) => put(waiting, operand),
        Expr::Binary(_, left, right) => {
            put(waiting, left);
            put(waiting, right);
        }
        Expr::Call(_, arguments) | Expr::Reference(_, arguments) => put_all(waiting, arguments),
        Expr::Name(_) | Expr::Integer(_) | Expr::Literal(_) | Expr::Keyword(_) => {}
    }
}

/// Drops all that waits, each after its parts.
fn drop_all(waiting: &mut Vec<Expr>) {
    for _ in 0..u64::MAX {
        let Some(mut expr) = waiting.pop() else {
            return;
        };
        put_parts(waiting, &mut expr);
    }
}

/// Drops an expression.
pub fn drop_expression(alloc: Global, expr: Expr) {
    let mut expr = expr;
    let mut waiting = Vec::new(alloc);
    put_parts(&mut waiting, &mut expr);
    drop_all(&mut waiting);
}

/// Drops an expression behind a pointer.
#[inline(never)]
pub fn drop_boxed(alloc: Global, expr: Box<Expr>) {
    drop_expression(alloc, Box::into_inner(expr));
}

fn put_place(waiting: &mut Vec<Expr>, place: &mut Place) {
    if let Place::Computed(expr) = place {
        put_parts(waiting, expr);
    }
}

fn put_object(waiting: &mut Vec<Expr>, object: &mut Option<Expr>) {
    if let Some(expr) = object {
        put_parts(waiting, expr);
    }
}

fn put_body(waiting: &mut Vec<Expr>, body: &mut Body) {
    match body {
        Body::Nothing => {}
        Body::Evaluate(subject) => put_parts(waiting, subject),
        Body::Match(subject, pattern) => {
            put_parts(waiting, subject);
            put_parts(waiting, pattern);
        }
        Body::Assign(subject, object) => {
            put_parts(waiting, subject);
            put_object(waiting, object);
        }
        Body::Replace(subject, pattern, object) => {
            put_parts(waiting, subject);
            put_parts(waiting, pattern);
            put_object(waiting, object);
        }
    }
}

fn put_goto(waiting: &mut Vec<Expr>, goto: &mut Goto) {
    match goto {
        Goto::Next => {}
        Goto::Always(place) | Goto::OnSuccess(place) | Goto::OnFailure(place) => {
            put_place(waiting, place)
        }
        Goto::Both(success, failure) => {
            put_place(waiting, success);
            put_place(waiting, failure);
        }
    }
}

fn put_statement(waiting: &mut Vec<Expr>, statement: &mut Stmt) {
    if let Stmt::Plain { body, goto, .. } = statement {
        put_body(waiting, body);
        put_goto(waiting, goto);
    }
}

/// Drops a statement behind a pointer.
pub fn drop_statement(alloc: Global, statement: Box<Stmt>) {
    let mut statement = statement;
    let mut waiting = Vec::new(alloc);
    put_statement(&mut waiting, &mut statement);
    drop_all(&mut waiting);
}

/// Where the statement of the tree that went last waits for its parts to be used again.
pub struct LastTree {
    alloc: Global,
    statement: Cell<Option<Box<Stmt>>>,
}

impl Drop for LastTree {
    fn drop(self) {
        let LastTree { alloc, statement } = self;
        if let Some(left) = statement.into_inner() {
            drop_statement(alloc, left);
        }
    }
}

impl LastTree {
    /// No tree has gone.
    pub fn new(alloc: Global) -> LastTree {
        LastTree {
            alloc,
            statement: Cell::new(None),
        }
    }

    /// The statement that waits, if one does.
    pub fn take(&self) -> Option<Box<Stmt>> {
        self.statement.replace(None)
    }

    // Lets a statement wait, and drops another that does.
    fn put(&self, statement: Box<Stmt>) {
        if let Some(other) = self.statement.replace(Some(statement)) {
            drop_statement(self.alloc, other);
        }
    }
}

/// A statement's tree. Where it goes its statement waits in a `LastTree`.
pub struct StmtTree {
    /// The statement.
    pub statement: Box<Stmt>,
    last: Rc<LastTree>,
}

impl Drop for StmtTree {
    fn drop(self) {
        let StmtTree { statement, last } = self;
        last.put(statement);
    }
}

impl StmtTree {
    /// The tree of a statement.
    pub fn new(last: Rc<LastTree>, statement: Box<Stmt>) -> StmtTree
        ensures { result.statement ≡ statement }
    {
        StmtTree { statement, last }
    }
}

/// An expression's tree, which is dropped on a small stack.
pub struct ExprTree {
    /// The expression.
    pub expr: Expr,
    alloc: Global,
}

impl Drop for ExprTree {
    fn drop(self) {
        let ExprTree { expr, alloc } = self;
        drop_expression(alloc, expr);
    }
}

impl ExprTree {
    /// The tree of an expression.
    pub fn new(alloc: Global, expr: Expr) -> ExprTree
        ensures { result.expr ≡ expr }
    {
        ExprTree { expr, alloc }
    }
}
