//! Trees that are made of the parts of those that are gone.

ghost use Rattle.std.specs.Prelude.{◌≡◌, [], IfOk};
ghost use Rattle.model.specs.Deck.TreeViews.{args_of, expr_of};
ghost use Rattle.model.specs.Deck.Trees as trees;

use crate::{drop_boxed, drop_expression};
use model::{Argument, Binary, Body, Expr, Goto, Place, Stmt, Unary};
use std::alloc::{AllocError, Global};
use std::mem;

/// Boxes, texts and lists of trees that are gone, for new trees. A box keeps what it holds, and becomes a new
/// expression of the same kind.
pub struct FreeParts {
    alloc: Global,
    names: Vec<Box<Expr>>,
    integers: Vec<Box<Expr>>,
    literals: Vec<Box<Expr>>,
    keywords: Vec<Box<Expr>>,
    calls: Vec<Box<Expr>>,
    references: Vec<Box<Expr>>,
    unaries: Vec<Box<Expr>>,
    binaries: Vec<Box<Expr>>,
    /// Boxes whose expression was moved out, with a number in its place.
    emptied: Vec<Box<Expr>>,
    texts: Vec<Vec<u8>>,
    lists: Vec<Vec<Argument>>,
}

// An expression that is a text: a box of its kind with another text, or a new one.
macro_rules! leaf {
    ($parts:expr, $list:ident, $kind:ident, $text:expr) => {{
        if let Some(found) = $parts.$list.pop() {
            let mut node = found;
            if let Expr::$kind(text) = &mut *node {
                text.clear();
                text.extend_from_slice($text)?;
                return Ok(node);
            }
        }
        let text = Vec::from_slice($parts.alloc, $text)?;
        Ok(Box::new($parts.alloc, Expr::$kind(text))?)
    }};
}

impl Drop for FreeParts {
    fn drop(self) {
        let FreeParts {
            alloc,
            names: _,
            integers: _,
            literals: _,
            keywords: _,
            calls,
            references,
            unaries,
            binaries,
            emptied: _,
            texts: _,
            lists: _,
        } = self;
        for deep in [calls, references, unaries, binaries] {
            for expr in deep {
                drop_boxed(alloc, expr);
            }
        }
    }
}

impl FreeParts {
    /// No parts.
    pub fn new(alloc: Global) -> FreeParts {
        FreeParts {
            alloc,
            names: Vec::new(alloc),
            integers: Vec::new(alloc),
            literals: Vec::new(alloc),
            keywords: Vec::new(alloc),
            calls: Vec::new(alloc),
            references: Vec::new(alloc),
            unaries: Vec::new(alloc),
            binaries: Vec::new(alloc),
            emptied: Vec::new(alloc),
            texts: Vec::new(alloc),
            lists: Vec::new(alloc),
        }
    }

    /// Where memory comes from if no part is there.
    pub fn alloc(&self) -> Global {
        self.alloc
    }

    /// A variable by its name.
    #[inline(never)]
    pub fn name(&mut self, text: &[u8]) -> Result<Box<Expr>, AllocError>
        ensures { IfOk result (λ e. expr_of e.value ≡ trees.Name text.now) }
    {
        leaf!(self, names, Name, text)
    }

    /// A literal of these bytes.
    #[inline(never)]
    pub fn literal(&mut self, text: &[u8]) -> Result<Box<Expr>, AllocError>
        ensures { IfOk result (λ e. expr_of e.value ≡ trees.Literal text.now) }
    {
        leaf!(self, literals, Literal, text)
    }

    /// A keyword by its name.
    #[inline(never)]
    pub fn keyword(&mut self, text: &[u8]) -> Result<Box<Expr>, AllocError>
        ensures { IfOk result (λ e. expr_of e.value ≡ trees.Keyword text.now) }
    {
        leaf!(self, keywords, Keyword, text)
    }

    /// An integer.
    #[inline(never)]
    pub fn integer(&mut self, number: i64) -> Result<Box<Expr>, AllocError>
        ensures { IfOk result (λ e. expr_of e.value ≡ trees.Integer number) }
    {
        if let Some(found) = self.integers.pop() {
            let mut node = found;
            if let Expr::Integer(place) = &mut *node {
                *place = number;
                return Ok(node);
            }
        }
        Ok(Box::new(self.alloc, Expr::Integer(number))?)
    }

    /// An operator and its operand.
    #[inline(never)]
    pub fn unary(&mut self, op: Unary, operand: Box<Expr>) -> Result<Box<Expr>, AllocError>
        ensures { IfOk result (λ e. expr_of e.value ≡ trees.Apply op (expr_of operand.value)) }
    {
        if let Some(found) = self.unaries.pop() {
            let mut node = found;
            if let Expr::Unary(place, inner) = &mut *node {
                *place = op;
                let gone = mem::replace(inner, operand);
                self.keep_boxed(gone);
                return Ok(node);
            }
        }
        Ok(Box::new(self.alloc, Expr::Unary(op, operand))?)
    }

    /// An operator with its left operand and its right one.
    #[inline(never)]
    pub fn binary(
        &mut self,
        op: Binary,
        left: Box<Expr>,
        right: Box<Expr>,
    ) -> Result<Box<Expr>, AllocError>
        ensures { IfOk result (λ e.
            expr_of e.value ≡ trees.Combine op (expr_of left.value) (expr_of right.value)) }
    {
        if let Some(found) = self.binaries.pop() {
            let mut node = found;
            if let Expr::Binary(place, first, second) = &mut *node {
                *place = op;
                let gone = mem::replace(first, left);
                self.keep_boxed(gone);
                let gone = mem::replace(second, right);
                self.keep_boxed(gone);
                return Ok(node);
            }
        }
        Ok(Box::new(self.alloc, Expr::Binary(op, left, right))?)
    }

    /// A call of a function of this name.
    #[inline(never)]
    pub fn call(&mut self, text: &[u8], arguments: Vec<Argument>) -> Result<Box<Expr>, AllocError>
        ensures { IfOk result (λ e. expr_of e.value ≡ trees.Call text.now (args_of arguments.items)) }
    {
        if let Some(found) = self.calls.pop() {
            let mut node = found;
            if let Expr::Call(name, list) = &mut *node {
                name.clear();
                name.extend_from_slice(text)?;
                let gone = mem::replace(list, arguments);
                self.keep_list(gone);
                return Ok(node);
            }
        }
        let name = Vec::from_slice(self.alloc, text)?;
        Ok(Box::new(self.alloc, Expr::Call(name, arguments))?)
    }

    /// A reference to an element of what a variable of this name has.
    #[inline(never)]
    pub fn reference(
        &mut self,
        text: &[u8],
        subscripts: Vec<Argument>,
    ) -> Result<Box<Expr>, AllocError>
        ensures { IfOk result (λ e. expr_of e.value ≡ trees.Reference text.now (args_of subscripts.items)) }
    {
        if let Some(found) = self.references.pop() {
            let mut node = found;
            if let Expr::Reference(name, list) = &mut *node {
                name.clear();
                name.extend_from_slice(text)?;
                let gone = mem::replace(list, subscripts);
                self.keep_list(gone);
                return Ok(node);
            }
        }
        let name = Vec::from_slice(self.alloc, text)?;
        Ok(Box::new(self.alloc, Expr::Reference(name, subscripts))?)
    }

    /// The expression behind a pointer, which is kept.
    #[inline(always)]
    pub fn unboxed(&mut self, expr: Box<Expr>) -> Expr
        ensures { result ≡ expr.value }
    {
        let mut node = expr;
        let inner = mem::replace(&mut *node, Expr::Integer(0));
        let _ = self.emptied.push(node);
        inner
    }

    /// A text of these bytes.
    #[inline(never)]
    pub fn text(&mut self, bytes: &[u8]) -> Result<Vec<u8>, AllocError>
        ensures { IfOk result (λ text. text.items ≡ bytes.now) }
    {
        match self.texts.pop() {
            Some(found) => {
                let mut text = found;
                text.clear();
                text.extend_from_slice(bytes)?;
                Ok(text)
            }
            None => Vec::from_slice(self.alloc, bytes),
        }
    }

    /// A list of no arguments.
    pub fn list(&mut self) -> Vec<Argument>
        ensures { result.items ≡ [] }
    {
        match self.lists.pop() {
            Some(found) => {
                let mut list = found;
                list.clear();
                list
            }
            None => Vec::new(self.alloc),
        }
    }

    fn keep_text(&mut self, text: &mut Vec<u8>) {
        let gone = mem::replace(text, Vec::new(self.alloc));
        let _ = self.texts.push(gone);
    }

    /// Keeps an expression behind a pointer.
    #[inline(always)]
    pub fn keep_boxed(&mut self, expr: Box<Expr>) {
        let list = match &*expr {
            Expr::Name(_) => &mut self.names,
            Expr::Integer(_) => &mut self.integers,
            Expr::Literal(_) => &mut self.literals,
            Expr::Keyword(_) => &mut self.keywords,
            Expr::Call(_, _) => &mut self.calls,
            Expr::Reference(_, _) => &mut self.references,
            Expr::Unary(_, _) => &mut self.unaries,
            Expr::Binary(_, _, _) => &mut self.binaries,
        };
        let _ = list.push(expr);
    }

    /// Keeps what an expression is, and leaves a number in its place.
    #[inline(always)]
    pub fn keep(&mut self, expr: &mut Expr) {
        if let Some(found) = self.emptied.pop() {
            let mut node = found;
            mem::swap(&mut *node, expr);
            self.keep_boxed(node);
        } else {
            drop_expression(self.alloc, mem::replace(expr, Expr::Integer(0)));
        }
    }

    /// Keeps a list and its arguments.
    #[inline(never)]
    fn keep_list(&mut self, list: Vec<Argument>) {
        let mut list = list;
        for argument in &mut list {
            if let Argument::Given(expr) = argument {
                self.keep(expr);
            }
        }
        list.clear();
        let _ = self.lists.push(list);
    }

    /// Keeps the parts of a place.
    pub fn keep_place(&mut self, place: &mut Place) {
        match place {
            Place::Label(label) => self.keep_text(label),
            Place::Computed(expr) => self.keep(expr),
        }
    }

    fn keep_object(&mut self, object: &mut Option<Expr>) {
        if let Some(expr) = object {
            self.keep(expr);
        }
    }

    /// Keeps the parts of what a statement does.
    pub fn keep_body(&mut self, body: &mut Body) {
        match body {
            Body::Nothing => {}
            Body::Evaluate(subject) => self.keep(subject),
            Body::Match(subject, pattern) => {
                self.keep(subject);
                self.keep(pattern);
            }
            Body::Assign(subject, object) => {
                self.keep(subject);
                self.keep_object(object);
            }
            Body::Replace(subject, pattern, object) => {
                self.keep(subject);
                self.keep(pattern);
                self.keep_object(object);
            }
        }
    }

    fn keep_goto(&mut self, goto: &mut Goto) {
        match goto {
            Goto::Next => {}
            Goto::Always(place) | Goto::OnSuccess(place) | Goto::OnFailure(place) => {
                self.keep_place(place)
            }
            Goto::Both(success, failure) => {
                self.keep_place(success);
                self.keep_place(failure);
            }
        }
    }

    /// Keeps the parts of a statement.
    #[inline(never)]
    pub fn keep_statement(&mut self, statement: &mut Stmt) {
        if let Stmt::Plain { label, body, goto } = statement {
            if let Some(label) = label {
                self.keep_text(label);
            }
            self.keep_body(body);
            self.keep_goto(goto);
        }
    }
}
