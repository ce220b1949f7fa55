//! Statements.

ghost use Rattle.std.specs.Prelude.{◌≡◌, ◌⊎◌, IfErr, IfOk};
ghost use Rattle.model.specs.Deck.Lexed.{Lexed};
ghost use Rattle.model.specs.Deck.ParseStatements as spec;
ghost use Rattle.model.specs.Deck.Statements.{HasNoTree, Tree};
ghost use Rattle.model.specs.Deck.Tokens.{toks};
ghost use Rattle.model.specs.Deck.TreeViews.{label_of, stmt_of};
ghost use Rattle.model.specs.declared.causes.Cause.TheVariants as cause;
ghost use Rattle.stmt_parser.specs.Views.{Parses, Reads, boxed_stmt_of};

use crate::bodies::body;
use crate::cursor::Cursor;
use crate::gotos::goto;
use crate::stop::Stop;
use model::{Cause, Stmt, Token, TokenKind};
use std::alloc::AllocError;
use tree_drops::FreeParts;

/// The one statement that has these tokens.
pub fn parse_statement(free: &mut FreeParts, tokens: &[Token<'_>]) -> Result<Box<Stmt>, Cause>
    requires { Lexed tokens.now }
    ensures tree { IfOk result (λ s. Tree (stmt_of s.value) (toks tokens.now)) }
    // No other cause than that there is none, or no memory.
    ensures cause { IfErr result (λ c.
        (c ≡ cause.Memory) ⊎ ((c ≡ cause.NoTree) × HasNoTree (toks tokens.now))) }
{
    match all(free, tokens) {
        Ok(statement) => Ok(statement),
        Err(Stop::NoTree) => Err(Cause::NoTree),
        Err(Stop::Memory) => Err(Cause::Memory),
    }
}

/// A statement behind a pointer.
fn node(free: &mut FreeParts, statement: Stmt) -> Result<Box<Stmt>, AllocError>
    ensures { IfOk result (λ s. boxed_stmt_of s ≡ stmt_of statement) }
{
    Ok(Box::new(free.alloc(), statement)?)
}

#[tactic(auto, unfolding(model::specs::Deck::ParseStatements::stmt))]
fn all(free: &mut FreeParts, tokens: &[Token<'_>]) -> Result<Box<Stmt>, Stop>
    requires { Lexed tokens.now }
    ensures { Parses (spec.stmt (toks tokens.now)) result }
{
    let mut cursor = Cursor::new(tokens);
    let mut found = statement(free, &mut cursor, tokens.len())?;
    match cursor.take() {
        None => Ok(found),
        Some(_) => {
            free.keep_statement(&mut found);
            Err(Stop::NoTree)
        }
    }
}

#[tactic(auto, unfolding(model::specs::Deck::ParseStatements::statement_parser, model::specs::Deck::Parse::bind))]
fn statement(free: &mut FreeParts, cursor: &mut Cursor<'_>, depth: usize) -> Result<Box<Stmt>, Stop>
    ensures { Reads boxed_stmt_of (spec.statement_parser depth cursor.old) result cursor.new }
{
    if cursor.eat_word(b"END") {
        return after_end(free, cursor);
    }
    let label = label(free, cursor)?;
    after_label(free, cursor, depth, label)
}

#[tactic(auto, unfolding(model::specs::Deck::ParseStatements::after_label, model::specs::Deck::Parse::bind))]
fn after_label(
    free: &mut FreeParts,
    cursor: &mut Cursor<'_>,
    depth: usize,
    label: Option<Vec<u8>>,
) -> Result<Box<Stmt>, Stop>
    ensures { Reads boxed_stmt_of (spec.after_label depth (label_of label) cursor.old) result cursor.new }
{
    let mut body = body(free, cursor, depth)?;
    match goto(free, cursor, depth) {
        Ok(goto) => {
            cursor.skip();
            Ok(node(free, Stmt::Plain { label, body, goto })?)
        }
        Err(stop) => {
            free.keep_body(&mut body);
            Err(stop)
        }
    }
}

/// `[B name] [B]`
#[tactic(auto, unfolding(model::specs::Deck::ParseStatements::after_end, model::specs::Deck::Parse::bind))]
fn after_end(free: &mut FreeParts, cursor: &mut Cursor<'_>) -> Result<Box<Stmt>, Stop>
    ensures { Reads boxed_stmt_of (spec.after_end cursor.old) result cursor.new }
{
    let entry = if cursor.enter_name() {
        label(free, cursor)?
    } else {
        None
    };
    cursor.skip();
    Ok(node(free, Stmt::End { entry })?)
}

/// A name, where one comes next.
fn label(free: &mut FreeParts, cursor: &mut Cursor<'_>) -> Result<Option<Vec<u8>>, Stop>
    ensures { Reads label_of (spec.label_parser cursor.old) result cursor.new }
{
    if !cursor.starts_word() {
        return Ok(None);
    }
    match cursor.take() {
        Some(token) => Ok(Some(free.text(token.text)?)),
        None => Ok(None),
    }
}
