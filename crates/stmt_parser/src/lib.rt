//! Statements from tokens.
//!
//! `parse_statement(&mut free, &tokens)` gives the tree of one statement.
//!
//!     let mut free = FreeParts::new(alloc);
//!     let mut tokens = Vec::new(alloc);
//!     lex(&mut tokens, b"N = N + 1")?;
//!     let tree = parse_statement(&mut free, &tokens)?;
//!
//! Promised: the one tree that has these tokens by the grammar (`Tree` of `model`'s `Statements`), or P1 exactly where
//! none has; want of memory is a result of its own. It asks for tokens as `lexer` cuts them (`Lexed`).
#![tactic(auto)]

mod bodies;
mod cursor;
mod expressions;
mod gotos;
mod marks;
mod parts;
mod statements;
mod stop;

pub use statements::parse_statement;
