//! Tokens of a statement's text, or the least of the causes L1 to L5.
//!
//! `lex(&mut tokens, text)` puts the tokens into a list, each with its kind, its bytes and the place where they stand in
//! the text. The list can be used for text after text.
//!
//!     let mut tokens = Vec::new(alloc);
//!     lex(&mut tokens, b"N = N + 1")?;
//!
//! `first_name(text)` gives the name that a text begins with, without the tokens behind it.
//!
//! Promised: they are the one cut of the text (`Cut` of `model`), blanks among them; a text is refused exactly where
//! its pieces break one of L1 to L5, by the least, or for want of memory. The tokens are such as the parser asks for
//! (`Lexed`).
#![tactic(auto)]

ghost use Rattle.std.specs.Prelude.{◌≡◌, ◌≢◌, ◌≤◌, length, option_map, IfOk, IfErr, OnOk, None, Some};
ghost use Rattle.model.specs.declared.causes.Cause.TheVariants as cause;
ghost use Rattle.model.specs.Deck.Cut.{Cut, least_lexical};
ghost use Rattle.model.specs.Deck.Lexed.{Lexed};
ghost use Rattle.model.specs.Deck.Pieces.{pieces};
ghost use Rattle.lexer.specs.Lexed.{AreTokens, name_in_front, pieces_of, Spans};
ghost use Rattle.lexer.specs.Scans.{fits, name_found};

mod class;
mod limits;
mod scan;

use crate::limits::Limits;
use crate::scan::{Scanned, scan};
use model::{Cause, Token, TokenKind};

// Puts the tokens of the text in place of others. What they break of L3 to L5.
#[inline(never)]
fn cut_text<'a>(tokens: &mut Vec<Token<'a>>, text: &'a [u8]) -> Result<Limits, Cause>
    ensures tokens { IfOk result (λ limits. AreTokens text.now tokens.new.items limits) }
    ensures cause { IfErr result (λ c.
        c ≢ cause.Memory → least_lexical (pieces text.now) ≡ Some c) }
{
    tokens.clear();
    let mut limits = Limits::new();
    let mut start = 0;
    while let Some(found) = scan(&text[start..]) {
        let (kind, len) = match found {
            Scanned::Token(kind, len) => (kind, len),
            Scanned::Stray => return Err(Cause::StrayByte),
            Scanned::Unclosed => return Err(Cause::UnclosedLiteral),
        };
        let end = start + len;
        let bytes = &text[start..end];
        limits.see(kind, bytes);
        let token = Token {
            kind,
            start,
            end,
            text: bytes,
        };
        let Ok(()) = tokens.push(token) else {
            return Err(Cause::Memory);
        };
        start = end;
    }
    Ok(limits)
}

/// Puts the tokens that the text is cut into in place of others, or gives the least of L1 to L5 that its pieces break.
pub fn lex<'a>(tokens: &mut Vec<Token<'a>>, text: &'a [u8]) -> Result<(), Cause>
    ensures cut { OnOk result (Cut text.now (pieces_of tokens.new.items)) }
    ensures spans { OnOk result (Spans 0 (length text.now) text.now tokens.new.items) }
    ensures fair { OnOk result (least_lexical (pieces text.now) ≡ None) }
    ensures lexed { OnOk result (Lexed tokens.new.items) }
    ensures cause { IfErr result (λ c.
        c ≢ cause.Memory → least_lexical (pieces text.now) ≡ Some c) }
{
    let limits = cut_text(tokens, text)?;
    match limits.least() {
        Some(cause) => Err(cause),
        None => Ok(()),
    }
}

// The name that this piece in front of a text is.
fn name_of(text: &[u8], found: Scanned) -> Option<&[u8]>
    requires { fits text.now found }
    ensures { option_map (λ name. name.now) result ≡ name_found text.now found }
{
    match found {
        Scanned::Token(TokenKind::Name, len) => Some(&text[..len]),
        _ => None,
    }
}

/// The name that a text begins with, if it begins with one.
pub fn first_name(text: &[u8]) -> Option<&[u8]>
    ensures { option_map (λ name. name.now) result ≡ name_in_front (pieces text.now) }
{
    match scan(text) {
        Some(found) => name_of(text, found),
        None => None,
    }
}
