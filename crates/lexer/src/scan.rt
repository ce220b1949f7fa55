//! The first piece of a text.

ghost use Rattle.std.specs.Prelude.{◌≡◌, ◌≤◌, ℕ, ◌∷◌, length};
ghost use Rattle.model.specs.Deck.Cut as cut;
ghost use Rattle.model.specs.Deck.Pieces.{front, behind_front, quoted, starred};
ghost use Rattle.lexer.specs.Scans.{IsFound, IsScanned};

use crate::class::{Class, byte_class, is_digit, is_space, is_word};
use memchr::memchr;
use model::{Mark, TokenKind};

/// The first piece of a text: a token of so many bytes, or none.
#[derive(Drop)]
pub(crate) enum Scanned {
    Token(TokenKind, usize),
    /// A byte that begins no token.
    Stray,
    /// A quote without its end.
    Unclosed,
}

#[tactic(auto, using(crate::proofs::Fronts::front_at, crate::proofs::Fronts::front_whole))]
fn blanks(text: &[u8]) -> usize
    ensures run { result ≡ length (front cut.is_space text.now) }
    ensures within { result ≤ length text.now }
{
    for (n, b) in text.iter().enumerate() {
        if !is_space(*b) {
            return n;
        }
    }
    text.len()
}

#[tactic(auto, using(crate::proofs::Fronts::front_at, crate::proofs::Fronts::front_whole))]
fn word_bytes(text: &[u8]) -> usize
    ensures run { result ≡ length (front cut.is_word text.now) }
    ensures within { result ≤ length text.now }
{
    for (n, b) in text.iter().enumerate() {
        if !is_word(*b) {
            return n;
        }
    }
    text.len()
}

#[tactic(auto, using(crate::proofs::Fronts::front_at, crate::proofs::Fronts::front_whole))]
fn digits(text: &[u8]) -> usize
    ensures run { result ≡ length (front cut.is_digit text.now) }
    ensures within { result ≤ length text.now }
{
    for (n, b) in text.iter().enumerate() {
        if !is_digit(*b) {
            return n;
        }
    }
    text.len()
}

// What begins with this quote, where this is behind it.
fn literal(quote: u8, text: &[u8]) -> Scanned
    ensures { IsFound (quote ∷ text.now) result
        (quoted quote (front (cut.differs quote) text.now) (behind_front (cut.differs quote) text.now)) }
{
    match memchr(quote, text) {
        Some(inner) => Scanned::Token(TokenKind::Literal, inner + 2),
        None => Scanned::Unclosed,
    }
}

// What begins with a star, where this is behind it.
fn stars(text: &[u8]) -> Scanned
    ensures { (b : ℕ) → IsFound (b ∷ text.now) result (starred b text.now) }
{
    match text {
        [b'*', ..] => Scanned::Token(TokenKind::Mark(Mark::Power), 2),
        _ => Scanned::Token(TokenKind::Mark(Mark::Star), 1),
    }
}

// The first piece, if the text isn't empty.
#[inline(always)]
pub(crate) fn scan(text: &[u8]) -> Option<Scanned>
    ensures { IsScanned text.now result }
{
    let [first, rest @ ..] = text else {
        return None;
    };
    Some(match byte_class(*first) {
        Class::Space => Scanned::Token(TokenKind::Blank, blanks(rest) + 1),
        Class::Letter => Scanned::Token(TokenKind::Name, word_bytes(rest) + 1),
        Class::Digit => Scanned::Token(TokenKind::Integer, digits(rest) + 1),
        Class::Quote => literal(*first, rest),
        Class::Star => stars(rest),
        Class::Dot => Scanned::Token(TokenKind::Mark(Mark::Dot), 1),
        Class::Sign(mark) => Scanned::Token(TokenKind::Mark(mark), 1),
        Class::Underscore | Class::Other => Scanned::Stray,
    })
}
