//! A cursor over tokens.

ghost use Rattle.std.specs.Prelude.{◌≡◌, false, IfSome, if◌then◌else◌, length};
ghost use Rattle.model.specs.Deck.Lexed.{IsLexed, Lexed};
ghost use Rattle.model.specs.Deck.Parse as spec;
ghost use Rattle.model.specs.Deck.ParseStatements as ahead;
ghost use Rattle.model.specs.Deck.Tokens.{tok, toks};
ghost use Rattle.stmt_parser.specs.Views as view;

use crate::marks::{Role, grade, role_of};
use model::{Binary, Mark, Token, TokenKind, Unary};
use std::marker::Model;

/// The tokens that are left.
#[derive(Drop)]
pub(crate) struct Cursor<'a> {
    rest: &'a [Token<'a>],
}

impl<'a> Model for Cursor<'a> {
    ghost use Rattle.std.specs.Prelude.{List};
    ghost use Rattle.model.specs.Deck.Lexed.{Lexed};
    ghost use Rattle.model.specs.Deck.Tokens.{Tok, toks};

    ghost Value = { List Tok };

    ghost view = { λ c. toks c.rest.now };

    ghost invariant = { λ c. Lexed c.rest.now };
}

impl<'a> Cursor<'a> {
    pub(crate) fn new(tokens: &'a [Token<'a>]) -> Cursor<'a>
        requires { Lexed tokens.now }
        ensures { result ≡ toks tokens.now }
    {
        Cursor { rest: tokens }
    }

    pub(crate) fn len(&self) -> usize
        ensures { result ≡ length self.now }
    {
        self.rest.len()
    }

    /// Takes the next token.
    pub(crate) fn take(&mut self) -> Option<Token<'a>>
        ensures taken { view.Taken self.old result self.new }
        ensures lexed { IfSome result IsLexed }
    {
        match self.rest {
            [] => None,
            [first, rest @ ..] => {
                self.rest = rest;
                Some(*first)
            }
        }
    }

    /// Whether the mark of a unary operator comes next.
    #[inline(always)]
    pub(crate) fn sees_prefix(&self) -> bool
        ensures { result ≡ false → view.Unprefixed self.now }
    {
        match self.rest {
            [first, ..] => unary_of(first).is_some(),
            [] => false,
        }
    }

    /// Takes the mark of a unary operator, where one comes next.
    pub(crate) fn prefix(&mut self) -> Option<Unary>
        ensures { view.Prefixed self.old result self.new }
    {
        match self.rest {
            [first, rest @ ..] => {
                let op = unary_of(first)?;
                self.rest = rest;
                Some(op)
            }
            [] => None,
        }
    }

    /// Takes blanks, where they come next.
    #[tactic(auto, unfolding(model::specs::Deck::Parse::skip))]
    pub(crate) fn skip(&mut self)
        ensures { self.new ≡ spec.skip self.old }
    {
        self.rest = past_blanks(self.rest);
    }

    /// Takes this mark, where it comes next.
    #[tactic(auto, unfolding(model::specs::Deck::Parse::sees))]
    pub(crate) fn eat(&mut self, mark: Mark) -> bool
        ensures found { result ≡ spec.sees mark self.old }
        ensures after { self.new ≡ (if result then spec.tail self.old else self.old) }
    {
        match self.rest {
            [first, rest @ ..] if is_mark(first, mark) => {
                self.rest = rest;
                true
            }
            _ => false,
        }
    }

    /// Takes blanks and this mark, where they come next.
    #[tactic(auto, unfolding(model::specs::Deck::Parse::sees, model::specs::Deck::ParseStatements::sees_spaced))]
    pub(crate) fn eat_spaced(&mut self, mark: Mark) -> bool
        ensures found { result ≡ ahead.sees_spaced mark self.old }
        ensures after { self.new ≡ (if result then spec.tail (spec.tail self.old) else self.old) }
    {
        match self.rest {
            [first, second, rest @ ..] if is_blank(first) && is_mark(second, mark) => {
                self.rest = rest;
                true
            }
            _ => false,
        }
    }

    /// Takes this word, where it comes next.
    #[tactic(auto, unfolding(model::specs::Deck::ParseStatements::sees_word))]
    pub(crate) fn eat_word(&mut self, word: &[u8]) -> bool
        ensures found { result ≡ ahead.sees_word word.now self.old }
        ensures after { self.new ≡ (if result then spec.tail self.old else self.old) }
    {
        match self.rest {
            [first, rest @ ..] if is_word(first, word) => {
                self.rest = rest;
                true
            }
            _ => false,
        }
    }

    /// Takes blanks and this word, where the word comes next but for blanks.
    #[tactic(auto, unfolding(model::specs::Deck::ParseStatements::sees_word))]
    pub(crate) fn eat_word_past_blanks(&mut self, word: &[u8]) -> bool
        ensures found { result ≡ ahead.sees_word word.now (spec.skip self.old) }
        ensures after { self.new ≡ (if result then spec.tail (spec.skip self.old) else self.old) }
    {
        match past_blanks(self.rest) {
            [first, rest @ ..] if is_word(first, word) => {
                self.rest = rest;
                true
            }
            _ => false,
        }
    }

    /// Takes blanks, where an element begins behind them.
    #[tactic(auto, unfolding(model::specs::Deck::Parse::starts, model::specs::Deck::ParseStatements::starts_spaced))]
    pub(crate) fn enter(&mut self) -> bool
        ensures found { result ≡ ahead.starts_spaced self.old }
        ensures after { self.new ≡ (if result then spec.tail self.old else self.old) }
    {
        match self.rest {
            [first, rest @ ..] if is_blank(first) && starts(rest) => {
                self.rest = rest;
                true
            }
            _ => false,
        }
    }

    /// Takes blanks, where a name stands behind them.
    #[tactic(auto, unfolding(model::specs::Deck::ParseStatements::word_spaced))]
    pub(crate) fn enter_name(&mut self) -> bool
        ensures found { result ≡ ahead.word_spaced self.old }
        ensures after { self.new ≡ (if result then spec.tail self.old else self.old) }
    {
        match self.rest {
            [first, rest @ ..] if is_blank(first) && starts_word(rest) => {
                self.rest = rest;
                true
            }
            _ => false,
        }
    }

    /// Whether an element begins here.
    pub(crate) fn starts(&self) -> bool
        ensures { result ≡ spec.starts self.now }
    {
        starts(self.rest)
    }

    /// Whether a name comes next.
    pub(crate) fn starts_word(&self) -> bool
        ensures { result ≡ ahead.starts_word self.now }
    {
        starts_word(self.rest)
    }

    /// The operator that comes next, and how many tokens it takes.
    #[tactic(auto, unfolding(model::specs::Deck::Parse::next))]
    fn next(&self) -> (Option<Binary>, usize)
        ensures { view.Seen self.now result.0 result.1 }
    {
        match self.rest {
            [first, mark, rest @ ..] if is_blank(first) => after_blank(mark, rest),
            _ => (None, 0),
        }
    }

    /// The grade of the operator that comes next, or 0 where none does.
    #[inline(always)]
    pub(crate) fn grade_ahead(&self) -> u8
        ensures { result ≡ view.grade_ahead (spec.next self.now) }
    {
        match self.next() {
            (Some(op), _) => grade(op),
            (None, _) => 0,
        }
    }

    /// Takes the operator of this grade, where one comes next.
    #[inline(always)]
    pub(crate) fn operator(&mut self, wanted: u8) -> Option<Binary>
        ensures { view.Operated wanted self.old result self.new }
    {
        let (op, width) = self.next();
        match op {
            Some(op) if grade(op) == wanted => {
                self.rest = &self.rest[width..];
                Some(op)
            }
            _ => None,
        }
    }
}

fn is_blank(token: &Token<'_>) -> bool
    ensures { result ≡ ahead.is_blank_tok (tok token.now) }
{
    match token.kind {
        TokenKind::Blank => true,
        _ => false,
    }
}

/// The unary operator that a token may be.
fn unary_of(token: &Token<'_>) -> Option<Unary>
    ensures { result ≡ view.prefix_of (tok token.now) }
{
    match token.kind {
        TokenKind::Mark(m) => match role_of(m) {
            Role::Prefix(op) | Role::Either(op, _) => Some(op),
            _ => None,
        },
        _ => None,
    }
}

fn is_mark(token: &Token<'_>, mark: Mark) -> bool
    ensures { result ≡ spec.sees_tok mark (tok token.now) }
{
    match token.kind {
        TokenKind::Mark(m) => mark == m,
        _ => false,
    }
}

fn is_word(token: &Token<'_>, word: &[u8]) -> bool
    ensures { result ≡ ahead.word_is word.now (tok token.now) }
{
    match token.kind {
        TokenKind::Name => token.text == word,
        _ => false,
    }
}

#[tactic(auto, unfolding(model::specs::Deck::Parse::skip))]
fn past_blanks<'a>(tokens: &'a [Token<'a>]) -> &'a [Token<'a>]
    ensures tokens { toks result.now ≡ spec.skip (toks tokens.now) }
    ensures lexed { Lexed tokens.now → Lexed result.now }
{
    match tokens {
        [first, rest @ ..] if is_blank(first) => rest,
        _ => tokens,
    }
}

/// Whether an element begins here.
#[tactic(auto, unfolding(model::specs::Deck::Parse::starts))]
fn starts(tokens: &[Token<'_>]) -> bool
    ensures { result ≡ spec.starts (toks tokens.now) }
{
    match tokens {
        [first, ..] => match first.kind {
            TokenKind::Blank => false,
            TokenKind::Mark(m) => role_of(m).starts(),
            _ => true,
        },
        [] => false,
    }
}

/// Whether a name comes next.
#[tactic(auto, unfolding(model::specs::Deck::ParseStatements::starts_word))]
fn starts_word(tokens: &[Token<'_>]) -> bool
    ensures { result ≡ ahead.starts_word (toks tokens.now) }
{
    match tokens {
        [first, ..] => matches!(first.kind, TokenKind::Name),
        [] => false,
    }
}

#[tactic(auto, unfolding(model::specs::Deck::Parse::next))]
fn after_blank(token: &Token<'_>, rest: &[Token<'_>]) -> (Option<Binary>, usize)
    ensures { view.SeenAfter (tok token.now) (toks rest.now) result.0 result.1 }
{
    let follows = match rest {
        [next, ..] => is_blank(next),
        [] => false,
    };
    match token.kind {
        TokenKind::Blank => (None, 0),
        TokenKind::Mark(m) => match role_of(m) {
            Role::Either(_, op) if follows => (Some(op), 3),
            Role::Infix(op) if follows => (Some(op), 3),
            Role::Infix(_) | Role::Neither => (None, 0),
            _ => (Some(Binary::Concatenate), 1),
        },
        _ => (Some(Binary::Concatenate), 1),
    }
}
