//! What tokens may break beside their spelling: an integer's size, brackets open at once, marks in a row.

ghost use Rattle.std.specs.Prelude.{◌≡◌, ◌+◌, ◌<◌, [], nat_lt};
ghost use Rattle.model.specs.Deck.Cut as cut;
ghost use Rattle.model.specs.Deck.Digits.{decimal_value};
ghost use Rattle.model.specs.declared.tokens.TokenKind.TheVariants as kinds;
ghost use Rattle.lexer.specs.Limits.{none, after, told};

use model::{Cause, Mark, TokenKind};

/// The largest integer.
const LARGEST: u64 = 9_223_372_036_854_775_807;
/// The most brackets that may be open at once.
const MOST_OPEN: usize = 64;
/// The most marks of unary operators that may stand in a row.
const MOST_IN_ROW: usize = 16;

/// What the tokens so far have broken, and what counts for the next.
#[derive(Clone, Copy)]
pub(crate) struct Limits {
    large: bool,
    open_brackets: usize,
    deep: bool,
    row: usize,
    long: bool,
}

// Whether the number that these digits stand for is over the largest integer.
fn is_large(digits: &[u8]) -> bool
    ensures { result ≡ nat_lt 9223372036854775807 (decimal_value digits.now) }
{
    let mut number: u64 = 0;
    for d in digits {
        let digit = u64::from(d.saturating_sub(b'0'));
        if number > (LARGEST - digit) / 10 {
            return true;
        }
        number = 10 * number + digit;
    }
    false
}

impl Limits {
    pub(crate) fn new() -> Limits
        ensures { result ≡ none }
    {
        Limits {
            large: false,
            open_brackets: 0,
            deep: false,
            row: 0,
            long: false,
        }
    }

    /// Counts the next token.
    #[inline(always)]
    #[tactic(auto, unfolding(crate::specs::Limits::after))]
    pub(crate) fn see(&mut self, kind: TokenKind, text: &[u8])
        requires open { self.old.open_brackets + 1 < 18446744073709551616 }
        requires row { self.old.row + 1 < 18446744073709551616 }
        ensures { self.new ≡ after self.old (cut.Token kind text.now) }
    {
        match kind {
            TokenKind::Mark(mark) => self.see_mark(mark),
            TokenKind::Integer => {
                self.large = is_large(text) || self.large;
                self.row = 0;
            }
            _ => self.row = 0,
        }
    }

    // Counts a mark.
    #[inline(always)]
    #[tactic(auto, unfolding(crate::specs::Limits::after))]
    fn see_mark(&mut self, mark: Mark)
        requires open { self.old.open_brackets + 1 < 18446744073709551616 }
        requires row { self.old.row + 1 < 18446744073709551616 }
        ensures { (text : _) → self.new ≡ after self.old (cut.Token (kinds.Mark mark) text) }
    {
        match mark {
            Mark::Open | Mark::Less => {
                self.open_brackets += 1;
                self.row = 0;
            }
            Mark::Close | Mark::Greater => {
                self.deep = self.open_brackets > MOST_OPEN || self.deep;
                self.open_brackets = self.open_brackets.saturating_sub(1);
                self.row = 0;
            }
            Mark::Star
            | Mark::Plus
            | Mark::Minus
            | Mark::Dot
            | Mark::Dollar
            | Mark::At
            | Mark::Question
            | Mark::Ampersand
            | Mark::Tilde => {
                self.row += 1;
                self.long = self.row > MOST_IN_ROW || self.long;
            }
            _ => self.row = 0,
        }
    }

    /// The least of the causes that the tokens so far give.
    #[tactic(auto, unfolding(crate::specs::Limits::told))]
    pub(crate) fn least(self) -> Option<Cause>
        ensures { result ≡ told self [] }
    {
        if self.large {
            Some(Cause::IntegerTooLarge)
        } else if self.deep || self.open_brackets > MOST_OPEN {
            Some(Cause::TooManyBrackets)
        } else if self.long {
            Some(Cause::TooManyMarks)
        } else {
            None
        }
    }
}
