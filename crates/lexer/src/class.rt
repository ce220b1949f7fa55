//! What a byte is to the scan.

ghost use Rattle.std.specs.Prelude.{◌≡◌};
ghost use Rattle.model.specs.Deck.Cut as cut;
ghost use Rattle.lexer.specs.Scans.{class_of};

use model::Mark;

/// What a byte is; each is exactly one of these.
#[derive(Clone, Copy)]
pub(crate) enum Class {
    Space,
    Letter,
    Digit,
    Quote,
    Star,
    Dot,
    Underscore,
    /// A mark of one byte other than `*` and `.`.
    Sign(Mark),
    Other,
}

#[inline(always)]
#[tactic(auto, unfolding(model::specs::Deck::Cut::class))]
pub(crate) fn byte_class(byte: u8) -> Class
    ensures { class_of result ≡ cut.class byte }
{
    match byte {
        b' ' => Class::Space,
        b'A'..=b'Z' | b'a'..=b'z' => Class::Letter,
        b'0'..=b'9' => Class::Digit,
        b'\'' | b'"' => Class::Quote,
        b'*' => Class::Star,
        b'.' => Class::Dot,
        b'_' => Class::Underscore,
        b'(' => Class::Sign(Mark::Open),
        b')' => Class::Sign(Mark::Close),
        b'<' => Class::Sign(Mark::Less),
        b'>' => Class::Sign(Mark::Greater),
        b',' => Class::Sign(Mark::Comma),
        b'=' => Class::Sign(Mark::Equal),
        b':' => Class::Sign(Mark::Colon),
        b'/' => Class::Sign(Mark::Slash),
        b'+' => Class::Sign(Mark::Plus),
        b'-' => Class::Sign(Mark::Minus),
        b'$' => Class::Sign(Mark::Dollar),
        b'@' => Class::Sign(Mark::At),
        b'?' => Class::Sign(Mark::Question),
        b'&' => Class::Sign(Mark::Ampersand),
        b'|' => Class::Sign(Mark::Bar),
        b'~' => Class::Sign(Mark::Tilde),
        _ => Class::Other,
    }
}

#[inline(always)]
#[tactic(auto, unfolding(model::specs::Deck::Cut::class))]
pub(crate) fn is_space(byte: u8) -> bool
    ensures { result ≡ cut.is_space byte }
{
    byte == b' '
}

#[inline(always)]
#[tactic(auto, unfolding(model::specs::Deck::Cut::class))]
pub(crate) fn is_word(byte: u8) -> bool
    ensures { result ≡ cut.is_word byte }
{
    matches!(byte, b'A'..=b'Z' | b'a'..=b'z' | b'0'..=b'9' | b'.' | b'_')
}

#[inline(always)]
#[tactic(auto, unfolding(model::specs::Deck::Cut::class))]
pub(crate) fn is_digit(byte: u8) -> bool
    ensures { result ≡ cut.is_digit byte }
{
    byte.is_ascii_digit()
}
