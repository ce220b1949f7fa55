//! The lines of a deck.

ghost use Rattle.std.specs.Prelude.{◌≡◌, ◌≤◌, ◌<◌, ◌+◌, ◌∷◌, [], length, Some, None};
ghost use Rattle.card_reader.specs.Lines.{IsNextLine};

use memchr::memchr;

/// The first line, without its line feed, and what follows it.
pub(crate) fn next_line(deck: &[u8]) -> Option<(&[u8], &[u8])>
    ensures { IsNextLine deck.now result }
{
    if deck.is_empty() {
        return None;
    }
    match memchr(b'\n', deck) {
        Some(end) => Some((&deck[..end], &deck[end + 1..])),
        None => Some((deck, &deck[deck.len()..])),
    }
}
