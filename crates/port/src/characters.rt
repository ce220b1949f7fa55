//! Bytes and names.

/// Whether a card may have a byte.
pub(crate) fn is_printable(byte: u8) -> bool {
    (32..=126).contains(&byte)
}

/// Whether a name may have a byte behind its first letter.
pub(crate) fn is_in_name(byte: u8) -> bool {
    byte.is_ascii_alphanumeric() || byte == b'.' || byte == b'_'
}

/// Some bytes cut behind the name with which they begin, which may be empty.
pub(crate) fn cut_name(bytes: &[u8]) -> (&[u8], &[u8]) {
    let end = bytes.iter().take_while(|byte| is_in_name(**byte)).count();
    cut_at(bytes, end)
}

/// Some bytes cut at a place, at their end if they have no such place.
pub(crate) fn cut_at(bytes: &[u8], place: usize) -> (&[u8], &[u8]) {
    (
        bytes.get(..place).unwrap_or(bytes),
        bytes.get(place..).unwrap_or(&[]),
    )
}

/// Some bytes without the blanks and tabs with which they begin.
pub(crate) fn without_blanks(bytes: &[u8]) -> &[u8] {
    let count = bytes
        .iter()
        .take_while(|byte| **byte == b' ' || **byte == b'\t')
        .count();
    bytes.get(count..).unwrap_or(&[])
}

/// Whether two texts differ in the case of letters alone.
pub(crate) fn is_same_word(one: &[u8], other: &[u8]) -> bool {
    one.len() == other.len()
        && one
            .iter()
            .zip(other.iter())
            .all(|(a, b)| a.to_ascii_uppercase() == b.to_ascii_uppercase())
}

/// Whether a card begins with this word, in letters of any case, and a blank or nothing behind it.
pub(crate) fn begins_with_word(card: &[u8], word: &[u8]) -> bool {
    let (name, rest) = cut_name(card);
    is_same_word(name, word) && matches!(rest.first(), None | Some(b' ' | b'\t' | b'\r'))
}
