//! Lines of a listing.

use std::io::{self, Write};

/// How wide the numbers before a card are.
const MARGIN: usize = 16;

/// The least and the greatest width.
const NARROWEST: usize = 40;

const WIDEST: usize = 132;

/// How lines are written: how wide, and whether in colours.
#[derive(Clone, Copy)]
pub struct Style {
    width: usize,
    has_colours: bool,
}

impl Style {
    /// Lines of some width, from 40 to 132.
    pub fn new(width: usize, has_colours: bool) -> Style {
        Style {
            width: width.clamp(NARROWEST, WIDEST),
            has_colours,
        }
    }

    // How many columns of a card fit on a line.
    fn room(self) -> usize {
        self.width.saturating_sub(MARGIN)
    }
}

fn blanks<W: Write>(count: usize, out: &mut W) -> io::Result<()> {
    for _ in 0..count {
        out.write_all(b" ")?;
    }
    Ok(())
}

// A byte of a card; one that isn't printable as its number.
fn byte_shown<W: Write>(byte: u8, out: &mut W) -> io::Result<()> {
    match byte {
        32..=126 => out.write_all(&[byte]),
        _ => write!(out, "\\x{byte:02x}"),
    }
}

/// Bytes, those that aren't printable as their numbers.
pub(crate) fn printable<W: Write>(bytes: &[u8], out: &mut W) -> io::Result<()> {
    for byte in bytes.iter().copied() {
        byte_shown(byte, out)?;
    }
    Ok(())
}

/// The text of a card, on as many lines as it needs.
pub(crate) fn text<W: Write>(style: Style, line: &[u8], out: &mut W) -> io::Result<()> {
    let room = style.room();
    let mut column: usize = 0;
    for byte in line.iter().copied() {
        if column == room {
            out.write_all(b"\n")?;
            blanks(MARGIN, out)?;
            column = 0;
        }
        byte_shown(byte, out)?;
        column = column.saturating_add(1);
    }
    out.write_all(b"\n")
}

/// A caret under a column of a card whose text fits on one line.
pub(crate) fn caret<W: Write>(style: Style, column: usize, out: &mut W) -> io::Result<()> {
    if column >= style.room() {
        return Ok(());
    }
    blanks(MARGIN.saturating_add(column), out)?;
    out.write_all(b"^\n")
}

/// A sentence within the width, each line behind some blanks.
pub(crate) fn sentence<W: Write>(
    style: Style,
    margin: usize,
    words: &str,
    out: &mut W,
) -> io::Result<()> {
    let mut column: usize = 0;
    for word in words.split(' ') {
        let next = column.saturating_add(word.len()).saturating_add(1);
        if column == 0 {
            blanks(margin, out)?;
            column = margin.saturating_add(word.len());
        } else if next > style.width {
            out.write_all(b"\n")?;
            blanks(margin, out)?;
            column = margin.saturating_add(word.len());
        } else {
            out.write_all(b" ")?;
            column = next;
        }
        out.write_all(word.as_bytes())?;
    }
    out.write_all(b"\n")
}

/// What begins what is to be seen first, and what ends it.
pub(crate) fn loud<W: Write>(style: Style, on: bool, out: &mut W) -> io::Result<()> {
    match (style.has_colours, on) {
        (false, _) => Ok(()),
        (true, true) => out.write_all(b"\x1b[1;31m"),
        (true, false) => out.write_all(b"\x1b[0m"),
    }
}
