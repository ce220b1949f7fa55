//! Texts of statements, written anew.

use crate::characters::{cut_at, cut_name, is_in_name, is_printable, is_same_word};
use crate::library::Library;
use crate::notes::{Change, Notes};
use crate::units::{Extra, extra_arguments, unit_and_file};
use std::alloc::{AllocError, Global};
use std::mem;

/// A keyword of other systems, and what stands for it.
#[derive(Clone, Copy)]
struct Keyword {
    name: &'static [u8],
    text: &'static str,
}

const KEYWORDS: [Keyword; 10] = [
    Keyword {
        name: b"LCASE",
        text: "'abcdefghijklmnopqrstuvwxyz'",
    },
    Keyword {
        name: b"UCASE",
        text: "'ABCDEFGHIJKLMNOPQRSTUVWXYZ'",
    },
    Keyword {
        name: b"DIGITS",
        text: "'0123456789'",
    },
    Keyword {
        name: b"ARB",
        text: "ARB",
    },
    Keyword {
        name: b"BAL",
        text: "BAL",
    },
    Keyword {
        name: b"REM",
        text: "REM",
    },
    Keyword {
        name: b"FAIL",
        text: "FAIL",
    },
    Keyword {
        name: b"FENCE",
        text: "FENCE",
    },
    Keyword {
        name: b"ABORT",
        text: "ABORT",
    },
    Keyword {
        name: b"SUCCEED",
        text: "SUCCEED",
    },
];

/// A text that is written anew, card by card, and what was seen in it.
#[derive(Drop)]
pub(crate) struct Text {
    alloc: Global,
    folds: bool,
    quote: Option<u8>,
    is_prototype: bool,
    out: Vec<u8>,
    pub(crate) library: Library,
    pub(crate) notes: Notes,
    /// The words that give units the files that the text names.
    pub(crate) files: Vec<u8>,
}

impl Text {
    /// An empty text, where small letters of names are raised or not.
    pub(crate) fn new(alloc: Global, folds: bool) -> Text {
        Text {
            alloc,
            folds,
            quote: None,
            is_prototype: false,
            out: Vec::new(alloc),
            library: Library::new(alloc),
            notes: Notes::new(alloc),
            files: Vec::new(alloc),
        }
    }

    /// Raises small letters from now on, or not.
    pub(crate) fn fold(&mut self, folds: bool) {
        self.folds = folds;
    }

    /// Another text begins.
    pub(crate) fn begin(&mut self) {
        self.quote = None;
        self.is_prototype = false;
    }

    /// Whether a literal isn't closed.
    pub(crate) fn is_open(&self) -> bool {
        self.quote.is_some()
    }

    /// Whether a word is this one, which is of capital letters.
    pub(crate) fn is_word(&self, word: &[u8], capitals: &[u8]) -> bool {
        if self.folds {
            is_same_word(word, capitals)
        } else {
            word == capitals
        }
    }

    // Puts a name, in capital letters if small ones are raised.
    fn put_name(&mut self, name: &[u8]) -> Result<(), AllocError> {
        for byte in name.iter().copied() {
            if self.folds && byte.is_ascii_lowercase() {
                self.notes.put(Change::Letters)?;
                self.out.push(byte.to_ascii_uppercase())?;
            } else {
                self.out.push(byte)?;
            }
        }
        Ok(())
    }

    // Puts a byte that is in no name and no literal.
    fn put_mark(&mut self, byte: u8) -> Result<(), AllocError> {
        if byte != b'(' && byte != b' ' && byte != b'\t' {
            self.is_prototype = false;
        }
        match byte {
            b'\t' => {
                self.notes.put(Change::Tabs)?;
                self.out.push(b' ')?;
            }
            b'[' | b']' => {
                self.notes.put(Change::Brackets)?;
                self.out.push(if byte == b'[' { b'<' } else { b'>' })?;
            }
            b'\\' => {
                self.notes.put(Change::Operators)?;
                self.out.push(b'~')?;
            }
            b'^' | b'!' => {
                self.notes.put(Change::Operators)?;
                self.out.extend_from_slice(b"**")?;
            }
            _ => self.out.push(byte)?,
        }
        Ok(())
    }

    // Puts a literal whose bytes cards may have.
    fn put_plain(&mut self, quote: u8, inside: &[u8]) -> Result<(), AllocError> {
        self.out.push(quote)?;
        self.out.extend_from_slice(inside)?;
        self.out.push(quote)?;
        Ok(())
    }

    // Puts a literal as a concatenation, with each byte that no card has as a call of CHAR.
    fn put_pieces(&mut self, quote: u8, inside: &[u8]) -> Result<(), AllocError> {
        self.notes.put(Change::Bytes)?;
        self.library.call(b"CHAR")?;
        let mut mark = b'(';
        let mut rest = inside;
        for _ in 0..inside.len() {
            let count = rest.iter().take_while(|byte| is_printable(**byte)).count();
            let (run, more) = cut_at(rest, count);
            if !run.is_empty() {
                self.out.push(mark)?;
                mark = b' ';
                self.put_plain(quote, run)?;
            }
            let Some((byte, more)) = more.split_first() else {
                break;
            };
            let number = *byte;
            let call = format!(in self.alloc; "CHAR({number})")?;
            self.out.push(mark)?;
            mark = b' ';
            self.out.extend_from_slice(call.as_bytes())?;
            rest = more;
        }
        self.out.push(b')')?;
        Ok(())
    }

    // Puts a literal that is the prototype of a function or a type.
    fn put_prototype(&mut self, quote: u8, inside: &[u8]) -> Result<(), AllocError> {
        self.out.push(quote)?;
        let start = self.out.len();
        for byte in inside.iter().copied() {
            if byte == b' ' || byte == b'\t' {
                self.notes.put(Change::Prototypes)?;
            } else {
                self.put_name(&[byte])?;
            }
        }
        let (name, _) = cut_name(self.out.get(start..).unwrap_or(&[]));
        self.library.define(name)?;
        self.out.push(quote)?;
        Ok(())
    }

    // Puts a literal, whose bytes behind the quote these are; what is left behind it.
    fn put_literal<'a>(&mut self, quote: u8, more: &'a [u8]) -> Result<&'a [u8], AllocError> {
        let Some(end) = more.iter().position(|byte| *byte == quote) else {
            self.quote = Some(quote);
            self.out.push(quote)?;
            self.out.extend_from_slice(more)?;
            return Ok(&[]);
        };
        let (inside, _) = cut_at(more, end);
        if self.is_prototype {
            self.put_prototype(quote, inside)?;
        } else if inside.iter().all(|byte| is_printable(*byte)) {
            self.put_plain(quote, inside)?;
        } else {
            self.put_pieces(quote, inside)?;
        }
        self.is_prototype = false;
        let (_, rest) = cut_at(more, end.saturating_add(1));
        Ok(rest)
    }

    // Puts what goes on a literal that isn't closed yet; what is left behind it.
    fn put_open<'a>(&mut self, line: &'a [u8]) -> Result<&'a [u8], AllocError> {
        let Some(quote) = self.quote else {
            return Ok(line);
        };
        let end = match line.iter().position(|byte| *byte == quote) {
            Some(end) => {
                self.quote = None;
                end.saturating_add(1)
            }
            None => line.len(),
        };
        let (inside, rest) = cut_at(line, end);
        self.out.extend_from_slice(inside)?;
        Ok(rest)
    }

    // Puts a keyword, whose bytes behind the mark these are; what is left behind it.
    fn put_keyword<'a>(&mut self, more: &'a [u8]) -> Result<&'a [u8], AllocError> {
        self.is_prototype = false;
        let (name, rest) = cut_name(more);
        for keyword in KEYWORDS.iter().copied() {
            if self.is_word(name, keyword.name) {
                self.notes.put(Change::Operators)?;
                self.out.extend_from_slice(keyword.text.as_bytes())?;
                return Ok(rest);
            }
        }
        self.out.push(b'&')?;
        self.put_name(name)?;
        Ok(rest)
    }

    // Puts the word that gives a unit the file which a call names, if it names one.
    fn put_file(&mut self, arguments: &[u8]) -> Result<(), AllocError> {
        let Some((unit, file)) = unit_and_file(arguments) else {
            return Ok(());
        };
        if !self.files.is_empty() {
            self.files.push(b' ')?;
        }
        self.files.extend_from_slice(unit)?;
        self.files.push(b'=')?;
        self.files.extend_from_slice(file)?;
        Ok(())
    }

    // Puts a word of a text; the arguments of a unit that aren't put behind it.
    fn put_word(&mut self, word: &[u8], behind: &[u8]) -> Result<Option<Extra>, AllocError> {
        let start = self.out.len();
        self.put_name(word)?;
        if behind.first() != Some(&b'(') {
            self.is_prototype = false;
            return Ok(None);
        }
        self.library.call(self.out.get(start..).unwrap_or(&[]))?;
        self.is_prototype = self.is_word(word, b"DEFINE") || self.is_word(word, b"DATA");
        if self.is_word(word, b"INPUT") || self.is_word(word, b"OUTPUT") {
            self.put_file(behind)?;
            return Ok(extra_arguments(behind));
        }
        Ok(None)
    }

    // Puts the piece with which some bytes begin; what is left behind it.
    fn put_piece<'a>(
        &mut self,
        rest: &'a [u8],
        extra: &mut Option<Extra>,
    ) -> Result<&'a [u8], AllocError> {
        match rest {
            [] => Ok(&[]),
            [quote @ (b'\'' | b'"'), more @ ..] => self.put_literal(*quote, more),
            [b'&', more @ ..] => self.put_keyword(more),
            [first, more @ ..] => {
                if !is_in_name(*first) {
                    self.put_mark(*first)?;
                    return Ok(more);
                }
                let (word, behind) = cut_name(rest);
                if let Some(found) = self.put_word(word, behind)? {
                    *extra = Some(found);
                }
                Ok(behind)
            }
        }
    }

    /// Puts a card of a text; what of it is a comment behind the statement.
    pub(crate) fn put_card<'a>(&mut self, line: &'a [u8]) -> Result<Option<&'a [u8]>, AllocError> {
        let mut rest = self.put_open(line)?;
        let mut extra: Option<Extra> = None;
        for _ in 0..line.len() {
            match extra {
                Some(found) if found.from == rest.len() => {
                    self.notes.put(Change::Files)?;
                    let (_, behind) = cut_at(rest, found.from.saturating_sub(found.to));
                    rest = behind;
                    extra = None;
                }
                _ => (),
            }
            match rest {
                [] => break,
                [b';', b'*', comment @ ..] => return Ok(Some(comment)),
                _ => rest = self.put_piece(rest, &mut extra)?,
            }
        }
        Ok(None)
    }

    /// Takes what was put of the text.
    pub(crate) fn take(&mut self) -> Vec<u8> {
        mem::replace(&mut self.out, Vec::new(self.alloc))
    }
}
