//! The decks and the files of units among the words.

use driver::UnitFile;
use std::alloc::{AllocFailed, Global};
use std::fmt;

/// The last unit.
const MOST_UNIT: u64 = 99;

/// The unit whose records are the words behind `--`.
pub const WORDS_UNIT: u8 = 4;

/// The decks in order, and the files of units, at most one for each.
#[derive(Drop)]
pub struct GivenFiles<'a> {
    pub decks: Vec<&'a str>,
    pub files: Vec<UnitFile<'a>>,
}

/// What is wrong with a word.
#[derive(Clone, Copy)]
pub enum BadWord<'a> {
    NoUnit(&'a str),
    NoFile(&'a str),
    GivenTwice(&'a str),
    /// Unit 4 has words and a file.
    TwoSources(&'a str),
    NoDeck,
}

impl fmt::Display for BadWord<'_> {
    fn fmt<W: fmt::Write>(&self, f: &mut fmt::Formatter<W>) -> fmt::Result {
        match *self {
            BadWord::NoUnit(word) => write!(f, "no unit in '{word}': units are 0 to 99"),
            BadWord::NoFile(word) => write!(f, "no file in '{word}'"),
            BadWord::GivenTwice(word) => write!(f, "'{word}': another file is given for the unit"),
            BadWord::TwoSources(word) => {
                write!(f, "'{word}': the records of unit 4 are the words behind --")
            }
            BadWord::NoDeck => write!(f, "no deck is given"),
        }
    }
}

/// Why words aren't sorted.
#[derive(Drop)]
pub(crate) enum Unsorted<'a> {
    Bad(BadWord<'a>),
    NoMemory,
}

impl<T: Drop> From<AllocFailed<T>> for Unsorted<'_> {
    fn from(_e: AllocFailed<T>) -> Self {
        Unsorted::NoMemory
    }
}

// A word cut at its first `=`, if digits alone stand before it.
fn cut<'a>(word: &'a str) -> Option<(&'a str, &'a str)> {
    let (unit, file) = word.split_once('=')?;
    let is_number = !unit.is_empty() && unit.as_bytes().iter().all(|byte| byte.is_ascii_digit());
    is_number.then_some((unit, file))
}

// The unit that digits spell, if there is such a unit.
fn unit_of(digits: &str) -> Option<u8> {
    let mut number: u64 = 0;
    for byte in digits.as_bytes().iter().copied() {
        number = number
            .saturating_mul(10)
            .saturating_add(u64::from(byte.saturating_sub(b'0')));
    }
    if number > MOST_UNIT {
        return None;
    }
    u8::try_from(number).ok()
}

// The file that a word gives for a unit.
fn unit_file<'a>(
    word: &'a str,
    digits: &str,
    file: &'a str,
    has_records: bool,
) -> Result<UnitFile<'a>, BadWord<'a>> {
    let unit = unit_of(digits).ok_or(BadWord::NoUnit(word))?;
    if file.is_empty() {
        return Err(BadWord::NoFile(word));
    }
    if unit == WORDS_UNIT && has_records {
        return Err(BadWord::TwoSources(word));
    }
    Ok(UnitFile { unit, file })
}

/// Words as decks and files of units, where these records are given for unit 4.
pub(crate) fn sorted<'a>(
    alloc: Global,
    words: &[&'a str],
    records: &[&str],
) -> Result<GivenFiles<'a>, Unsorted<'a>> {
    let mut decks = Vec::new(alloc);
    let mut files: Vec<UnitFile<'a>> = Vec::new(alloc);
    for word in words.iter().copied() {
        let Some((digits, file)) = cut(word) else {
            decks.push(word)?;
            continue;
        };
        let given = match unit_file(word, digits, file, !records.is_empty()) {
            Ok(given) => given,
            Err(bad) => return Err(Unsorted::Bad(bad)),
        };
        if files.iter().any(|other| other.unit == given.unit) {
            return Err(Unsorted::Bad(BadWord::GivenTwice(word)));
        }
        files.push(given)?;
    }
    if decks.is_empty() {
        return Err(Unsorted::Bad(BadWord::NoDeck));
    }
    Ok(GivenFiles { decks, files })
}
