//! A module as data.

use crate::instr::Instr;
use crate::seq::{Bytes, Seq};

/// An instruction of a pattern in a module. Literals and sets of bytes are numbers of strings, and distances count
/// instructions from the instruction itself.
#[derive(Clone, Copy)]
pub enum PatInstr {
    /// The bytes of a string.
    Lit(u32),
    /// Goes on, and keeps a choice at that distance.
    Split(i32),
    /// Goes on at that distance.
    Jmp(i32),
    /// That many bytes.
    Len(u64),
    /// No byte, where the cursor stands there.
    Pos(u64),
    /// No byte, where that many bytes are left.
    RPos(u64),
    /// The bytes up to that cursor.
    Tab(u64),
    /// The bytes up to where that many are left.
    RTab(u64),
    /// One byte of the set.
    Any(u32),
    /// One byte outside the set.
    NotAny(u32),
    /// The longest run of bytes of the set, at least one.
    Span(u32),
    /// The bytes up to the next byte of the set, which must exist.
    Break(u32),
}

/// A label and the statement that it names.
#[derive(Clone, Copy)]
pub struct Label {
    /// The number of the string that is its name.
    pub string: u32,
    /// The statement's number.
    pub statement: u32,
}

/// The level of a module: what it may name, and whether it has cards.
#[derive(Clone, Copy)]
pub enum Level {
    /// It was written before FENCE of a pattern was there, and has no cards.
    One,
    /// As the generator writes it.
    Two,
}

/// A module before it is spelt as bytes. Offsets count bytes of the code, numbers of statements begin at 1, others at
/// 0.
pub struct Image {
    /// What it may name, and whether it has cards.
    pub level: Level,
    /// The number of the first statement to run.
    pub entry: u32,
    /// Names and literals, no two equal.
    pub strings: Seq<Bytes>,
    /// The labels but END, in the order of their statements.
    pub labels: Seq<Label>,
    /// Each statement's offset.
    pub statements: Seq<u32>,
    /// The card where each statement begins, from 1; 0 where that isn't known.
    pub cards: Seq<u32>,
    /// Each unevaluated expression's offset.
    pub expressions: Seq<u32>,
    /// Each constant pattern's code.
    pub patterns: Seq<Seq<PatInstr>>,
    /// The instructions, one after another.
    pub code: Seq<Instr>,
}

impl Drop for Image {
    fn drop(self) {
        let Image {
            level: _,
            entry: _,
            strings: _,
            labels: _,
            statements: _,
            cards: _,
            expressions: _,
            patterns: _,
            code: _,
        } = self;
    }
}
