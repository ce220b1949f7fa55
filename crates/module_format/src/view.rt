//! An image as its bytes hold it.

ghost use Rattle.std.specs.Prelude.{◌≡◌, IfOk, length, map, option_map, slice_get};
ghost use Rattle.module_format.specs.Views.{instrs_left};

use crate::instrs::Instrs;
use model::{Bytes, Image, Instr, Label, Level, PatInstr, Seq};
use std::alloc::{AllocError, Global};
use std::marker::Model;

/// An image whose strings and code are slices of the bytes that it was read from. Contracts see the image.
pub struct ImageView<'a> {
    pub(crate) level: Level,
    pub(crate) entry: u32,
    pub(crate) strings: Vec<&'a [u8]>,
    pub(crate) labels: Seq<Label>,
    pub(crate) statements: Seq<u32>,
    pub(crate) cards: Seq<u32>,
    pub(crate) expressions: Seq<u32>,
    pub(crate) patterns: Seq<Seq<PatInstr>>,
    /// How many instructions the code has.
    pub(crate) len: usize,
    pub(crate) code: &'a [u8],
}

impl<'a> Drop for ImageView<'a> {
    fn drop(self) {
        let ImageView {
            level: _,
            entry: _,
            strings: _,
            labels: _,
            statements: _,
            cards: _,
            expressions: _,
            patterns: _,
            len: _,
            code: _,
        } = self;
    }
}

impl<'a> Model for ImageView<'a> {
    ghost use Rattle.std.specs.Prelude.{◌≡◌, length, map};
    ghost use Rattle.model.specs.declared.image.Image.{Image};
    ghost use Rattle.module_format.specs.Views.{instrs_from};

    ghost Value = { Image };

    ghost view = { λ v. record {
      level = v.level;
      entry = v.entry;
      strings = map (λ s. s.now) v.strings.items;
      labels = v.labels;
      statements = v.statements;
      cards = v.cards;
      expressions = v.expressions;
      patterns = v.patterns;
      code = instrs_from v.len v.code.now;
    } };

    ghost invariant = { λ v. length (instrs_from v.len v.code.now) ≡ v.len };
}

impl<'a> ImageView<'a> {
    /// What the module may name, and whether it has cards.
    pub fn level(&self) -> Level
        ensures { result ≡ self.now.level }
    {
        self.level
    }

    /// The number of the first statement to run.
    pub fn entry(&self) -> u32
        ensures { result ≡ self.now.entry }
    {
        self.entry
    }

    /// Names and literals, no two equal.
    pub fn strings(&self) -> &[&'a [u8]]
        ensures each { map (λ s. s.now) result.now ≡ self.now.strings }
        ensures count { length result.now ≡ length self.now.strings }
    {
        self.strings.as_slice()
    }

    /// The string of this number, if there is one.
    pub fn string(&self, number: u32) -> Option<&'a [u8]>
        ensures { option_map (λ s. s.now) result ≡ slice_get self.now.strings number }
    {
        self.strings.as_slice().get(number as usize).copied()
    }

    /// The labels but END, in the order of their statements.
    pub fn labels(&self) -> &[Label]
        ensures { result.now ≡ self.now.labels }
    {
        self.labels.as_slice()
    }

    /// Each statement's offset.
    pub fn statements(&self) -> &[u32]
        ensures { result.now ≡ self.now.statements }
    {
        self.statements.as_slice()
    }

    /// The card where each statement begins, from 1; 0 where that isn't known.
    pub fn cards(&self) -> &[u32]
        ensures { result.now ≡ self.now.cards }
    {
        self.cards.as_slice()
    }

    /// Each unevaluated expression's offset.
    pub fn expressions(&self) -> &[u32]
        ensures { result.now ≡ self.now.expressions }
    {
        self.expressions.as_slice()
    }

    /// Each constant pattern's code.
    pub fn patterns(&self) -> &[Seq<PatInstr>]
        ensures { result.now ≡ self.now.patterns }
    {
        self.patterns.as_slice()
    }

    /// How many instructions the code has.
    pub fn code_len(&self) -> usize
        ensures { result ≡ length self.now.code }
    {
        self.len
    }

    /// The instructions, one after another.
    pub fn code(&self) -> Instrs<'a>
        ensures { instrs_left result ≡ self.now.code }
    {
        Instrs::new(self.len, self.code)
    }

    /// The instructions, each read from its bytes.
    pub fn decoded(&self, alloc: Global) -> Result<Seq<Instr>, AllocError>
        ensures { IfOk result (λ code. code ≡ self.now.code) }
    {
        collected(alloc, self.len, self.code())
    }

    /// The image, with copies of the strings and the code.
    pub fn into_image(self, alloc: Global) -> Result<Image, AllocError>
        ensures { IfOk result (λ image. image ≡ self.entry) }
    {
        let strings = copied(alloc, self.strings.as_slice())?;
        let code = self.decoded(alloc)?;
        let ImageView {
            level,
            entry,
            strings: _,
            labels,
            statements,
            cards,
            expressions,
            patterns,
            len: _,
            code: _,
        } = self;
        Ok(Image {
            level,
            entry,
            strings,
            labels,
            statements,
            cards,
            expressions,
            patterns,
            code,
        })
    }
}

// The strings, each copied.
fn copied(alloc: Global, strings: &[&[u8]]) -> Result<Seq<Bytes>, AllocError>
    ensures { IfOk result (λ copies. copies ≡ map (λ s. s.now) strings.now) }
{
    let mut copies = Vec::with_capacity(alloc, strings.len())?;
    for string in strings {
        copies.push(Seq::from_vec(Vec::from_slice(alloc, *string)?))?;
    }
    Ok(Seq::from_vec(copies))
}

// The instructions, of which there are so many.
fn collected(alloc: Global, len: usize, instrs: Instrs<'_>) -> Result<Seq<Instr>, AllocError>
    ensures { IfOk result (λ code. code ≡ instrs_left instrs.entry) }
{
    let mut code = Vec::with_capacity(alloc, len)?;
    for instr in instrs {
        code.push(instr)?;
    }
    Ok(Seq::from_vec(code))
}
