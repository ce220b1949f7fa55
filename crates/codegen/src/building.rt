//! The image of a program, statement by statement.

ghost use Rattle.std.specs.Prelude.{◌≡◌, ◌<◌, ◌≤◌, ◌+◌, ◌*◌, ◌^◌, ℕ, List, [], ◌∷◌, ◌++◌, Option};
ghost use Rattle.std.specs.Prelude.{map, length, OnOk, IfOk};
ghost use Rattle.std.specs.List.{AllByRecursion};
ghost use Rattle.model.specs.Deck.TreeViews.{stmt_of};
ghost use Rattle.model.specs.Deck.Trees as trees;
ghost use Rattle.model.specs.Deck.Weights as weights;
ghost use Rattle.model.specs.Language.Programs.{number_or};
ghost use Rattle.expr_codegen.specs.Emitting.{Countable, size};
ghost use Rattle.expr_codegen.specs.Texts.{with_texts};
ghost use Rattle.expr_codegen.specs.Views.{gen_of};
ghost use Rattle.model.specs.declared.image.Image.{Image};
ghost use Rattle.model.specs.Module.Spelling.{IsImage, spelling};
ghost use Rattle.codegen.specs.Building.{HasPut, IsDraftOf, IsNamed, own_entries, own_texts};
ghost use Rattle.codegen.specs.Countable.{CountableStmt, Fits};
ghost use Rattle.codegen.specs.Labels.{AreNames, but_end, name_of};
ghost use Rattle.codegen.specs.Laying.{Laid, left};
ghost use Rattle.codegen.specs.Layout as layout;

use crate::labels::{Labels, entry_after, labels_of, own_label};
use crate::statements::statement;
use bumpalo::Bump;
use expr_codegen::{Generator, Strings, value};
use model::{Instr, Label, Level, PatInstr, Seq, Stmt};
use module_format::{ImageParts, write_parts};
use std::alloc::{AllocError, Global};

/// An image that is made statement by statement.
pub struct ImageBuilder<'n, 'a> {
    labels: Labels<'n>,
    generator: Generator<'a>,
    /// Where the statements so far begin.
    offsets: Vec<u32>,
    /// The number of the first statement to run, once END is put.
    entry: Option<u32>,
}

impl<'n, 'a> Drop for ImageBuilder<'n, 'a> {
    fn drop(self) {
        let ImageBuilder {
            labels: _,
            generator: _,
            offsets: _,
            entry: _,
        } = self;
    }
}

// Puts the code of each unevaluated expression; the offsets.
fn put_expressions(alloc: Global, g: &mut Generator<'_>) -> Result<Vec<u32>, AllocError>
    requires countable { AllByRecursion Countable (left (gen_of g.old)) }
    requires room { size (gen_of g.old) < 2 ^ 31 }
    ensures laid { IfOk result (λ os.
        (fuel : ℕ) → weights.total weights.of_expr (left (gen_of g.old)) ≤ fuel
        → Laid (layout.expressions fuel (left (gen_of g.old))) os.items (gen_of g.old)
        (gen_of g.new)) }
    ensures size { OnOk result (size (gen_of g.new) ≤ size (gen_of g.old)) }
{
    let mut offsets = Vec::new(alloc);
    while let Some(e) = g.take()? {
        offsets.push(g.at())?;
        value(alloc, g, &e.as_ref().expr)?;
        g.put(Instr::Ret)?;
    }
    Ok(offsets)
}

// Notes the label of a statement as a string, unless it is END, and where the statement is.
fn put_label(
    g: &mut Generator<'_>,
    labels: &mut Vec<Label>,
    name: Option<&[u8]>,
    number: u32,
) -> Result<(), AllocError>
    requires { size (gen_of g.old) < 2 ^ 31 }
    ensures { OnOk result (IsNamed (but_end (name_of name.entry)) number labels.old.items
        labels.new.items (gen_of g.old) (gen_of g.new)) }
{
    match own_label(name) {
        Some(label) => {
            let string = g.string(label)?;
            labels.push(Label {
                string,
                statement: number,
            })?;
            Ok(())
        }
        None => Ok(()),
    }
}

// Notes the labels but END as strings, and where their statements are.
fn put_labels(
    alloc: Global,
    g: &mut Generator<'_>,
    names: &[Option<&[u8]>],
) -> Result<Vec<Label>, AllocError>
    requires few { length names.now < 2 ^ 30 }
    requires room { size (gen_of g.old) + length names.now < 2 ^ 31 }
    ensures texts { OnOk result ((gen_of g.new).texts
        ≡ with_texts (own_texts (map but_end (map name_of names.now))) (gen_of g.old).texts) }
    ensures code { OnOk result ((gen_of g.new).code ≡ (gen_of g.old).code) }
    ensures labels { IfOk result (λ ls. ls.items
        ≡ own_entries (gen_of g.new).texts 1 (map but_end (map name_of names.now))) }
{
    let mut labels = Vec::new(alloc);
    let mut number = 1;
    for name in names {
        put_label(g, &mut labels, *name, number)?;
        number += 1;
    }
    Ok(labels)
}

// The entry, or the first statement.
fn entry_or_first(entry: Option<u32>) -> u32
    ensures { result ≡ number_or 1 entry }
{
    match entry {
        Some(number) => number,
        None => 1,
    }
}

// The number of the statement after those that begin here.
fn next_number(offsets: &[u32]) -> u32
    requires { length offsets.now < 16777216 }
    ensures { result ≡ length offsets.now + 1 }
{
    offsets.len() as u32 + 1
}

impl<'n, 'a> ImageBuilder<'n, 'a> {
    /// No statement is put, of a program whose statements give these labels. Strings are kept in the arena.
    pub fn new(
        alloc: Global,
        arena: &'a Bump,
        names: &[Option<&'n [u8]>],
    ) -> Result<ImageBuilder<'n, 'a>, AllocError>
        requires { length names.now ≤ 16777216 }
        ensures { IfOk result (HasPut (map name_of names.now) []) }
    {
        let labels = labels_of(alloc, names)?;
        // Each label becomes a string.
        let mut generator = Generator::new(alloc, arena);
        generator.reserve_strings(labels.count())?;
        Ok(ImageBuilder {
            labels,
            generator,
            offsets: Vec::new(alloc),
            entry: None,
        })
    }

    /// Puts the next statement.
    pub fn put(&mut self, alloc: Global, s: &Stmt) -> Result<(), AllocError>
        requires countable { CountableStmt (stmt_of s.now) }
        requires room { (names : List (Option trees.Bytes)) × (ss : List trees.Stmt) × HasPut names ss self.old
            × (weights.total weights.weight ss + weights.weight (stmt_of s.now) ≤ 16777216)
            × (length ss < 16777216) }
        ensures { OnOk result ((names : List (Option trees.Bytes)) (ss : List trees.Stmt)
            → HasPut names ss self.old → HasPut names (ss ++ stmt_of s.now ∷ []) self.new) }
    {
        let number = next_number(self.offsets.as_slice());
        let at = self.generator.at();
        self.offsets.push(at)?;
        self.labels.pass(s);
        statement(alloc, &mut self.generator, &self.labels, number, s)?;
        self.entry = entry_after(&self.labels, self.entry, s);
        Ok(())
    }

    /// The image of the program, whose statements give these labels and begin at these cards, ready to be written.
    pub fn finish(
        self,
        alloc: Global,
        names: &[Option<&[u8]>],
        cards: Seq<u32>,
    ) -> Result<Draft<'a>, AllocError>
        requires few { length names.now ≤ 16777216 }
        requires put { (ss : List trees.Stmt) × HasPut (map name_of names.now) ss self × Fits ss }
        ensures { IfOk result (λ draft. (ss : List trees.Stmt)
            → HasPut (map name_of names.now) ss self.entry
            → Fits ss → AreNames (map name_of names.now) ss
            → IsDraftOf (layout.generated_image cards ss) draft) }
    {
        let ImageBuilder {
            labels: _,
            generator,
            offsets,
            entry,
        } = self;
        let mut g = generator;
        let expressions = put_expressions(alloc, &mut g)?;
        let named = put_labels(alloc, &mut g, names)?;
        let (code, strings) = g.into_parts();
        Ok(Draft {
            entry: entry_or_first(entry),
            strings,
            labels: named,
            statements: offsets,
            cards,
            expressions,
            patterns: Seq::new(alloc),
            code,
        })
    }
}

/// An image that is ready to be written: its code is bytes.
pub struct Draft<'a> {
    entry: u32,
    strings: Strings<'a>,
    labels: Vec<Label>,
    statements: Vec<u32>,
    cards: Seq<u32>,
    expressions: Vec<u32>,
    patterns: Seq<Seq<PatInstr>>,
    code: Vec<u8>,
}

impl<'a> Drop for Draft<'a> {
    fn drop(self) {
        let Draft {
            entry: _,
            strings: _,
            labels: _,
            statements: _,
            cards: _,
            expressions: _,
            patterns: _,
            code: _,
        } = self;
    }
}

impl<'a> Draft<'a> {
    /// The bytes that spell the image.
    pub fn write(self, alloc: Global) -> Result<Vec<u8>, AllocError>
        requires { (m : Image) × IsDraftOf m self × IsImage m }
        ensures { IfOk result (λ bytes. (m : Image) → IsDraftOf m self.entry → bytes.items ≡ spelling m) }
    {
        let Draft {
            entry,
            strings,
            labels,
            statements,
            cards,
            expressions,
            patterns,
            code,
        } = self;
        let strings = strings.into_vec(alloc)?;
        let parts = ImageParts {
            level: Level::Two,
            entry,
            strings: &strings,
            labels: &labels,
            statements: &statements,
            cards: cards.as_slice(),
            expressions: &expressions,
            patterns: patterns.as_slice(),
            code: &code,
        };
        write_parts(alloc, &parts)
    }
}
