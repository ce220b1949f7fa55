//! From an image to the bytes that spell it.

ghost use Rattle.std.specs.Prelude.{◌≡◌, ◌<◌, ◌≤◌, ◌^◌, ◌++◌, ℕ, List, length, map, OnOk, IfOk, All};
ghost use Rattle.std.specs.List.{flat_map};
ghost use Rattle.model.specs.declared.image.Image.{Image};
ghost use Rattle.model.specs.Module.Spelling.{u32 as u32_bytes, u16 as u16_bytes, counted, magic, level_number};
ghost use Rattle.model.specs.Module.Spelling.{string, label, pattern, pat_instr, code_bytes, spelling, IsImage};
ghost use Rattle.model.specs.Module.Spelling.{most};
ghost use Rattle.module_format.specs.Parts.{IsMadeOf};

use crate::fields::{MAGIC, level_number, version_number};
use code_format::{put_instr, put_pat_instr, put_u32};
use model::{Bytes, Image, Instr, Label, Level, PatInstr, Seq, Version};
use std::alloc::{AllocError, Global};

/// What stands in a table.
trait Entry {
    ghost spell: { Self → List ℕ };

    /// What has a spelling.
    ghost fits: { Self → Type 0 };

    /// Puts the entry at the end.
    fn put(&self, out: &mut Vec<u8>) -> Result<(), AllocError>
        requires { fits self.now }
        ensures { OnOk result (out.new.items ≡ out.old.items ++ spell self.now) };
}

fn put_count(out: &mut Vec<u8>, n: usize) -> Result<(), AllocError>
    requires { n < 2 ^ 32 }
    ensures { OnOk result (out.new.items ≡ out.old.items ++ u32_bytes n) }
{
    put_u32(out, n as u32)
}

fn put_string(out: &mut Vec<u8>, bytes: &[u8]) -> Result<(), AllocError>
    requires { length bytes.now < 2 ^ 32 }
    ensures { OnOk result (out.new.items ≡ out.old.items ++ string bytes.now) }
{
    put_count(out, bytes.len())?;
    out.extend_from_slice(bytes)
}

/// Entries, one after another.
fn put_entries<T: Entry>(out: &mut Vec<u8>, entries: &[T]) -> Result<(), AllocError>
    requires { All T.fits entries.now }
    ensures { OnOk result (out.new.items ≡ out.old.items ++ flat_map T.spell entries.now) }
{
    for entry in entries {
        entry.put(out)?;
    }
    Ok(())
}

/// A count, and that many entries.
fn put_table<T: Entry>(out: &mut Vec<u8>, entries: &[T]) -> Result<(), AllocError>
    requires few { length entries.now ≤ most }
    requires fit { All T.fits entries.now }
    ensures { OnOk result (out.new.items ≡ out.old.items ++ counted T.spell entries.now) }
{
    put_count(out, entries.len())?;
    put_entries(out, entries)
}

impl<'a> Entry for &'a [u8] {
    ghost spell = { λ s. string s.now };

    ghost fits = { λ s. length s.now < 2 ^ 32 };

    fn put(&self, out: &mut Vec<u8>) -> Result<(), AllocError> {
        put_string(out, *self)
    }
}

impl Entry for Label {
    ghost spell = { label };

    ghost fits = { λ _. Unit {0} };

    fn put(&self, out: &mut Vec<u8>) -> Result<(), AllocError> {
        put_u32(out, self.string)?;
        put_u32(out, self.statement)
    }
}

impl Entry for u32 {
    ghost spell = { u32_bytes };

    ghost fits = { λ _. Unit {0} };

    fn put(&self, out: &mut Vec<u8>) -> Result<(), AllocError> {
        put_u32(out, *self)
    }
}

impl Entry for PatInstr {
    ghost spell = { pat_instr };

    ghost fits = { λ _. Unit {0} };

    fn put(&self, out: &mut Vec<u8>) -> Result<(), AllocError> {
        put_pat_instr(self, out)
    }
}

impl Entry for Seq<PatInstr> {
    ghost spell = { pattern };

    ghost fits = { λ p. length p ≤ most };

    fn put(&self, out: &mut Vec<u8>) -> Result<(), AllocError> {
        put_table(out, self.as_slice())
    }
}

/// What stands before the tables.
#[tactic(auto, unfolding(model::specs::Module::Spelling::u16))]
fn put_head(out: &mut Vec<u8>, level: Level, entry: u32) -> Result<(), AllocError>
    ensures { OnOk result (out.new.items ≡ out.old.items
        ++ (u32_bytes magic ++ (u16_bytes 2 ++ (u16_bytes (level_number level) ++ u32_bytes entry)))) }
{
    put_u32(out, MAGIC)?;
    out.extend_from_slice(&version_number(Version::Two).to_be_bytes())?;
    out.extend_from_slice(&level_number(level).to_be_bytes())?;
    put_u32(out, entry)
}

/// The parts of an image that is to be written: its tables, and its code as bytes.
#[derive(Drop)]
pub struct ImageParts<'a> {
    pub level: Level,
    pub entry: u32,
    pub strings: &'a [&'a [u8]],
    pub labels: &'a [Label],
    pub statements: &'a [u32],
    pub cards: &'a [u32],
    pub expressions: &'a [u32],
    pub patterns: &'a [Seq<PatInstr>],
    pub code: &'a [u8],
}

// How many bytes the parts take without patterns; room that is asked for at once is neither copied nor left over.
fn room_for(parts: &ImageParts<'_>) -> usize {
    let mut room = parts.code.len();
    for string in parts.strings {
        room = room.saturating_add(string.len()).saturating_add(4);
    }
    let numbers = parts.labels.len().saturating_mul(2);
    let numbers = numbers.saturating_add(parts.statements.len());
    let numbers = numbers.saturating_add(parts.cards.len());
    let numbers = numbers.saturating_add(parts.expressions.len());
    room.saturating_add(numbers.saturating_add(10).saturating_mul(4))
}

/// The bytes that spell the image that the parts are of.
pub fn write_parts(alloc: Global, parts: &ImageParts<'_>) -> Result<Vec<u8>, AllocError>
    requires { (m : Image) × IsMadeOf m parts.now × IsImage m }
    ensures { IfOk result (λ bytes. (m : Image) → IsMadeOf m parts.now → bytes.items ≡ spelling m) }
{
    let mut out = Vec::with_capacity(alloc, room_for(parts))?;
    put_head(&mut out, parts.level, parts.entry)?;
    put_table(&mut out, parts.strings)?;
    put_table(&mut out, parts.labels)?;
    put_table(&mut out, parts.statements)?;
    put_entries(&mut out, parts.cards)?;
    put_table(&mut out, parts.expressions)?;
    put_table(&mut out, parts.patterns)?;
    put_string(&mut out, parts.code)?;
    Ok(out)
}

// The strings, as slices.
fn slices_of(alloc: Global, strings: &[Bytes]) -> Result<Vec<&[u8]>, AllocError>
    ensures { IfOk result (λ slices. map (λ s. s.now) slices.items ≡ strings.now) }
{
    let mut slices = Vec::with_capacity(alloc, strings.len())?;
    for string in strings {
        slices.push(string.as_slice())?;
    }
    Ok(slices)
}

// The bytes of instructions.
fn bytes_of(alloc: Global, code: &[Instr]) -> Result<Vec<u8>, AllocError>
    ensures { IfOk result (λ bytes. bytes.items ≡ code_bytes code.now) }
{
    let mut bytes = Vec::new(alloc);
    for i in code {
        put_instr(i, &mut bytes)?;
    }
    Ok(bytes)
}

// The parts of an image, whose strings are these and whose code has these bytes.
fn parts_of<'a>(image: &'a Image, strings: &'a [&'a [u8]], code: &'a [u8]) -> ImageParts<'a>
    requires strings { map (λ s. s.now) strings.now ≡ image.now.strings }
    requires code { code.now ≡ code_bytes image.now.code }
    ensures { IsMadeOf image.now result }
{
    ImageParts {
        level: image.level,
        entry: image.entry,
        strings,
        labels: image.labels.as_slice(),
        statements: image.statements.as_slice(),
        cards: image.cards.as_slice(),
        expressions: image.expressions.as_slice(),
        patterns: image.patterns.as_slice(),
        code,
    }
}

/// The bytes that spell the image.
pub fn write_image(alloc: Global, image: &Image) -> Result<Vec<u8>, AllocError>
    requires { IsImage image.now }
    ensures { IfOk result (λ bytes. bytes.items ≡ spelling image.now) }
{
    let strings = slices_of(alloc, image.strings.as_slice())?;
    let code = bytes_of(alloc, image.code.as_slice())?;
    let parts = parts_of(image, &strings, &code);
    write_parts(alloc, &parts)
}
