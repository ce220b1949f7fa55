//! Where the parts of a module stand.

ghost use Rattle.std.specs.Prelude.{◌≡◌, ◌+◌, ◌≤◌, length, map};
ghost use Rattle.std.specs.List.{sum};
ghost use Rattle.model.specs.Module.Spelling.{IsImage, IsTable, PatternFits, StringFits, most};
ghost use Rattle.model.specs.Module.WellFormed.{cards_bytes, code_offset, entry_offset};
ghost use Rattle.model.specs.Module.WellFormed.{expressions_offset, labels_offset};
ghost use Rattle.model.specs.Module.WellFormed.{pat_bytes, pattern_bytes, patterns_offset};
ghost use Rattle.model.specs.Module.WellFormed.{statements_offset, string_bytes};

use model::{PatInstr, Seq, Version};
use module_format::ImageView;

/// The offsets of the first entry of each table.
#[derive(Clone, Copy)]
pub(crate) struct Places {
    pub(crate) labels: usize,
    pub(crate) statements: usize,
    pub(crate) expressions: usize,
    pub(crate) patterns: usize,
    pub(crate) code: usize,
}

// How many bytes the strings have, with their lengths.
fn strings_size(image: &ImageView<'_>) -> usize
    requires { IsTable StringFits image.now.strings }
    ensures { result ≡ sum (map string_bytes image.now.strings) }
{
    let mut size = 0;
    let strings = image.strings();
    for string in strings {
        size += 4 + string.len();
    }
    size
}

/// How many bytes an instruction of a pattern has.
pub(crate) fn pat_bytes(instr: PatInstr) -> usize
    ensures { result ≡ pat_bytes instr }
{
    match instr {
        PatInstr::Len(_)
        | PatInstr::Pos(_)
        | PatInstr::RPos(_)
        | PatInstr::Tab(_)
        | PatInstr::RTab(_) => 9,
        _ => 5,
    }
}

/// How many bytes a pattern has, with its count.
pub(crate) fn pattern_bytes(pattern: &[PatInstr]) -> usize
    requires { length pattern.now ≤ most }
    ensures { result ≡ pattern_bytes pattern.now }
{
    let mut size = 4;
    for instr in pattern {
        size += pat_bytes(*instr);
    }
    size
}

// How many bytes the patterns have.
fn patterns_size(patterns: &[Seq<PatInstr>]) -> usize
    requires { IsTable PatternFits patterns.now }
    ensures { result ≡ sum (map pattern_bytes patterns.now) }
{
    let mut size = 0;
    for pattern in patterns {
        size += pattern_bytes(pattern.as_slice());
    }
    size
}

/// Where the entry stands in a version of the format.
pub(crate) fn entry_at(version: Version) -> usize
    ensures { result ≡ entry_offset version }
{
    match version {
        Version::One => 6,
        Version::Two => 8,
    }
}

// How many bytes the cards have.
fn cards_size(version: Version, image: &ImageView<'_>) -> usize
    requires { IsImage image.now }
    ensures { result ≡ cards_bytes version image.now }
{
    match version {
        Version::One => 0,
        Version::Two => 4 * image.statements().len(),
    }
}

/// Where the parts of an image stand once it is spelt in a version of the format.
#[tactic(auto, using(crate::proofs::Sizes::places_short))]
pub(crate) fn places_of(version: Version, image: &ImageView<'_>) -> Places
    requires { IsImage image.now }
    ensures labels { result.labels ≡ labels_offset version image.now }
    ensures statements { result.statements ≡ statements_offset version image.now }
    ensures expressions { result.expressions ≡ expressions_offset version image.now }
    ensures patterns { result.patterns ≡ patterns_offset version image.now }
    ensures code { result.code ≡ code_offset version image.now }
{
    let labels = entry_at(version) + 4 + 4 + strings_size(image) + 4;
    let statements = labels + 8 * image.labels().len() + 4;
    let cards = cards_size(version, image);
    let expressions = statements + 4 * image.statements().len() + cards + 4;
    let patterns = expressions + 4 * image.expressions().len() + 4;
    let code = patterns + patterns_size(image.patterns()) + 4;
    Places {
        labels,
        statements,
        expressions,
        patterns,
        code,
    }
}

/// Where an offset of the code stands in the module.
pub(crate) fn code_offset(version: Version, image: &ImageView<'_>, at: u32) -> usize
    requires { IsImage image.now }
    ensures { result ≡ code_offset version image.now + at }
{
    places_of(version, image).code + at as usize
}
