//! From bytes to the image that they spell.

ghost use Rattle.std.specs.Prelude.{◌≡◌, length, IfOk, Ok};
ghost use Rattle.model.specs.declared.image.Image.{Image};
ghost use Rattle.model.specs.declared.format.Version.TheVariants as versions;
ghost use Rattle.model.specs.Module.Reading.{Gives, image_at, image_in, read_image};
ghost use Rattle.model.specs.Module.Spelling.{spelling, spelling_in, IsImage, IsImageIn};
ghost use Rattle.module_format.specs.Faults.{IsAnswer};

use crate::code::read_code;
use crate::fields::{miss, past_magic, past_version, read_level};
use crate::strings::read_strings;
use crate::tables::{Expressions, Labels, Patterns, Statements, read_cards, read_table};
use crate::view::ImageView;
use code_format::read_u32;
use model::{FormatFault, FormatRule, Image, ReadError, Version};
use std::alloc::Global;

#[tactic(auto, unfolding(model::specs::Module::Reading::image_at))]
fn view_in_front<'a>(
    alloc: Global,
    version: Version,
    bytes: &'a [u8],
) -> Result<(ImageView<'a>, &'a [u8]), ReadError>
    ensures { Gives (λ x. (x.0, x.1.now)) result (image_at version bytes.now) }
{
    let rest = past_magic(bytes)?;
    let rest = past_version(version, rest)?;
    let (level, rest) = read_level(version, rest)?;
    let (entry, rest) = read_u32(rest)?;
    let (strings, rest) = read_strings(alloc, rest)?;
    let (labels, rest) = read_table::<Labels>(alloc, rest)?;
    let (statements, rest) = read_table::<Statements>(alloc, rest)?;
    let count = statements.as_slice().len();
    let (cards, rest) = read_cards(alloc, version, level, count, rest)?;
    let (expressions, rest) = read_table::<Expressions>(alloc, rest)?;
    let (patterns, rest) = read_table::<Patterns>(alloc, rest)?;
    let ((len, code), rest) = read_code(level, rest)?;
    let image = ImageView {
        level,
        entry,
        strings,
        labels,
        statements,
        cards,
        expressions,
        patterns,
        len,
        code,
    };
    Ok((image, rest))
}

#[tactic(auto, unfolding(model::specs::Module::Reading::image_in))]
fn whole_view<'a>(
    alloc: Global,
    version: Version,
    bytes: &'a [u8],
) -> Result<ImageView<'a>, ReadError>
    ensures { Gives (λ x. x) result (image_in version bytes.now) }
{
    let (image, rest) = view_in_front(alloc, version, bytes)?;
    if !rest.is_empty() {
        return Err(ReadError::Fault(miss(FormatRule::TrailingBytes, rest)));
    }
    Ok(image)
}

const NO_MEMORY: FormatFault = FormatFault {
    offset: 0,
    rule: FormatRule::Memory,
};

fn view_answer<'a>(
    alloc: Global,
    version: Version,
    bytes: &'a [u8],
) -> Result<ImageView<'a>, FormatFault>
    ensures { IsAnswer result (image_in version bytes.now) (length bytes.now) }
{
    match whole_view(alloc, version, bytes) {
        Ok(image) => Ok(image),
        Err(ReadError::Memory) => Err(NO_MEMORY),
        Err(ReadError::Fault(miss)) => Err(FormatFault {
            offset: bytes.len().saturating_sub(miss.left),
            rule: miss.rule,
        }),
    }
}

fn answer(alloc: Global, version: Version, bytes: &[u8]) -> Result<Image, FormatFault>
    ensures { IsAnswer result (image_in version bytes.now) (length bytes.now) }
{
    let view = view_answer(alloc, version, bytes)?;
    match view.into_image(alloc) {
        Ok(image) => Ok(image),
        Err(_) => Err(NO_MEMORY),
    }
}

/// The image that the bytes spell, as slices of them, or the first fault and its offset. Where a growth was refused
/// that is reported in place of any other result.
pub fn view_image<'a>(alloc: Global, bytes: &'a [u8]) -> Result<ImageView<'a>, FormatFault>
    ensures exact { IsAnswer result (read_image bytes.now) (length bytes.now) }
    ensures found { IfOk result (λ m. IsImage m × (bytes.now ≡ spelling m)) }
    ensures only { (m : Image) → IsImage m → bytes.now ≡ spelling m
        → IsAnswer result (Ok m) (length bytes.now) }
{
    view_answer(alloc, Version::Two, bytes)
}

/// The image, of level 1 and without cards, that bytes of version 1 spell, or the first fault and its offset.
pub fn view_image_v1<'a>(alloc: Global, bytes: &'a [u8]) -> Result<ImageView<'a>, FormatFault>
    ensures exact { IsAnswer result (image_in versions.One bytes.now) (length bytes.now) }
    ensures found { IfOk result (λ m.
        IsImageIn versions.One m × (bytes.now ≡ spelling_in versions.One m)) }
    ensures only { (m : Image) → IsImageIn versions.One m → bytes.now ≡ spelling_in versions.One m
        → IsAnswer result (Ok m) (length bytes.now) }
{
    view_answer(alloc, Version::One, bytes)
}

/// The image that the bytes spell, or the first fault and its offset. Where a growth was refused that is reported in
/// place of any other result.
pub fn read_image(alloc: Global, bytes: &[u8]) -> Result<Image, FormatFault>
    ensures exact { IsAnswer result (read_image bytes.now) (length bytes.now) }
    ensures found { IfOk result (λ m. IsImage m × (bytes.now ≡ spelling m)) }
    ensures only { (m : Image) → IsImage m → bytes.now ≡ spelling m
        → IsAnswer result (Ok m) (length bytes.now) }
{
    answer(alloc, Version::Two, bytes)
}
