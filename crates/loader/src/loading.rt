//! From bytes to a module.

ghost use Rattle.std.specs.Prelude.{◌≡◌, ◌⊎◌, Err, Ok, IfOk};
ghost use Rattle.model.specs.declared.format.Version.TheVariants as versions;
ghost use Rattle.model.specs.declared.image.Image.{Image};
ghost use Rattle.model.specs.Module.Loading.{LoadsIn};
ghost use Rattle.model.specs.Module.Reading.{image_in, read_image};
ghost use Rattle.model.specs.Module.Spelling.{IsImage, IsImageIn};
ghost use Rattle.model.specs.Module.WellFormed.{IsWellFormed};
ghost use Rattle.loader.specs.Answers.{IsAnswer, IsAnswerIn, IsChecked, no_memory};
ghost use Rattle.loader.specs.Loaded.{IsLoaded};

use crate::code::PlacedCode;
use crate::decoding::places_of;
use crate::joining::fault_of;
use crate::module::Module;
use model::{FormatFault, FormatRule, Image, LoadFault, Version};
use module_format::{ImageView, view_image, view_image_v1};
use std::alloc::{AllocError, Global};

// The module of an image, or why it is refused.
fn judge<'a>(
    alloc: Global,
    image: ImageView<'a>,
) -> Result<Result<Module<'a>, LoadFault>, AllocError>
    requires { IsImage image }
    ensures { IfOk result (λ answer. IsChecked versions.Two image.entry answer) }
{
    let placed = PlacedCode::of(alloc, &image)?;
    let statements = places_of(alloc, &placed, image.statements())?;
    match fault_of(alloc, Version::Two, &image, &placed, statements.as_slice())? {
        Some(fault) => Ok(Err(LoadFault::Module(fault))),
        None => Ok(Ok(Module::new(alloc, image, placed, statements)?)),
    }
}

fn answer<'a>(alloc: Global, bytes: &'a [u8]) -> Result<Module<'a>, LoadFault>
    ensures { IsAnswerIn versions.Two bytes.now result }
{
    let image = match view_image(alloc, bytes) {
        Ok(image) => image,
        Err(fault) => return Err(LoadFault::Format(fault)),
    };
    match judge(alloc, image) {
        Ok(answer) => answer,
        Err(_) => Err(LoadFault::Format(FormatFault {
            offset: 0,
            rule: FormatRule::Memory,
        })),
    }
}

/// The module that bytes spell, or why it is refused: the first format fault, or else the least fault of the
/// conditions. Where a growth was refused that is reported in place of any other result. The module borrows the bytes.
pub fn load<'a>(alloc: Global, bytes: &'a [u8]) -> Result<Module<'a>, LoadFault>
    ensures exact { IsAnswer bytes.now result }
    ensures loaded { IfOk result (λ m. (read_image bytes.now ≡ Ok m) × IsLoaded m) }
    ensures accepted { (m : Image) → read_image bytes.now ≡ Ok m → IsLoaded m
        → (result ≡ Ok m) ⊎ (result ≡ Err no_memory) }
{
    answer(alloc, bytes)
}

// An image that version 1 spells, or why it is refused.
fn check(alloc: Global, image: ImageView<'_>) -> Result<Result<Image, LoadFault>, AllocError>
    requires { IsImage image }
    ensures { IfOk result (λ answer. IsChecked versions.One image.entry answer) }
{
    let placed = PlacedCode::of(alloc, &image)?;
    let statements = places_of(alloc, &placed, image.statements())?;
    match fault_of(alloc, Version::One, &image, &placed, statements.as_slice())? {
        Some(fault) => Ok(Err(LoadFault::Module(fault))),
        None => Ok(Ok(image.into_image(alloc)?)),
    }
}

fn older_answer(alloc: Global, bytes: &[u8]) -> Result<Image, LoadFault>
    ensures { IsAnswerIn versions.One bytes.now result }
{
    let image = match view_image_v1(alloc, bytes) {
        Ok(image) => image,
        Err(fault) => return Err(LoadFault::Format(fault)),
    };
    match check(alloc, image) {
        Ok(answer) => answer,
        Err(_) => Err(LoadFault::Format(FormatFault {
            offset: 0,
            rule: FormatRule::Memory,
        })),
    }
}

/// The image of level 1 that bytes of version 1 spell, or why they are refused: the first format fault, or else the
/// least fault of the conditions, at its offset there. Where a growth was refused that is reported in place of any
/// other answer.
pub fn load_v1(alloc: Global, bytes: &[u8]) -> Result<Image, LoadFault>
    ensures exact { (result ≡ Err no_memory) ⊎ LoadsIn versions.One bytes.now result }
    ensures loaded { IfOk result (λ m.
        (image_in versions.One bytes.now ≡ Ok m) × IsImageIn versions.One m × IsWellFormed m) }
    ensures accepted { (m : Image) → image_in versions.One bytes.now ≡ Ok m → IsWellFormed m
        → (result ≡ Ok m) ⊎ (result ≡ Err no_memory) }
{
    older_answer(alloc, bytes)
}
