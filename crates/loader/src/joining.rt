//! All conditions of well-formed modules.

ghost use Rattle.std.specs.Prelude.{◌≡◌, IfOk, map};
ghost use Rattle.model.specs.Module.Flow.{BreaksFlow, IsLeast};
ghost use Rattle.model.specs.Module.Spelling.{IsImage};
ghost use Rattle.model.specs.Module.WellFormed.{IsTold, flow_fault, lesser_fault, number_of, part_fault};
ghost use Rattle.loader.specs.Places.{place_of};

use crate::code::PlacedCode;
use crate::instrs::code_fault;
use crate::labels::label_fault;
use crate::patterns::patterns_fault;
use crate::places::{code_offset, places_of};
use crate::tables::{entry_fault, expression_fault, statement_fault};
use flow_check::check_flow;
use model::{ModuleFault, ModuleRule, Version};
use module_format::ImageView;
use std::alloc::{AllocError, Global};

// The first fault of the parts of an image whose statements lead to these places.
fn part_fault(
    alloc: Global,
    version: Version,
    image: &ImageView<'_>,
    placed: &PlacedCode,
    statements: &[u32],
) -> Result<Option<ModuleFault>, AllocError>
    requires spelt { IsImage image.now }
    requires placed { placed.now ≡ image.now.code }
    requires places { statements.now ≡ map (place_of image.now) image.now.statements }
    ensures { IfOk result (λ fault. fault ≡ part_fault version image.now) }
{
    let places = places_of(version, image);
    Ok(
        entry_fault(version, image)
            .or(label_fault(alloc, image, places.labels)?)
            .or(statement_fault(image, placed, statements, places.statements))
            .or(expression_fault(image, placed, places.expressions))
            .or(patterns_fault(image, places.patterns))
            .or(code_fault(image, placed, statements, places.code)),
    )
}

fn number_of(rule: ModuleRule) -> u8
    ensures { result ≡ number_of rule }
{
    match rule {
        ModuleRule::BadIndex => 1,
        ModuleRule::BadTarget => 2,
        ModuleRule::BadFlow => 3,
        ModuleRule::BadJump => 4,
        ModuleRule::NoEnd => 5,
    }
}

// The one of the lesser offset, or of the lesser number there.
fn lesser(first: Option<ModuleFault>, second: Option<ModuleFault>) -> Option<ModuleFault>
    ensures { result ≡ lesser_fault first second }
{
    let (Some(f), Some(g)) = (first, second) else {
        return first.or(second);
    };
    let comes_first = g.offset < f.offset
        || (g.offset == f.offset && number_of(g.rule) < number_of(f.rule));
    if comes_first { second } else { first }
}

// The fault of the flow at an offset of the code.
fn flow_fault(version: Version, image: &ImageView<'_>, flow: Option<u32>) -> Option<ModuleFault>
    requires { IsImage image.now }
    ensures { result ≡ flow_fault version image.now flow }
{
    let at = flow?;
    Some(ModuleFault {
        offset: code_offset(version, image, at),
        rule: ModuleRule::BadFlow,
    })
}

/// The least fault of an image that is spelt in a version of the format, with its code by the offsets and the places
/// that its statements lead to.
pub(crate) fn fault_of(
    alloc: Global,
    version: Version,
    image: &ImageView<'_>,
    placed: &PlacedCode,
    statements: &[u32],
) -> Result<Option<ModuleFault>, AllocError>
    requires spelt { IsImage image.now }
    requires placed { placed.now ≡ image.now.code }
    requires places { statements.now ≡ map (place_of image.now) image.now.statements }
    ensures { IfOk result (λ fault. IsTold version image.now fault) }
{
    let parts = part_fault(alloc, version, image, placed, statements)?;
    let flow = check_flow(alloc, image, placed.instrs())?;
    Ok(lesser(parts, flow_fault(version, image, flow)))
}
