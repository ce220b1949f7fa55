//! The entry, and the tables of offsets.

ghost use Rattle.std.specs.Prelude.{◌≡◌, ◌<◌, ◌+◌, ◌*◌, ◌^◌, length, map, if◌then◌else◌};
ghost use Rattle.model.specs.declared.format.ModuleRule.TheVariants.{BadTarget, NoEnd};
ghost use Rattle.model.specs.Module.Flow.{is_fetched};
ghost use Rattle.model.specs.Module.Images.{fetch_from};
ghost use Rattle.model.specs.Module.Spelling.{IsImage};
ghost use Rattle.model.specs.Module.WellFormed.{is_begin, unless};
ghost use Rattle.loader.specs.Parts.{entry_fault, expression_fault, statement_fault};
ghost use Rattle.loader.specs.Places.{place_by_offset, place_of};

use crate::code::PlacedCode;
use crate::names::{is_statement, rule};
use crate::places::entry_at;
use model::{ModuleFault, ModuleRule, Version};
use module_format::ImageView;

/// The fault of the entry.
pub(crate) fn entry_fault(version: Version, image: &ImageView<'_>) -> Option<ModuleFault>
    ensures { result ≡ entry_fault version image.now }
{
    if is_statement(image, image.entry()) {
        return None;
    }
    Some(ModuleFault {
        offset: entry_at(version),
        rule: ModuleRule::BadIndex,
    })
}

// The rule that a statement breaks at an offset that leads to this place, where the last is another.
fn statement_rule(placed: &PlacedCode, place: u32, is_last: bool, at: u32) -> Option<ModuleRule>
    requires { place ≡ place_by_offset 0 placed.now at }
    ensures { result ≡ (if is_last then unless NoEnd
        (is_fetched (fetch_from 0 placed.now at)) else unless BadTarget
        (is_begin (fetch_from 0 placed.now at))) }
{
    if is_last {
        rule(ModuleRule::NoEnd, placed.begins_at(place, at))
    } else {
        rule(ModuleRule::BadTarget, placed.is_begin_at(place, at))
    }
}

/// The first fault of the statements, which stand from a place of the module on and lead to the other places.
pub(crate) fn statement_fault(
    image: &ImageView<'_>,
    placed: &PlacedCode,
    places: &[u32],
    place: usize,
) -> Option<ModuleFault>
    requires spelt { IsImage image.now }
    requires placed { placed.now ≡ image.now.code }
    requires places { places.now ≡ map (place_of image.now) image.now.statements }
    requires there { place + 4 * length image.now.statements < 2 ^ 60 }
    ensures { result ≡ statement_fault place image.now }
{
    let statements = image.statements();
    let count = statements.len();
    let mut offset = place;
    for k in 0..count {
        let is_last = k + 1 == count;
        if let Some(rule) = statement_rule(placed, places[k], is_last, statements[k]) {
            return Some(ModuleFault { offset, rule });
        }
        offset += 4;
    }
    None
}

/// The first fault of the expressions, which begin at a place.
pub(crate) fn expression_fault(
    image: &ImageView<'_>,
    placed: &PlacedCode,
    place: usize,
) -> Option<ModuleFault>
    requires spelt { IsImage image.now }
    requires placed { placed.now ≡ image.now.code }
    requires there { place + 4 * length image.now.expressions < 2 ^ 60 }
    ensures { result ≡ expression_fault place image.now }
{
    let mut offset = place;
    let expressions = image.expressions();
    for at in expressions {
        if !placed.begins(0, *at) {
            return Some(ModuleFault {
                offset,
                rule: ModuleRule::BadTarget,
            });
        }
        offset += 4;
    }
    None
}
