//! The table of patterns.

ghost use Rattle.std.specs.Prelude.{◌≡◌, ◌<◌, ◌≤◌, ◌+◌, ◌^◌, [], length, map, take, slice_index_or};
ghost use Rattle.std.specs.List.{sum};
ghost use Rattle.model.specs.Module.Spelling.{IsImage, most};
ghost use Rattle.model.specs.Module.WellFormed.{is_jump, pat_rule, pattern_bytes, pattern_fault};
ghost use Rattle.model.specs.declared.image.PatInstr.TheVariants.{Lit};
ghost use Rattle.loader.specs.Parts.{patterns_fault};

use crate::names::{is_name, is_string, rule};
use crate::places::{pat_bytes, pattern_bytes};
use model::{ModuleFault, ModuleRule, PatInstr};
use module_format::ImageView;

// Whether a jump from a place leads to an instruction of a pattern of so many, or to its end.
fn is_jump(len: usize, place: usize, distance: i32) -> bool
    requires within { place < len }
    requires count { len ≤ most }
    ensures { result ≡ is_jump len place distance }
{
    let size = distance.unsigned_abs() as usize;
    if distance < 0 {
        size <= place
    } else {
        place + size <= len
    }
}

const MOST_INTEGER: u64 = i64::MAX as u64;

// The rule that the instruction at a place of a pattern breaks.
fn pat_rule(image: &ImageView<'_>, pattern: &[PatInstr], place: usize) -> Option<ModuleRule>
    requires within { place < length pattern.now }
    requires count { length pattern.now ≤ most }
    ensures { result ≡ pat_rule image.now (length pattern.now) (take place pattern.now)
        (slice_index_or pattern.now place (Lit 0)) }
{
    let len = pattern.len();
    match pattern[place] {
        PatInstr::Lit(k) => rule(ModuleRule::BadIndex, is_string(image, k)),
        PatInstr::Split(d) => rule(ModuleRule::BadJump, is_jump(len, place, d)),
        PatInstr::Jmp(d) => rule(ModuleRule::BadJump, is_jump(len, place, d)),
        PatInstr::Len(n)
        | PatInstr::Pos(n)
        | PatInstr::RPos(n)
        | PatInstr::Tab(n)
        | PatInstr::RTab(n) => rule(ModuleRule::BadIndex, n <= MOST_INTEGER),
        PatInstr::Any(k) | PatInstr::NotAny(k) | PatInstr::Span(k) | PatInstr::Break(k) => {
            rule(ModuleRule::BadIndex, is_name(image, k))
        }
    }
}

// The first fault of a pattern, whose count stands at a place.
fn pattern_fault(image: &ImageView<'_>, pattern: &[PatInstr], place: usize) -> Option<ModuleFault>
    requires count { length pattern.now ≤ most }
    requires there { place < 2 ^ 60 }
    ensures { result ≡ pattern_fault image.now [] place pattern.now }
{
    let mut offset = place + 4;
    for k in 0..pattern.len() {
        if let Some(rule) = pat_rule(image, pattern, k) {
            return Some(ModuleFault { offset, rule });
        }
        offset += pat_bytes(pattern[k]);
    }
    None
}

/// The first fault of the patterns, which begin at a place.
pub(crate) fn patterns_fault(image: &ImageView<'_>, place: usize) -> Option<ModuleFault>
    requires spelt { IsImage image.now }
    requires there { place + sum (map pattern_bytes image.now.patterns) < 2 ^ 60 }
    ensures { result ≡ patterns_fault place image.now }
{
    let mut offset = place;
    let patterns = image.patterns();
    for pattern in patterns {
        let fault = pattern_fault(image, pattern.as_slice(), offset);
        if fault.is_some() {
            return fault;
        }
        offset += pattern_bytes(pattern.as_slice());
    }
    None
}
