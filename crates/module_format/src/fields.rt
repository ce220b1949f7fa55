//! Single fields of a module: a value and the bytes behind it, or the fault.

ghost use Rattle.std.specs.Prelude.{◌≡◌, length};
ghost use Rattle.std.specs.Int.{w16, w32};
ghost use Rattle.model.specs.declared.format.FormatRule.TheVariants.{BadMagic, BadVersion};
ghost use Rattle.model.specs.Module.Reading.{Reads, fixed_at, level_of, level_at, count_at, bytes_at};
ghost use Rattle.model.specs.Module.Spelling.{magic as magic_number, level_number, version_number};

use code_format::{CUT, read_u16, read_u32};
use model::{FormatRule, Level, Miss, Version};

pub(crate) const MAGIC: u32 = 0x534e_4f34;

/// The most entries of a table.
pub(crate) const MOST: u32 = 16_777_216;
/// The most bytes of code.
pub(crate) const MOST_CODE: u32 = 1_073_741_824;

/// What is reported of a field that these bytes begin with.
pub(crate) fn miss(rule: FormatRule, bytes: &[u8]) -> Miss
    ensures { result ≡ record { left = length bytes.now; rule = rule } }
{
    Miss {
        left: bytes.len(),
        rule,
    }
}

/// What is behind the magic.
#[tactic(auto, unfolding(model::specs::Module::Reading::fixed_at))]
pub(crate) fn past_magic(bytes: &[u8]) -> Result<&[u8], Miss>
    ensures { Reads (λ x. x.now) result (fixed_at w32 magic_number BadMagic bytes.now) }
{
    let (n, rest) = read_u32(bytes)?;
    if n != MAGIC {
        return Err(miss(FormatRule::BadMagic, bytes));
    }
    Ok(rest)
}

/// The number of a version.
pub(crate) fn version_number(version: Version) -> u16
    ensures { result ≡ version_number version }
{
    match version {
        Version::One => 1,
        Version::Two => 2,
    }
}

/// What is behind the version.
#[tactic(auto, unfolding(model::specs::Module::Reading::fixed_at))]
pub(crate) fn past_version(version: Version, bytes: &[u8]) -> Result<&[u8], Miss>
    ensures { Reads (λ x. x.now) result (fixed_at w16 (version_number version) BadVersion bytes.now) }
{
    let (n, rest) = read_u16(bytes)?;
    if n != version_number(version) {
        return Err(miss(FormatRule::BadVersion, bytes));
    }
    Ok(rest)
}

/// The number of a level.
pub(crate) fn level_number(level: Level) -> u16
    ensures { result ≡ level_number level }
{
    match level {
        Level::One => 1,
        Level::Two => 2,
    }
}

// The level of a number.
fn level_of(n: u16) -> Option<Level>
    ensures { result ≡ level_of n }
{
    if n == 1 {
        Some(Level::One)
    } else if n == 2 {
        Some(Level::Two)
    } else {
        None
    }
}

/// The level, and the bytes behind it; in version 1 there is one alone.
#[tactic(auto, unfolding(model::specs::Module::Reading::level_at))]
pub(crate) fn read_level(version: Version, bytes: &[u8]) -> Result<(Level, &[u8]), Miss>
    ensures { Reads (λ x. (x.0, x.1.now)) result (level_at version bytes.now) }
{
    match version {
        Version::One => Ok((Level::One, bytes)),
        Version::Two => {
            let (n, rest) = read_u16(bytes)?;
            match level_of(n) {
                Some(level) => Ok((level, rest)),
                None => Err(miss(FormatRule::BadVersion, bytes)),
            }
        }
    }
}

/// A count that is at most the limit.
#[tactic(auto, unfolding(model::specs::Module::Reading::count_at))]
pub(crate) fn read_count(limit: u32, bytes: &[u8]) -> Result<(u32, &[u8]), Miss>
    ensures { Reads (λ x. (x.0, x.1.now)) result (count_at limit bytes.now) }
{
    let (n, rest) = read_u32(bytes)?;
    if limit < n {
        return Err(miss(FormatRule::BadTable, bytes));
    }
    Ok((n, rest))
}

/// So many bytes.
pub(crate) fn read_bytes(n: usize, bytes: &[u8]) -> Result<(&[u8], &[u8]), Miss>
    ensures { Reads (λ x. (x.0.now, x.1.now)) result (bytes_at n bytes.now) }
{
    if bytes.len() < n {
        return Err(CUT);
    }
    Ok(bytes.split_at(n))
}
