//! Numbers of one, two, four and eight bytes, the highest first.

ghost use Rattle.std.specs.Prelude.{◌≡◌, ◌∷◌, ◌++◌, OnOk, OnErr};
ghost use Rattle.std.specs.Int.{w16, w32, w64};
ghost use Rattle.model.specs.Module.Spelling.{u32 as u32_bytes, u64 as u64_bytes};
ghost use Rattle.model.specs.Module.Reading.{Finds, Reads, number, number_at, byte, required};

use byteorder::{BigEndian, ByteOrder};
use model::{FormatRule, Miss};
use std::alloc::AllocError;

/// The byte in front, and what is behind it.
pub(crate) fn first_byte(bytes: &[u8]) -> Option<(u8, &[u8])>
    ensures { Finds (λ x. (x.0, x.1.now)) result (byte bytes.now) }
{
    match bytes {
        [] => None,
        [b, rest @ ..] => Some((*b, rest)),
    }
}

/// The number of 2 bytes in front, and what is behind it.
#[tactic(auto, unfolding(model::specs::Module::Reading::number))]
pub(crate) fn first_u16(bytes: &[u8]) -> Option<(u16, &[u8])>
    ensures { Finds (λ x. (x.0, x.1.now)) result (number w16 bytes.now) }
{
    if bytes.len() < 2 {
        return None;
    }
    let n = BigEndian::read_u16(bytes);
    Some((n, &bytes[2..]))
}

/// The number of 4 bytes in front, and what is behind it.
#[tactic(auto, unfolding(model::specs::Module::Reading::number))]
pub(crate) fn first_u32(bytes: &[u8]) -> Option<(u32, &[u8])>
    ensures { Finds (λ x. (x.0, x.1.now)) result (number w32 bytes.now) }
{
    if bytes.len() < 4 {
        return None;
    }
    let n = BigEndian::read_u32(bytes);
    Some((n, &bytes[4..]))
}

/// The number of 8 bytes in front, and what is behind it.
#[tactic(auto, unfolding(model::specs::Module::Reading::number))]
pub(crate) fn first_u64(bytes: &[u8]) -> Option<(u64, &[u8])>
    ensures { Finds (λ x. (x.0, x.1.now)) result (number w64 bytes.now) }
{
    if bytes.len() < 8 {
        return None;
    }
    let n = BigEndian::read_u64(bytes);
    Some((n, &bytes[8..]))
}

/// What is reported of a field that is cut: no bytes are left where it ends.
pub const CUT: Miss = Miss {
    left: 0,
    rule: FormatRule::Truncated,
};

/// The field of 1 byte in front, and what is behind it.
pub(crate) fn read_byte(bytes: &[u8]) -> Result<(u8, &[u8]), Miss>
    ensures { Reads (λ x. (x.0, x.1.now)) result (required (byte bytes.now)) }
{
    match first_byte(bytes) {
        Some(found) => Ok(found),
        None => Err(CUT),
    }
}

/// The field of 2 bytes in front, and what is behind it.
#[tactic(auto, unfolding(model::specs::Module::Reading::number_at))]
pub fn read_u16(bytes: &[u8]) -> Result<(u16, &[u8]), Miss>
    ensures { Reads (λ x. (x.0, x.1.now)) result (number_at w16 bytes.now) }
{
    match first_u16(bytes) {
        Some(found) => Ok(found),
        None => Err(CUT),
    }
}

/// The field of 4 bytes in front, and what is behind it.
#[tactic(auto, unfolding(model::specs::Module::Reading::number_at))]
pub fn read_u32(bytes: &[u8]) -> Result<(u32, &[u8]), Miss>
    ensures { Reads (λ x. (x.0, x.1.now)) result (number_at w32 bytes.now) }
{
    match first_u32(bytes) {
        Some(found) => Ok(found),
        None => Err(CUT),
    }
}

/// The field of 8 bytes in front, and what is behind it.
#[tactic(auto, unfolding(model::specs::Module::Reading::number_at))]
pub(crate) fn read_u64(bytes: &[u8]) -> Result<(u64, &[u8]), Miss>
    ensures { Reads (λ x. (x.0, x.1.now)) result (number_at w64 bytes.now) }
{
    match first_u64(bytes) {
        Some(found) => Ok(found),
        None => Err(CUT),
    }
}

/// Puts a number of 4 bytes at the end; after a refusal the bytes are as before.
#[tactic(auto, unfolding(model::specs::Module::Spelling::u32))]
pub fn put_u32(out: &mut Vec<u8>, n: u32) -> Result<(), AllocError>
    ensures ok { OnOk result (out.new.items ≡ out.old.items ++ u32_bytes n) }
    ensures err { OnErr result (out.new.items ≡ out.old.items) }
{
    let mut bytes = [0; 4];
    BigEndian::write_u32(&mut bytes, n);
    out.extend_from_slice(&bytes)
}

/// Puts a code and a number of 4 bytes at the end; after a refusal the bytes are as before.
#[tactic(auto, unfolding(model::specs::Module::Spelling::u32))]
pub(crate) fn put_wide(out: &mut Vec<u8>, code: u8, n: u32) -> Result<(), AllocError>
    ensures ok { OnOk result (out.new.items ≡ out.old.items ++ code ∷ u32_bytes n) }
    ensures err { OnErr result (out.new.items ≡ out.old.items) }
{
    let mut bytes = [code, 0, 0, 0, 0];
    BigEndian::write_u32(&mut bytes[1..], n);
    out.extend_from_slice(&bytes)
}

/// Puts a code and a number of 8 bytes at the end; after a refusal the bytes are as before.
#[tactic(auto, unfolding(model::specs::Module::Spelling::u64))]
pub(crate) fn put_whole(out: &mut Vec<u8>, code: u8, n: u64) -> Result<(), AllocError>
    ensures ok { OnOk result (out.new.items ≡ out.old.items ++ code ∷ u64_bytes n) }
    ensures err { OnErr result (out.new.items ≡ out.old.items) }
{
    let mut bytes = [code, 0, 0, 0, 0, 0, 0, 0, 0];
    BigEndian::write_u64(&mut bytes[1..], n);
    out.extend_from_slice(&bytes)
}
