//! Names in prototypes.

ghost use Rattle.std.specs.Prelude.{◌≡◌, ◌&&◌, IfOk};
ghost use Rattle.std.specs.List.{list_all};
ghost use Rattle.model.specs.Language.Prototypes.{is_letter, is_name_byte, is_name, are_distinct, is_primitive};

use indexmap::IndexSet;
use model::{Level, PrimId};
use std::alloc::{AllocError, Global};
use strings::Text;

fn is_letter(byte: u8) -> bool
    ensures { result ≡ is_letter byte }
{
    matches!(byte, b'A'..=b'Z' | b'a'..=b'z')
}

// A letter, a digit, `.` or `_`.
fn is_name_byte(byte: u8) -> bool
    ensures { result ≡ is_name_byte byte }
{
    is_letter(byte) || matches!(byte, b'0'..=b'9' | b'.' | b'_')
}

fn are_name_bytes(text: &[u8]) -> bool
    ensures { result ≡ list_all is_name_byte text.now }
{
    text.iter().all(|byte| is_name_byte(*byte))
}

fn is_name(text: &[u8]) -> bool
    ensures { result ≡ is_name text.now }
{
    match text {
        [first, rest @ ..] => is_letter(*first) && are_name_bytes(rest),
        [] => false,
    }
}

fn are_names(names: &[Text]) -> bool
    ensures { result ≡ list_all is_name names.now }
{
    names.iter().all(|name| is_name(name.as_slice()))
}

fn are_distinct(alloc: Global, names: &[Text]) -> Result<bool, AllocError>
    ensures { IfOk result (λ answer. answer ≡ are_distinct names.now) }
{
    let mut seen = IndexSet::new(alloc);
    for name in names {
        if !seen.insert(name.clone()?)? {
            return Ok(false);
        }
    }
    Ok(true)
}

/// Whether they are names, no two of them the same.
pub(crate) fn are_distinct_names(alloc: Global, names: &[Text]) -> Result<bool, AllocError>
    ensures { IfOk result (λ answer.
        answer ≡ (list_all is_name names.now && are_distinct names.now)) }
{
    if !are_names(names) {
        return Ok(false);
    }
    are_distinct(alloc, names)
}

/// Whether a primitive has this name at a level.
pub(crate) fn is_primitive(level: Level, name: &[u8]) -> bool
    ensures { result ≡ is_primitive level name.now }
{
    PrimId::named_at(level, name).is_some()
}
