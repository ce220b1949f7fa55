//! Prototypes of arrays.

ghost use Rattle.std.specs.Prelude.{◌≡◌, IfOk, option_map};
ghost use Rattle.model.specs.Language.Prototypes.{all_bounds, bounds_from, bounds_of, split_at, written_integer};

use crate::parts::cut;
use aggregates::Bounds;
use std::alloc::{AllocError, Global};
use strings::read_int;

/// The dimensions that a text gives an array, one for each part between commas; none if a part is no dimension.
pub fn dimensions(alloc: Global, text: &[u8]) -> Result<Option<Vec<Bounds>>, AllocError>
    ensures { IfOk result (λ made.
        option_map (λ bounds. bounds.items) made ≡ all_bounds (split_at 44 text.now)) }
{
    let mut all = Vec::new(alloc);
    let mut rest = text;
    while let Some((part, after)) = cut(b',', rest) {
        let Some(bounds) = bounds_of(part) else {
            return Ok(None);
        };
        all.push(bounds)?;
        rest = after;
    }
    let Some(bounds) = bounds_of(rest) else {
        return Ok(None);
    };
    all.push(bounds)?;
    Ok(Some(all))
}

// The dimension that a part gives: its highest subscript, or the lowest and the highest with a colon between them.
fn bounds_of(part: &[u8]) -> Option<Bounds>
    ensures { result ≡ bounds_of part.now }
{
    match cut(b':', part) {
        Some((low, high)) => bounds_from(written_integer(low), written_integer(high)),
        None => bounds_from(Some(1), written_integer(part)),
    }
}

fn bounds_from(low: Option<i64>, high: Option<i64>) -> Option<Bounds>
    ensures { result ≡ bounds_from low high }
{
    Bounds::new(low?, high?)
}

// The integer that a text stands for; the null string stands for none.
fn written_integer(text: &[u8]) -> Option<i64>
    ensures { result ≡ written_integer text.now }
{
    if text.is_empty() {
        return None;
    }
    read_int(text)
}
