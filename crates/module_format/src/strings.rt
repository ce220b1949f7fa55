//! The table of strings, no two equal.

ghost use Rattle.std.specs.Prelude.{◌≡◌, map};
ghost use Rattle.model.specs.Module.Reading.{Gives, Reads, table_at, string_at, text_at};

use crate::fields::{MOST, miss, read_bytes, read_count};
use code_format::read_u32;
use indexmap::IndexSet;
use model::{FormatRule, Miss, ReadError};
use std::alloc::Global;

/// The strings that stand in a table so far.
struct Seen<'a> {
    texts: IndexSet<&'a [u8]>,
}

impl<'a> Drop for Seen<'a> {
    fn drop(self) {
        let Seen { texts: _ } = self;
    }
}

/// A length, and that many bytes.
#[tactic(auto, unfolding(model::specs::Module::Reading::text_at))]
fn read_text(bytes: &[u8]) -> Result<(&[u8], &[u8]), Miss>
    ensures { Reads (λ x. (x.0.now, x.1.now)) result (text_at bytes.now) }
{
    let (n, rest) = read_u32(bytes)?;
    read_bytes(n as usize, rest)
}

/// The table of strings, and the bytes behind it.
#[tactic(auto, unfolding(model::specs::Module::Reading::table_at))]
pub(crate) fn read_strings<'a>(
    alloc: Global,
    bytes: &'a [u8],
) -> Result<(Vec<&'a [u8]>, &'a [u8]), ReadError>
    ensures { Gives (λ x. (map (λ s. s.now) x.0.items, x.1.now)) result (table_at string_at bytes.now) }
{
    let (n, after) = read_count(MOST, bytes)?;
    let mut items = Vec::new(alloc);
    let mut seen = Seen {
        texts: IndexSet::new(alloc),
    };
    let mut rest = after;
    for _ in 0..n {
        let (text, behind) = read_text(rest)?;
        if !seen.texts.insert(text)? {
            return Err(ReadError::Fault(miss(FormatRule::BadTable, rest)));
        }
        items.push(text)?;
        rest = behind;
    }
    Ok((items, rest))
}
