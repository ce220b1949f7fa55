//! The table of labels.

ghost use Rattle.std.specs.Prelude.{◌≡◌, ◌<◌, ◌+◌, ◌*◌, ◌^◌, ◌&&◌, List, ℕ, None, IfOk, length};
ghost use Rattle.std.specs.Prelude.{IfSome, Some, false, get_or, not, replicate, slice_get, true};
ghost use Rattle.std.specs.Str.{bytes_eq};
ghost use Rattle.std.specs.HashMap.{get_by};
ghost use Rattle.model.specs.Module.Images.{statement_labelled};
ghost use Rattle.model.specs.Module.WellFormed.{is_label_name, is_statement};
ghost use Rattle.loader.specs.Labels.{AreNumbers, IsMarked};
ghost use Rattle.loader.specs.Parts.{label_fault};

use crate::names::{is_label_name, is_statement};
use indexmap::IndexMap;
use model::{Label, ModuleFault, ModuleRule};
use module_format::ImageView;
use std::alloc::{AllocError, Global};

// Whether a label has a name, a statement, and a string that none before it has.
fn is_label(image: &ImageView<'_>, label: Label, is_new: bool) -> bool
    ensures { result ≡ is_label_name
        (slice_get image.now.strings label.string) && is_statement image.now label.statement &&
        is_new }
{
    is_label_name(image.string(label.string)) && is_statement(image, label.statement) && is_new
}

// Marks a number; whether it is one of those that can be marked, and wasn't marked.
fn mark(marks: &mut [bool], number: u32) -> bool
    ensures new { result ≡ not (get_or marks.old number true) }
    ensures marked { IsMarked number marks.old marks.new }
{
    let place = number as usize;
    if place >= marks.len() || marks[place] {
        return false;
    }
    marks[place] = true;
    true
}

// The first fault of the labels, which begin at a place, where no string is marked yet.
fn first_fault(image: &ImageView<'_>, seen: &mut [bool], place: usize) -> Option<ModuleFault>
    requires unmarked { seen.old ≡ replicate (length image.now.strings) false }
    requires there { place + 8 * length image.now.labels < 2 ^ 60 }
    ensures { result ≡ label_fault place image.now }
{
    let mut offset = place;
    let labels = image.labels();
    for label in labels {
        let is_new = mark(seen, label.string);
        if !is_label(image, *label, is_new) {
            return Some(ModuleFault {
                offset,
                rule: ModuleRule::BadIndex,
            });
        }
        offset += 8;
    }
    None
}

/// The first fault of the labels, which begin at a place.
pub(crate) fn label_fault(
    alloc: Global,
    image: &ImageView<'_>,
    place: usize,
) -> Result<Option<ModuleFault>, AllocError>
    requires { place + 8 * length image.now.labels < 2 ^ 60 }
    ensures { IfOk result (λ fault. fault ≡ label_fault place image.now) }
{
    if image.labels().is_empty() {
        return Ok(None);
    }
    let mut seen = vec![in alloc; false; image.strings().len()]?;
    Ok(first_fault(image, &mut seen, place))
}

/// The statement of each label by its name, which is a slice of the module's bytes.
pub(crate) fn label_map<'a>(
    alloc: Global,
    image: &ImageView<'a>,
) -> Result<IndexMap<&'a [u8], u32>, AllocError>
    ensures { IfOk result (λ found.
        (name : List ℕ) → get_by (λ k. bytes_eq name k.now) found
        ≡ statement_labelled image.now.strings image.now.labels name None) }
{
    let labels = image.labels();
    let mut found = IndexMap::with_capacity(alloc, labels.len())?;
    let mut left = labels.len();
    while left > 0 {
        left -= 1;
        let label = labels[left];
        if let Some(name) = image.string(label.string) {
            found.insert(name, label.statement)?;
        }
    }
    Ok(found)
}

// The statement that a name labels, if the name stands at a place of the table.
fn number_at(found: &IndexMap<&[u8], u32>, place: usize, name: &[u8]) -> Option<u32>
    ensures { IfSome result (λ n. get_by (λ k. bytes_eq name.now k.now) found.now ≡ Some n) }
{
    let (key, number) = found.get_index(place)?;
    if *key == name { Some(*number) } else { None }
}

/// The statements of the labels by the numbers of their strings, and 0 for the other strings.
pub(crate) fn label_numbers(
    alloc: Global,
    image: &ImageView<'_>,
    found: &IndexMap<&[u8], u32>,
) -> Result<Vec<u32>, AllocError>
    requires { (name : List ℕ) → get_by (λ k. bytes_eq name k.now) found.now
        ≡ statement_labelled image.now.strings image.now.labels name None }
    ensures { IfOk result (λ numbers. AreNumbers image.now numbers.items) }
{
    let labels = image.labels();
    let mut numbers = Vec::new(alloc);
    if labels.is_empty() {
        return Ok(numbers);
    }
    numbers.resize(image.strings().len(), 0)?;
    // The map has them from the last to the first.
    let mut place = labels.len();
    for label in labels {
        place -= 1;
        if let Some(name) = image.string(label.string) {
            if let Some(number) = number_at(found, place, name) {
                numbers[label.string as usize] = number;
            }
        }
    }
    Ok(numbers)
}
