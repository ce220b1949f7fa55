//! Vectors: their copies, and another item in one.

ghost use Rattle.std.specs.Prelude.{◌≡◌, ◌<◌, IfOk, length, true, false};
ghost use Rattle.model.specs.Language.Operators.{with_item};
ghost use Rattle.aggregates.specs.Objects.{if_stored};

use crate::element::Element;
use std::alloc::{AllocError, Global};

/// A copy of a list, with a clone of each item.
pub(crate) fn copied<T: Clone + Drop>(alloc: Global, items: &[T]) -> Result<Vec<T>, AllocError>
    requires { (item copy : T) → T.is_clone item copy → copy ≡ item }
    ensures { IfOk result (λ copy. copy.items ≡ items.now) }
{
    let mut copy = Vec::with_capacity(alloc, items.len())?;
    for item in items {
        copy.push(item.clone()?)?;
    }
    Ok(copy)
}

/// Room for so many items, if there is none for any.
#[inline(always)]
pub(crate) fn reserve_first<T: Drop>(items: &mut Vec<T>, count: usize) -> Result<(), AllocError>
    ensures { items.new.items ≡ items.old.items }
{
    if items.capacity() == 0 {
        items.reserve_exact(count)?;
    }
    Ok(())
}

/// Another item at an index, if there is one.
#[inline(always)]
#[tactic(auto, using(crate::proofs::Lists::with_item_past, crate::proofs::Lists::with_item_set))]
pub(crate) fn put<T: Element>(items: &mut Vec<T>, index: usize, item: T) -> bool
    ensures stored { if_stored result items.new.items ≡ with_item index item items.old.items }
    ensures nowhere { result ≡ false → items.new.items ≡ items.old.items }
    ensures within { result ≡ true → index < length items.old.items }
    ensures there { index < length items.old.items → result ≡ true }
    ensures len { length items.new.items ≡ length items.old.items }
{
    if index >= items.len() {
        return false;
    }
    items[index].put(item);
    true
}
