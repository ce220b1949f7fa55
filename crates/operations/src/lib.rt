//! What operations do with the world of a run: elements, records and new objects, names that are fetched and assigned to,
//! and operators that ask keywords.
//!
//! `fetch`, `assign` and `splice` go through the units where a variable is associated with one; `item` names an element,
//! `array`, `table` and `construct` make objects, `cat` puts values one after the other.
//!
//!     assign(&mut world, alloc, &mut units, &name, value)?;
//!     let fetched = fetch(&mut world, &mut units, &name)?;
//!
//! Promised: each is its definition in `model` (`Operators`, `Aggregates`, `Io`), errors and failures included. CALLING.md
//! says how results are stated.
#![tactic(auto)]

mod elements;
mod entries;
mod items;
mod making;
mod marking;
mod operators;
mod records;
mod types;
mod unit_calls;

pub use elements::{
    element_in, entry_at, give, index_for, named, place_by, place_in, put_entry, put_in_entry,
    put_in_place, put_integer, put_written, replace, value_at,
};
pub use entries::entry_for;
pub use items::item;
pub use making::{array, copy, object_type, rows, table};
pub use marking::{drop_unmarked, held_size, made_size, mark_reached, no_marks};
pub use operators::{
    begin_match, cat, cat_onto, cat_short, cut, is_anchored, keyword, may_take, replaced,
    set_keyword,
};
pub use records::{construct, field_place, select};
pub use types::data;
pub use unit_calls::{assign, assign_at, fetch, fetch_at, returned_value, splice, splice_at};
