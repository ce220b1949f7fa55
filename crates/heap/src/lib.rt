//! The objects of a run, arrays, tables and records, by their numbers in the order of making.
//!
//! `Heap<V>` holds them. `new_array`, `new_table` and `new_record` make an object and give its number, `place` and `field`
//! find a place in it, `get` looks there and `set` stores there. `Marks` are marks of objects by their numbers: `clear`
//! gives back those without one.
//!
//!     let table = heap.new_table(alloc)?;
//!     let stored = heap.set(table, ElementPlace::Key(Key::Integer(1)), value)?;
//!     let found = heap.get(table, &ElementPlace::Key(Key::Integer(1)));
//!
//! Promised: each call is its function on the definitions' list of objects (`model`'s `Aggregates`), and what memory
//! refuses leaves the heap as it was. CALLING.md has a row for each call.
#![tactic(auto)]

mod flags;
mod heap;
mod marks;
mod page;
mod pages;
mod views;

pub use heap::Heap;
pub use marks::Marks;
