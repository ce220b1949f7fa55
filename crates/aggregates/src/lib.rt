//! Arrays, tables and records: what an object is made of, and what it holds at its places.
//!
//! `Object<V>` is one of them; `V`, a type with the trait `Element`, is what they hold. `get` looks at a place and `set`
//! stores there. Their numbers, and the list of all of them, are of `heap`.
//!
//!     let mut object = Object::Table(Table::new(alloc));
//!     let stored = object.set(ElementPlace::Key(Key::Integer(1)), value)?;
//!     let found = object.get(&ElementPlace::Key(Key::Integer(1)));
//!
//! Promised: each call is its function on the definitions' object (`object_of` of `specs/Made.antt`), and what memory
//! refuses leaves the object as it was. CALLING.md has a row for each call.
#![tactic(auto)]

mod array;
mod bounds;
mod dimensions;
mod element;
mod elements;
mod field_values;
mod items;
mod names;
mod object;
mod place;
mod table;

pub use array::Array;
pub use bounds::{Bounds, are_bounds};
pub use element::Element;
pub use field_values::FieldValues;
pub use names::Names;
pub use object::{Object, ObjectKind, Record, place_among};
pub use place::{ElementPlace, Key};
pub use table::Table;
