//! Prototypes: the texts that say what DEFINE, DATA and ARRAY make.
//!
//! `function_prototype(alloc, level, text)` reads `NAME(ARGUMENT,..)LOCAL,..`, `type_prototype` what DATA takes, as
//! `TYPE(FIELD,..)`, `dimensions` what ARRAY takes, as `0:9,20`.
//!
//!     let bounds = dimensions(alloc, &text)?;
//!
//! Promised: each is its definition in `model`'s `Prototypes`, for every text; only a refused growth of memory gives
//! another result.
#![tactic(auto)]

mod array;
mod function;
mod names;
mod parts;
mod types;

pub use array::dimensions;
pub use function::{FunctionPrototype, function_prototype};
pub use types::{TypePrototype, type_prototype};
