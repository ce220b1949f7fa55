//! Units: where records are read and written.
//!
//! The trait `Units` has two calls, `read_record(unit)` and `write_record(unit, bytes)`. `MemUnits` are units in
//! memory, `FileUnits` standard input, standard output and files; `FailAt` lets one call of other units fail.
//!
//!     let mut units = MemUnits::new(alloc);
//!     units.open_input(5, b"first\nsecond\n")?;
//!     let record = units.read_record(5)?;
//!
//! Promised: a read takes the first record that is left, a write adds one behind those written, and a fault U1 to U3
//! grows that unit's count of failures alone. `MemUnits` keeps all of it, and so does `FileUnits` on each `UnitSystem` that
//! exposes the bytes of its streams and files: those that it wrote to a unit are the bytes of the unit's records.
//! `LineReader` and `LineWriter` are proved over any reader and writer.
#![tactic(auto)]

mod ahead;
mod counts;
mod fail_at;
mod file;
mod given;
mod history;
mod line_reader;
mod line_writer;
mod lines;
mod mem;
mod records;
mod system;
mod units;

pub use fail_at::FailAt;
pub use file::FileUnits;
pub use given::GivenFile;
pub use line_reader::LineReader;
pub use line_writer::LineWriter;
pub use mem::{MemUnits, Written};
pub use system::UnitSystem;
pub use units::Units;
