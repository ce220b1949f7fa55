//! Codes of messages, and what they mean: faults of decks and modules, errors of runs, faults of units, and warnings.
//!
//! `code_named(name)` is the code of a name, as `E3`; `card_code`, `cause_code`, `format_code`, `rule_code`, `error_code`
//! and `unit_code` are those of faults, and `topic_code` that of what has no letter and number.
//!
//!     let code = cause_code(Cause::NoTree);
//!
//! Promised: each call returns. The words are tested.
#![tactic(auto)]

mod code;
mod deck_faults;
mod errors;
mod module_faults;
mod topics;

pub use code::{Code, MEMORY_CODE, code_named, run_code_named};
pub use deck_faults::{card_code, cause_code};
pub use errors::{error_code, unit_code};
pub use module_faults::{format_code, rule_code};
pub use topics::{Topic, topic_code};
