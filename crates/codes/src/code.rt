//! A code, and the code of a name.

use crate::deck_faults::{card_codes, cause_codes};
use crate::errors::{error_codes, unit_codes};
use crate::module_faults::{format_codes, module_codes};
use crate::topics::topic_codes;

/// What is known of a code.
#[derive(Clone, Copy)]
pub struct Code {
    /// Its name, as `E3`.
    pub name: &'static str,
    /// What it stands for, in a few words.
    pub text: &'static str,
    /// What to do, in a sentence or two.
    pub help: &'static str,
    /// A deck that shows it; empty where there is none.
    pub deck: &'static str,
}

/// What to do where memory was refused.
pub(crate) const MEMORY: &str =
    "The system gave no more memory; look for strings, tables or calls that grow without end.";

/// Want of memory, in place of any other cause.
pub const MEMORY_CODE: Code = Code {
    name: "memory",
    text: "memory was refused",
    help: MEMORY,
    deck: "",
};

// The code of this name in a table.
fn find(table: &[Code], name: &str) -> Option<Code> {
    table.iter().copied().find(|code| code.name == name)
}

/// The code of this name, if there is one.
pub fn code_named(name: &str) -> Option<Code> {
    if name == MEMORY_CODE.name {
        return Some(MEMORY_CODE);
    }
    find(card_codes(), name)
        .or(find(cause_codes(), name))
        .or(find(error_codes(), name))
        .or(find(unit_codes(), name))
        .or(find(format_codes(), name))
        .or(find(module_codes(), name))
        .or(find(topic_codes(), name))
}

/// The code of the error of runs of this name, if there is one.
pub fn run_code_named(name: &str) -> Option<Code> {
    find(error_codes(), name)
}
