//! Codes of faults of modules.

ghost use Rattle.std.specs.Prelude.{◌<◌, ◌≡◌, length};

use crate::code::{Code, MEMORY};
use model::{FormatRule, ModuleRule};

/// What to do with a file that is no module of this program.
const AGAIN: &str =
    "The file was changed since snobol compile wrote it, or it is no module; compile its deck again.";

/// The codes of rules of the format.
static FORMATS: [Code; 7] = [
    Code {
        name: "F1",
        text: "bytes that aren't a module's",
        help: "A module is what snobol compile writes; a deck is run by its name alone.",
        deck: "",
    },
    Code {
        name: "F2",
        text: "another version or level of the format",
        help: "A module of version 1 is written anew by sno upgrade.",
        deck: "",
    },
    Code {
        name: "F3",
        text: "a module that isn't whole",
        help: AGAIN,
        deck: "",
    },
    Code {
        name: "F4",
        text: "bytes behind the module",
        help: AGAIN,
        deck: "",
    },
    Code {
        name: "F5",
        text: "a count over its limit, or entries out of order or equal",
        help: AGAIN,
        deck: "",
    },
    Code {
        name: "F6",
        text: "an instruction, primitive or keyword that isn't known",
        help: AGAIN,
        deck: "",
    },
    Code {
        name: "F7",
        text: "memory was refused",
        help: MEMORY,
        deck: "",
    },
];

/// The codes of rules of the format, in order.
pub(crate) fn format_codes() -> &'static [Code]
    ensures { length result.now ≡ 7 }
{
    &FORMATS
}

/// The codes of rules of modules.
static MODULES: [Code; 5] = [
    Code {
        name: "W1",
        text: "an index, name or number that isn't there or isn't permitted",
        help: AGAIN,
        deck: "",
    },
    Code {
        name: "W2",
        text: "an offset at which no instruction of the wanted kind begins",
        help: AGAIN,
        deck: "",
    },
    Code {
        name: "W3",
        text: "an instruction without its operands, or reached in two ways that differ",
        help: AGAIN,
        deck: "",
    },
    Code {
        name: "W4",
        text: "a jump out of its pattern",
        help: AGAIN,
        deck: "",
    },
    Code {
        name: "W5",
        text: "a last statement that isn't END",
        help: AGAIN,
        deck: "",
    },
];

/// The codes of rules of modules, in order.
pub(crate) fn module_codes() -> &'static [Code]
    ensures { length result.now ≡ 5 }
{
    &MODULES
}

// Where the code of a rule of the format stands.
fn format_place(rule: FormatRule) -> usize
    ensures { result < 7 }
{
    match rule {
        FormatRule::BadMagic => 0,
        FormatRule::BadVersion => 1,
        FormatRule::Truncated => 2,
        FormatRule::TrailingBytes => 3,
        FormatRule::BadTable => 4,
        FormatRule::UnknownInstruction => 5,
        FormatRule::Memory => 6,
    }
}

/// The code of a rule of the format.
pub fn format_code(rule: FormatRule) -> Code {
    format_codes()[format_place(rule)]
}

// Where the code of a rule of modules stands.
fn module_place(rule: ModuleRule) -> usize
    ensures { result < 5 }
{
    match rule {
        ModuleRule::BadIndex => 0,
        ModuleRule::BadTarget => 1,
        ModuleRule::BadFlow => 2,
        ModuleRule::BadJump => 3,
        ModuleRule::NoEnd => 4,
    }
}

/// The code of a rule of modules.
pub fn rule_code(rule: ModuleRule) -> Code {
    module_codes()[module_place(rule)]
}
