//! Codes of what has no letter and number: files, bounds, and warnings.

ghost use Rattle.std.specs.Prelude.{◌<◌, ◌≡◌, length};

use crate::code::Code;

/// What a message is about that is no fault of a deck, a module, a run or a unit.
#[derive(Clone, Copy, PartialEq, Eq)]
pub enum Topic {
    /// A file of the words can't be read.
    CannotRead,
    /// A file can't be written.
    CannotWrite,
    /// The run did as many steps as it may.
    StepsUsedUp,
    /// As many statements have begun as `&STLIMIT` permits.
    StatementLimit,
    /// A goto leads to a label that no statement has.
    UndefinedLabel,
    /// A function is called that nothing defines.
    UndefinedFunction,
    /// Two variables differ in case alone.
    Case,
    /// Columns past 72 hold something.
    Columns,
    /// Records behind END hold something.
    BehindEnd,
    /// An argument is given that isn't used.
    Unused,
    /// A deck was written anew.
    Ported,
    /// A module isn't the one of a deck.
    OtherDeck,
}

/// The codes of topics.
static TOPICS: [Code; 12] = [
    Code {
        name: "read",
        text: "a file that can't be read",
        help: "Look at the file's name, and at whether it is yours to read.",
        deck: "",
    },
    Code {
        name: "write",
        text: "a file that can't be written",
        help: "Look at the file's folder, at whether it is yours to write, and at the space that is left.",
        deck: "",
    },
    Code {
        name: "steps",
        text: "the run did as many steps as --steps permits",
        help: "Permit more by --steps N, or leave --steps away for no bound.",
        deck: "",
    },
    Code {
        name: "stlimit",
        text: "as many statements have begun as &STLIMIT permits",
        help: "Assign a greater number to &STLIMIT, or -1 for no limit; it is 50000 at first.",
        deck: "",
    },
    Code {
        name: "undefined-label",
        text: "a goto to a label that no statement has",
        help: "Look at how the label is spelt; where this goto is taken, the run ends by E6.",
        deck: "",
    },
    Code {
        name: "undefined-function",
        text: "a function that neither DEFINE nor DATA nor the language has",
        help: "Look at how the function is spelt; primitive functions are in capital letters. A call of it ends \
               the run by E4.",
        deck: "",
    },
    Code {
        name: "case",
        text: "two variables that differ in case alone",
        help: "They are two variables; spell them alike if one is meant, and INPUT, OUTPUT and PUNCH in capital \
               letters.",
        deck: "",
    },
    Code {
        name: "columns",
        text: "columns past 72 hold something that isn't read",
        help: "Continue the statement on another card, with + in column 1.",
        deck: "",
    },
    Code {
        name: "behind-end",
        text: "records behind END hold something that nothing reads",
        help: "Put them into a file and give that for unit 5, as 5=FILE.",
        deck: "",
    },
    Code {
        name: "unused",
        text: "an argument that isn't used",
        help: "The third argument of INPUT and OUTPUT, a length or a format elsewhere, isn't used; pad or cut the string \
             in the deck.",
        deck: "",
    },
    Code {
        name: "ported",
        text: "a deck of another SNOBOL4 was written as a deck of this language",
        help: "snobol port writes the deck so; snobol --strict runs it as it is.",
        deck: "",
    },
    Code {
        name: "source",
        text: "the module isn't the one of this deck",
        help: "Give the deck as it was when the module was compiled, or compile it anew.",
        deck: "",
    },
];

/// The codes of topics, in order.
pub(crate) fn topic_codes() -> &'static [Code]
    ensures { length result.now ≡ 12 }
{
    &TOPICS
}

// Where the code of a topic stands.
fn topic_place(topic: Topic) -> usize
    ensures { result < 12 }
{
    match topic {
        Topic::CannotRead => 0,
        Topic::CannotWrite => 1,
        Topic::StepsUsedUp => 2,
        Topic::StatementLimit => 3,
        Topic::UndefinedLabel => 4,
        Topic::UndefinedFunction => 5,
        Topic::Case => 6,
        Topic::Columns => 7,
        Topic::BehindEnd => 8,
        Topic::Unused => 9,
        Topic::Ported => 10,
        Topic::OtherDeck => 11,
    }
}

/// The code of a topic.
pub fn topic_code(topic: Topic) -> Code {
    topic_codes()[topic_place(topic)]
}
