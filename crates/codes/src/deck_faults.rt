//! Codes of faults of decks.

ghost use Rattle.std.specs.Prelude.{◌<◌, ◌≡◌, IfSome, length};

use crate::code::{Code, MEMORY, MEMORY_CODE};
use model::{CardRule, Cause};

/// The codes of rules of cards.
static CARDS: [Code; 7] = [
    Code {
        name: "C1",
        text: "a byte that is neither a blank nor printable",
        help: "The card has a byte that is neither a blank nor printable; put blanks in place of tabs, and no \
               other letters than those of ASCII.",
        deck: "",
    },
    Code {
        name: "C2",
        text: "a continuation with nothing before it",
        help: "The card continues a statement, and none stands before it; take the + or . away from column 1, or \
               put a statement before it.",
        deck: "+ X = 1\nEND\n",
    },
    Code {
        name: "C3",
        text: "a control card that isn't known",
        help: "A card with - in column 1 is -LIST, -UNLIST or -EJECT; put a blank before the -, or * to make it a \
               comment.",
        deck: "-LISTX\nEND\n",
    },
    Code {
        name: "C4",
        text: "no END statement",
        help: "The deck has no END statement; write END in column 1 of a last card, and look for a quote that \
               isn't closed.",
        deck: " OUTPUT = 'HI'\n",
    },
    Code {
        name: "C5",
        text: "a deck of more than 16,777,216 bytes",
        help: "The deck has more than 16,777,216 bytes; put what is data into a file that it reads.",
        deck: "",
    },
    Code {
        name: "C6",
        text: "a statement of more than 4,000 bytes",
        help: "The statement has more than 4,000 bytes; give parts of it to variables in statements of their own.",
        deck: "",
    },
    Code {
        name: "C7",
        text: "memory was refused",
        help: MEMORY,
        deck: "",
    },
];

/// The codes of rules of cards, in order.
pub(crate) fn card_codes() -> &'static [Code]
    ensures { length result.now ≡ 7 }
{
    &CARDS
}

/// The codes of causes of faulty statements.
static CAUSES: [Code; 11] = [
    Code {
        name: "L1",
        text: "a byte that begins no token",
        help: "This byte begins no token; put it into quotes if it is text, and write binary | for or, ~ for not, \
               $ for indirect.",
        deck: " X = 'A' # 'B'\nEND\n",
    },
    Code {
        name: "L2",
        text: "a literal that isn't closed",
        help: "The literal that begins here isn't closed; write its quote again behind it, and a text that has one \
               kind of quote in it within the other kind.",
        deck: " X = 'A' 'B\nEND\n",
    },
    Code {
        name: "L3",
        text: "an integer over 9223372036854775807",
        help: "The integer is over 9223372036854775807; write a smaller one, or a string of digits.",
        deck: " X = 9223372036854775808\nEND\n",
    },
    Code {
        name: "L4",
        text: "more than 64 brackets open at once",
        help: "More than 64 brackets are open here; give what is in inner ones to a variable in a statement before.",
        deck: "",
    },
    Code {
        name: "L5",
        text: "more than 16 unary marks in a row",
        help: "More than 16 marks stand here in a row; put some of what follows into brackets, or blanks between.",
        deck: " X = -----------------Y\nEND\n",
    },
    Code {
        name: "P1",
        text: "the statement has no form that is permitted",
        help: "The statement has no form that is permitted; look for binary operators without blanks on both \
               sides, for a blank behind a function's name, for brackets that don't match, and for a label that \
               doesn't begin in column 1.",
        deck: " X = A+ B\nEND\n",
    },
    Code {
        name: "P2",
        text: "the label is taken",
        help: "The label is that of an earlier statement, or RETURN, FRETURN or NRETURN; give this statement \
               another one.",
        deck: "L X = 1\nL Y = 2\nEND\n",
    },
    Code {
        name: "P3",
        text: "too many arguments of a primitive function",
        help: "The primitive function takes fewer arguments; take the last ones away, or close its bracket sooner.",
        deck: " X = SIZE(A,B)\nEND\n",
    },
    Code {
        name: "P4",
        text: "a keyword that isn't known",
        help: "There is no keyword of this name; keywords are written in capital letters, and a name without & is \
               a variable.",
        deck: " X = &NOSUCH\nEND\n",
    },
    Code {
        name: "P5",
        text: "no target where one is wanted",
        help: "Something is assigned to what is no target; a target is a name, $ with its operand, a reference or \
               a call, and of keywords those that aren't protected.",
        deck: " 1 = X\nEND\n",
    },
    Code {
        name: "P6",
        text: "an entry label that no statement has",
        help: "END names a label where the run is to begin, and no statement has it; write the label as it is \
               spelt there, or END alone.",
        deck: "END NOWHERE\n",
    },
];

/// The codes of causes of faulty statements, in order.
pub(crate) fn cause_codes() -> &'static [Code]
    ensures { length result.now ≡ 11 }
{
    &CAUSES
}

// Where the code of a rule stands.
fn card_place(rule: CardRule) -> usize
    ensures { result < 7 }
{
    match rule {
        CardRule::BadByte => 0,
        CardRule::NothingToContinue => 1,
        CardRule::UnknownControl => 2,
        CardRule::NoEnd => 3,
        CardRule::DeckTooLong => 4,
        CardRule::StatementTooLong => 5,
        CardRule::Memory => 6,
    }
}

/// The code of a rule of cards.
pub fn card_code(rule: CardRule) -> Code {
    card_codes()[card_place(rule)]
}

// Where the code of a cause stands, but for want of memory.
fn cause_place(cause: Cause) -> Option<usize>
    ensures { IfSome result (λ k. k < 11) }
{
    match cause {
        Cause::StrayByte => Some(0),
        Cause::UnclosedLiteral => Some(1),
        Cause::IntegerTooLarge => Some(2),
        Cause::TooManyBrackets => Some(3),
        Cause::TooManyMarks => Some(4),
        Cause::NoTree => Some(5),
        Cause::LabelTaken => Some(6),
        Cause::TooManyArguments => Some(7),
        Cause::UnknownKeyword => Some(8),
        Cause::NotATarget => Some(9),
        Cause::EntryMissing => Some(10),
        Cause::Memory => None,
    }
}

/// The code of a cause of a faulty statement.
pub fn cause_code(cause: Cause) -> Code {
    match cause_place(cause) {
        Some(place) => cause_codes()[place],
        None => MEMORY_CODE,
    }
}
