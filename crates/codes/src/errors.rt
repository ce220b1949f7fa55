//! Codes of errors of runs, and of faults of units.

ghost use Rattle.std.specs.Prelude.{◌<◌, ◌≡◌, length};

use crate::code::{Code, MEMORY};
use model::{ErrorCode, UnitFault};

/// The codes of errors, each with when it comes.
static ERRORS: [Code; 16] = [
    Code {
        name: "E1",
        text: "a value of a type that the operation doesn't take",
        help: "An operand or argument is a pattern, an array or another value that doesn't convert to a string, an \
               integer or a pattern, or A<I> stands where A holds no array and no table.",
        deck: " P = 'A' | 'B'\n X = P + 1\nEND\n",
    },
    Code {
        name: "E2",
        text: "arithmetic: overflow, a zero divisor or a negative exponent",
        help: "A sum, product or power is outside -9223372036854775808 to 9223372036854775807, / or REMDR divides \
               by 0, or ** has a negative right operand.",
        deck: " N = 0\n X = 10 / N\nEND\n",
    },
    Code {
        name: "E3",
        text: "a string that isn't an integer in range",
        help: "A string where an integer is wanted has something else in it than digits with a sign before them, \
               or is too large.",
        deck: " X = '12 apples'\n Y = X + 1\nEND\n",
    },
    Code {
        name: "E4",
        text: "a function that isn't defined",
        help: "A call of a function that neither DEFINE nor DATA has made; the name may be misspelt, or DEFINE not \
               have been run yet.",
        deck: " OUTPUT = TWICE(2)\nEND\n",
    },
    Code {
        name: "E5",
        text: "the null string as a name, or no name where one is wanted",
        help: "$X where X is null, or a target is a call that gives a value.",
        deck: " X =\n $X = 1\nEND\n",
    },
    Code {
        name: "E6",
        text: "a label that isn't defined",
        help: "A goto that is taken leads to a label that no statement has.",
        deck: " :(NOWHERE)\nEND\n",
    },
    Code {
        name: "E7",
        text: "a return at level zero",
        help: "RETURN, FRETURN or NRETURN is gone to outside any call; the run may have come into a function's \
               statements from above.",
        deck: " :(RETURN)\nEND\n",
    },
    Code {
        name: "E8",
        text: "a failure inside a goto",
        help: "What stands in the brackets of a goto failed.",
        deck: " :($EQ(1,2))\nEND\n",
    },
    Code {
        name: "E9",
        text: "a string longer than &MAXLNGTH",
        help: "A joined string, DUPL, a replaced subject or a record read is longer than &MAXLNGTH, which is 5000 \
               at first.",
        deck: " X = DUPL('A',5001)\nEND\n",
    },
    Code {
        name: "E10",
        text: "an argument of a pattern function that is negative or null",
        help: "LEN, POS, RPOS, TAB or RTAB of a negative number; ANY, NOTANY, SPAN or BREAK of the null string.",
        deck: " X =\n P = SPAN(X)\nEND\n",
    },
    Code {
        name: "E11",
        text: "a value that the keyword doesn't take",
        help: "&FULLSCAN is assigned 0, or &MAXLNGTH a number that isn't in 0 to 16777216.",
        deck: " &MAXLNGTH = -1\nEND\n",
    },
    Code {
        name: "E12",
        text: "a faulty prototype of DEFINE or DATA",
        help: "The text isn't of the form NAME(A,B)C,D without blanks, has a name twice, or names a primitive \
               function.",
        deck: " DEFINE('F(X, Y)')\nEND\n",
    },
    Code {
        name: "E13",
        text: "a faulty prototype of an array, too large an array, or a wrong number of subscripts",
        help: "ARRAY of a text that isn't 10 or 0:9 or 3,4 or the like, of more than 1,048,576 elements, or A<1> \
               of an array with two dimensions.",
        deck: " A = ARRAY('3,4')\n X = A<1>\nEND\n",
    },
    Code {
        name: "E14",
        text: "a printed value that is neither string nor integer",
        help: "OUTPUT, or another variable that is associated for output, is assigned a pattern, an array, a name \
               or the like.",
        deck: " OUTPUT = 'A' | 'B'\nEND\n",
    },
    Code {
        name: "E15",
        text: "a unit that isn't in 0 to 99",
        help: "INPUT or OUTPUT is called with such a unit.",
        deck: " OUTPUT('X',100)\nEND\n",
    },
    Code {
        name: "E16",
        text: "too many arguments of a primitive function that is called by APPLY",
        help: "APPLY names a primitive function and gives it more arguments than it takes.",
        deck: " X = APPLY('SIZE','ABC','B')\nEND\n",
    },
];

/// The codes of errors, in order.
pub(crate) fn error_codes() -> &'static [Code]
    ensures { length result.now ≡ 16 }
{
    &ERRORS
}

/// The codes of faults of units.
static UNITS: [Code; 4] = [
    Code {
        name: "U1",
        text: "a unit that isn't open that way",
        help: "Give a file for the unit as UNIT=FILE, and use a unit either for reading or for writing.",
        deck: "",
    },
    Code {
        name: "U2",
        text: "a unit that can't be read",
        help: "The unit's file isn't there, isn't yours to read, or failed while it was read.",
        deck: "",
    },
    Code {
        name: "U3",
        text: "a unit that can't be written",
        help: "The unit's file isn't yours to write, its folder isn't there, or there is no space left.",
        deck: "",
    },
    Code {
        name: "U4",
        text: "memory was refused at a unit",
        help: MEMORY,
        deck: "",
    },
];

/// The codes of faults of units, in order.
pub(crate) fn unit_codes() -> &'static [Code]
    ensures { length result.now ≡ 4 }
{
    &UNITS
}

// Where the code of an error stands.
fn error_place(error: ErrorCode) -> usize
    ensures { result < 16 }
{
    match error {
        ErrorCode::WrongType => 0,
        ErrorCode::Arithmetic => 1,
        ErrorCode::NotAnInteger => 2,
        ErrorCode::UndefinedFunction => 3,
        ErrorCode::NotAName => 4,
        ErrorCode::UndefinedLabel => 5,
        ErrorCode::ReturnAtLevelZero => 6,
        ErrorCode::FailureInGoto => 7,
        ErrorCode::StringTooLong => 8,
        ErrorCode::BadPatternArgument => 9,
        ErrorCode::BadKeywordValue => 10,
        ErrorCode::BadPrototype => 11,
        ErrorCode::BadArray => 12,
        ErrorCode::NotPrintable => 13,
        ErrorCode::BadUnit => 14,
        ErrorCode::TooManyArguments => 15,
    }
}

/// The code of an error.
pub fn error_code(error: ErrorCode) -> Code {
    error_codes()[error_place(error)]
}

// Where the code of a unit's fault stands.
fn unit_place(fault: UnitFault) -> usize
    ensures { result < 4 }
{
    match fault {
        UnitFault::NotOpen => 0,
        UnitFault::ReadFailed => 1,
        UnitFault::WriteFailed => 2,
        UnitFault::Memory => 3,
    }
}

/// The code of a unit's fault.
pub fn unit_code(fault: UnitFault) -> Code {
    unit_codes()[unit_place(fault)]
}
