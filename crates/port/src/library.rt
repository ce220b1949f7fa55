//! Functions of other systems, as decks of this language define them.

use std::alloc::{AllocError, Global};

/// A function: its name, and the cards that define it.
#[derive(Clone, Copy)]
struct Function {
    name: &'static [u8],
    cards: &'static str,
}

const CHAR: Function = Function {
    name: b"CHAR",
    cards: " DEFINE('CHAR(N)') :(CHAR.)\n\
            CHAR &ALPHABET TAB(N) LEN(1) . CHAR :S(RETURN)F(FRETURN)\n\
            CHAR.\n",
};

const ORD: Function = Function {
    name: b"ORD",
    cards: " DEFINE('ORD(S)') :(ORD.)\n\
            ORD S LEN(1) . S :F(FRETURN)\n\
            \x20&ALPHABET BREAK(S) @ORD :S(RETURN)F(FRETURN)\n\
            ORD.\n",
};

const SUBSTR: Function = Function {
    name: b"SUBSTR",
    cards: " DEFINE('SUBSTR(S,I,N)') :(SUBSTR.)\n\
            SUBSTR LT(I,1) :S(FRETURN)\n\
            \x20N = EQ(N,0) SIZE(S) - I + 1\n\
            \x20LT(N,0) :S(FRETURN)\n\
            \x20S TAB(I - 1) LEN(N) . SUBSTR :S(RETURN)F(FRETURN)\n\
            SUBSTR.\n",
};

const REVERSE: Function = Function {
    name: b"REVERSE",
    cards: " DEFINE('REVERSE(S)C') :(REVERSE.)\n\
            REVERSE S LEN(1) . C = :F(RETURN)\n\
            \x20REVERSE = C REVERSE :(REVERSE)\n\
            REVERSE.\n",
};

const LPAD: Function = Function {
    name: b"LPAD",
    cards: " DEFINE('LPAD(S,N,C)') :(LPAD.)\n\
            LPAD C = IDENT(C) ' '\n\
            \x20C LEN(1) . C\n\
            \x20LPAD = S\n\
            \x20LPAD = DUPL(C,N - SIZE(S)) S :(RETURN)\n\
            LPAD.\n",
};

const RPAD: Function = Function {
    name: b"RPAD",
    cards: " DEFINE('RPAD(S,N,C)') :(RPAD.)\n\
            RPAD C = IDENT(C) ' '\n\
            \x20C LEN(1) . C\n\
            \x20RPAD = S\n\
            \x20RPAD = S DUPL(C,N - SIZE(S)) :(RETURN)\n\
            RPAD.\n",
};

const BREAKX: Function = Function {
    name: b"BREAKX",
    cards: " DEFINE('BREAKX(S)') :(BREAKX.)\n\
            BREAKX BREAKX = BREAK(S) ARBNO(LEN(1) BREAK(S)) :(RETURN)\n\
            BREAKX.\n",
};

const LEQ: Function = Function {
    name: b"LEQ",
    cards: " DEFINE('LEQ(S,T)') :(LEQ.)\n\
            LEQ LGT(S,T) :S(FRETURN)\n\
            \x20LGT(T,S) :S(FRETURN)F(RETURN)\n\
            LEQ.\n",
};

const LNE: Function = Function {
    name: b"LNE",
    cards: " DEFINE('LNE(S,T)') :(LNE.)\n\
            LNE LGT(S,T) :S(RETURN)\n\
            \x20LGT(T,S) :S(RETURN)F(FRETURN)\n\
            LNE.\n",
};

const LLT: Function = Function {
    name: b"LLT",
    cards: " DEFINE('LLT(S,T)') :(LLT.)\n\
            LLT LGT(T,S) :S(RETURN)F(FRETURN)\n\
            LLT.\n",
};

const LLE: Function = Function {
    name: b"LLE",
    cards: " DEFINE('LLE(S,T)') :(LLE.)\n\
            LLE LGT(S,T) :S(FRETURN)F(RETURN)\n\
            LLE.\n",
};

const LGE: Function = Function {
    name: b"LGE",
    cards: " DEFINE('LGE(S,T)') :(LGE.)\n\
            LGE LGT(T,S) :S(FRETURN)F(RETURN)\n\
            LGE.\n",
};

const FUNCTIONS: [Function; 12] = [
    CHAR, ORD, SUBSTR, REVERSE, LPAD, RPAD, BREAKX, LEQ, LNE, LLT, LLE, LGE,
];

/// Which functions of the library a deck calls, and which it defines itself.
#[derive(Drop)]
pub(crate) struct Library {
    called: Vec<&'static [u8]>,
    defined: Vec<&'static [u8]>,
}

// The function of this name, if the library has one.
fn function_named(name: &[u8]) -> Option<Function> {
    FUNCTIONS.iter().copied().find(|it| it.name == name)
}

fn put(names: &mut Vec<&'static [u8]>, name: &'static [u8]) -> Result<(), AllocError> {
    if !names.iter().any(|other| *other == name) {
        names.push(name)?;
    }
    Ok(())
}

impl Library {
    pub(crate) fn new(alloc: Global) -> Library {
        Library {
            called: Vec::new(alloc),
            defined: Vec::new(alloc),
        }
    }

    /// Notes that a deck calls a function.
    pub(crate) fn call(&mut self, name: &[u8]) -> Result<(), AllocError> {
        match function_named(name) {
            Some(function) => put(&mut self.called, function.name),
            None => Ok(()),
        }
    }

    /// Notes that a deck defines a function.
    pub(crate) fn define(&mut self, name: &[u8]) -> Result<(), AllocError> {
        match function_named(name) {
            Some(function) => put(&mut self.defined, function.name),
            None => Ok(()),
        }
    }

    /// The cards that define what is called and isn't defined.
    pub(crate) fn cards(&self, alloc: Global) -> Result<Vec<u8>, AllocError> {
        let mut cards = Vec::new(alloc);
        for name in self.called.iter().copied() {
            if self.defined.iter().any(|other| *other == name) {
                continue;
            }
            if let Some(function) = function_named(name) {
                cards.extend_from_slice(function.cards.as_bytes())?;
            }
        }
        Ok(cards)
    }
}
