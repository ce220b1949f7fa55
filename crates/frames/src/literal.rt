//! The literal of the text that last answered a match.

ghost use Rattle.std.specs.Prelude.{◌≡◌, IfOk};
ghost use Rattle.model.specs.Pattern.Code.{basic_code};
ghost use Rattle.model.specs.Pattern.Patterns as pattern;

use pattern_compiler::PatCode;
use std::alloc::{AllocError, Global};
use strings::Text;

/// The code of a literal, which is given for the same text again without memory of its own, and another one in its
/// memory.
#[derive(Drop)]
pub(crate) struct Literal {
    code: PatCode,
}

impl Literal {
    /// The literal of the null text. Takes no memory.
    pub(crate) fn null() -> Literal {
        Literal {
            code: PatCode::null(),
        }
    }

    /// The code of a text's literal, which stays for the next text.
    #[inline(always)]
    pub(crate) fn code_of(&mut self, alloc: Global, text: &Text) -> Result<PatCode, AllocError>
        ensures { IfOk result (λ code. code ≡ basic_code (pattern.Lit text.now)) }
    {
        self.code.lit_again(alloc, text)
    }
}
