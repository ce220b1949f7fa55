//! Instructions, read one after the other from their bytes.

ghost use Rattle.std.specs.Prelude.{◌≡◌, IfOk};
ghost use Rattle.module_format.specs.Views.{instrs_from, listed_left};

use code_format::first_instr;
use model::Instr;

/// The instructions of a module's code, in order.
#[derive(Drop)]
pub struct Instrs<'a> {
    left: usize,
    rest: &'a [u8],
}

impl<'a> Instrs<'a> {
    // So many instructions, which the bytes begin with.
    pub(crate) fn new(left: usize, rest: &'a [u8]) -> Instrs<'a>
        ensures { instrs_from result.left result.rest.now ≡ instrs_from left rest.now }
    {
        Instrs { left, rest }
    }
}

impl<'a> Iterator for Instrs<'a> {
    ghost use Rattle.std.specs.Iterator.{YieldsFirst, item_count};
    ghost use Rattle.module_format.specs.Views.{instrs_left};

    type Item = Instr;

    ghost next_gives = { YieldsFirst instrs_left };

    ghost remaining = { item_count instrs_left };

    #[inline(always)]
    #[tactic(auto, unfolding(crate::specs::Views::instrs_from))]
    fn next(&mut self) -> Option<Instr> {
        if self.left == 0 {
            return None;
        }
        let (instr, rest) = first_instr(self.rest)?;
        self.left -= 1;
        self.rest = rest;
        Some(instr)
    }
}

/// Instructions that were read before, in order.
#[derive(Drop)]
pub struct Listed<'s> {
    rest: &'s [Instr],
}

/// These instructions, one after another.
pub fn instrs_of<'s>(instrs: &'s [Instr]) -> Listed<'s>
    ensures { listed_left result ≡ instrs.now }
{
    Listed { rest: instrs }
}

impl<'s> Iterator for Listed<'s> {
    ghost use Rattle.std.specs.Iterator.{YieldsFirst, item_count};
    ghost use Rattle.module_format.specs.Views.{listed_left};

    type Item = Instr;

    ghost next_gives = { YieldsFirst listed_left };

    ghost remaining = { item_count listed_left };

    #[inline(always)]
    fn next(&mut self) -> Option<Instr> {
        match self.rest {
            [first, rest @ ..] => {
                self.rest = rest;
                Some(*first)
            }
            [] => None,
        }
    }
}
