//! What the page in a browser calls: a deck is run on records that are given, or listed.
//!
//! The page hands over memory for what is printed and for messages, and gets as much as fits, with the whole lengths in
//! a `Shown`. Nothing is kept from one call to the next.
//!
//!     page_run(alloc, b" OUTPUT = INPUT\nEND\n", b"HI\n", 1_000, &mut printed, &mut told, &mut shown);
//!
//! Promised, of `page_run`: what is printed is what the deck means on the records, or a prefix of that, and a status of
//! 0 says that the run ended normally. Listings, messages and other statuses are tested, and so is each call
//! from the page's side.
#![tactic(auto)]

ghost use Rattle.page_calls.specs.Shown.{IsPage};

pub use page_calls::{GivenUnit, Shown};
use page_calls::{Pieces, hand_list, hand_run, watch_run};
use std::alloc::Global;

/// Compiles a deck and runs it, at most so many steps. Unit 5 has the lines of `input`; what is written to unit 6 goes to
/// `printed`, and what `sno` would write on standard error to `told`.
#[unsafe(no_mangle)]
pub extern "C" fn page_run(
    alloc: Global,
    deck: &[u8],
    input: &[u8],
    steps: u64,
    printed: &mut [u8],
    told: &mut [u8],
    shown: &mut Shown,
)
    ensures { IsPage deck.now input.now shown.new.status shown.new.printed printed.old printed.new }
{
    hand_run(alloc, deck, input, steps, printed, told, shown)
}

/// Compiles a deck and runs it, at most so many steps, of which the page hears as they are made: first so many, and then
/// in pieces. The units are those that are given, with the records of their parts of what was typed; what is written goes
/// to the page. What `sno` would write on standard error goes to `told`, and `shown.printed` has how many steps the run
/// had made when its last piece began.
#[unsafe(no_mangle)]
pub extern "C" fn page_watch(
    alloc: Global,
    deck: &[u8],
    typed: &[u8],
    given: &[GivenUnit],
    steps: u64,
    first: u64,
    further: u64,
    told: &mut [u8],
    shown: &mut Shown,
) {
    let pieces = Pieces {
        bound: steps,
        first,
        further,
    };
    watch_run(alloc, deck, typed, given, pieces, told, shown)
}

/// Lists a deck, in lines of some width, with its instructions where they are wanted.
#[unsafe(no_mangle)]
pub extern "C" fn page_list(
    alloc: Global,
    deck: &[u8],
    width: u64,
    has_code: bool,
    printed: &mut [u8],
    shown: &mut Shown,
) {
    hand_list(alloc, deck, width, has_code, printed, shown)
}
