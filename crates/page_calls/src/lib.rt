//! What the calls of the page in a browser do: a deck is run on records that are given, or listed.
//!
//! `hand_run` runs a deck and hands over what it printed, `watch_run` runs one of which the page hears as it goes on, and
//! `hand_list` hands over a listing. What is handed over goes to memory of the page, as much as fits, with the whole
//! lengths in a `Shown`. Nothing is kept from one call to the next.
//!
//!     hand_run(alloc, b" OUTPUT = INPUT\nEND\n", b"HI\n", 1_000, &mut printed, &mut told, &mut shown);
//!
//! Promised, of `hand_run`: what is printed is what the deck means on the records, or a prefix of that, and a status of
//! 0 says that the run ended normally. Listings, messages and other statuses are tested.
#![tactic(auto)]

mod given;
mod hooks;
mod pieces;
mod putting;
mod running;
mod watched;

ghost use Rattle.page_calls.specs.Shown.{IsPage};

use crate::given::GivenUnits;
use crate::pieces::run_in_pieces;
use crate::putting::put;
use crate::running::{exit_status, run};
use deck_listing::{Style, list};
use driver::{FinalReport, Refusal, report};
pub use given::GivenUnit;
pub use hooks::{page_went, page_wrote};
use model::Status;
pub use pieces::Pieces;
use std::alloc::Global;

/// The status where nothing can be reported.
const NOTHING_TOLD: u8 = 6;

/// How a call came out.
#[repr(C)]
#[derive(Drop)]
pub struct Shown {
    /// The exit status that `sno` or `sno_list` has.
    pub status: u64,
    /// How many bytes there are to show, which may be more than fitted.
    pub printed: u64,
    /// How many bytes of messages there are.
    pub told: u64,
}

// What `sno` would write on standard error, and its exit status.
fn lines_of(alloc: Global, told: &FinalReport<'_>) -> (Vec<u8>, u8) {
    let mut lines = Vec::new(alloc);
    let status = report(told, &mut lines).unwrap_or(NOTHING_TOLD);
    (lines, status)
}

/// Compiles a deck and runs it, at most so many steps. Unit 5 has the lines of `input`; what is written to unit 6 goes to
/// `printed`, and what `sno` would write on standard error to `told`.
pub fn hand_run(
    alloc: Global,
    deck: &[u8],
    input: &[u8],
    steps: u64,
    printed: &mut [u8],
    told: &mut [u8],
    shown: &mut Shown,
)
    ensures { IsPage deck.now input.now shown.new.status shown.new.printed printed.old printed.new }
{
    match run(alloc, deck, input, steps) {
        Ok(run) => {
            let ran = run.ran;
            let (lines, status) = lines_of(alloc, &FinalReport::Ran(ran));
            shown.status = u64::from(exit_status(ran.status, status));
            shown.printed = put(&run.printed, printed);
            shown.told = put(&lines, told);
        }
        Err(refusal) => {
            let (lines, status) = lines_of(alloc, &FinalReport::Refused(refusal));
            shown.status = u64::from(exit_status(Status::Running, status));
            shown.printed = put(b"", printed);
            shown.told = put(&lines, told);
        }
    }
}

/// Compiles a deck and runs it in pieces, of which the page hears as they are made. The units are those that are given,
/// with the records of their parts of what was typed; what is written goes to the page. What `sno` would write on standard
/// error goes to `told`, and `shown.printed` has how many steps the run had made when its last piece began.
pub fn watch_run(
    alloc: Global,
    deck: &[u8],
    typed: &[u8],
    given: &[GivenUnit],
    pieces: Pieces,
    told: &mut [u8],
    shown: &mut Shown,
) {
    let outcome = match GivenUnits::new(alloc, typed, given) {
        Ok(mut units) => run_in_pieces(alloc, deck, &mut units, pieces),
        Err(_) => Err(Refusal::Memory),
    };
    let (lines, status, made) = match outcome {
        Ok(outcome) => {
            let (lines, status) = lines_of(alloc, &FinalReport::Ran(outcome.ran));
            (lines, status, outcome.made)
        }
        Err(refusal) => {
            let (lines, status) = lines_of(alloc, &FinalReport::Refused(refusal));
            (lines, status, 0)
        }
    };
    shown.status = u64::from(status);
    shown.printed = made;
    shown.told = put(&lines, told);
}

/// Lists a deck, in lines of some width, with its instructions where they are wanted.
pub fn hand_list(
    alloc: Global,
    deck: &[u8],
    width: u64,
    has_code: bool,
    printed: &mut [u8],
    shown: &mut Shown,
) {
    let mut lines = Vec::new(alloc);
    let style = Style::new(usize::try_from(width).unwrap_or(80), false);
    shown.status = match list(alloc, style, has_code, deck, &mut lines) {
        Ok(true) => 0,
        Ok(false) => 3,
        Err(_) => 6,
    };
    shown.printed = put(&lines, printed);
    shown.told = 0;
}
