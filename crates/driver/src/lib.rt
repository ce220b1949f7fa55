//! Whole calls: from a deck to a module, from a module to what it prints, and the words of the program `sno`.
//!
//! `run_deck(alloc, deck, units, bound)` compiles a deck and runs its module, at most `bound` steps; `compile_deck` and
//! `run_with_card` are its halves, `run_module` is the second without the card of an error, `check_module` and `show`
//! look at a module, and `upgrade` writes one of version 1 of the format anew.
//!
//!     let ran = run_deck(alloc, b" OUTPUT = 'HI'\nEND\n", &mut units, 1_000)?;
//!
//! Promised, of `run_deck`: a deck is refused by exactly its faults (`refused`). A run does what the deck means
//! (`meaning`): it ends as the deck's meaning does, with that printed, or what it printed is a prefix of what the
//! meaning prints (`sound`); a meaning that ends after r rules is reached within 5 * (r + 1) steps (`reaches`); and
//! what a meaning prints within r rules is printed within so many steps, also where neither ends (`prints`). The exit
//! status and the lines are functions of what is reported (`exit_status`, `report`). Words (`read_words`) are tested.
#![tactic(auto)]

mod compiling;
mod exits;
mod fault_lines;
mod laws;
mod on_files;
mod refusal;
mod running;
mod showing;
mod telling;
mod upgrading;
mod watching;
mod whole;
mod words;

pub use compiling::compile_deck;
pub use exits::exit_status;
pub use laws::ends_or_goes_on;
pub use on_files::{finished, run_deck_on_files, run_module_on_files};
pub use refusal::Refusal;
pub use running::{Ran, run_module, run_with_card};
pub use showing::{ShowFault, check_module, instruction_name, show};
pub use telling::{FinalReport, WriteFault, report};
pub use upgrading::upgrade;
pub use watching::watch_deck;
pub use whole::run_deck;
pub use words::{Job, UnitFile, read_words};
