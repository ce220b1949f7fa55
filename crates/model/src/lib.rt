//! The plain types that every layer speaks of, and the definitions (`specs/`) that contracts cite.
//!
//! `specs/` says what is meant: decks and their faults, trees, the meaning of a program (`Meaning`), images and their
//! bytes, the machine (`Machine`). `src/laws_*.rt` has the laws of these definitions, each the contract of a function
//! that does nothing; `agreement` is the main one: a program's meaning and the machine agree wherever its code is
//! placed.
//!
//!     let id = PrimId::named(b"SIZE");
//!
//! Promised: the definitions are the language's, and the laws say of them what the layers above rest on.
//! Whoever checks what is promised reads `specs/`; docs/language.md and docs/module-format.md lead to each file.
#![tactic(auto)]

mod cards;
mod causes;
mod format;
mod image;
mod instr;
mod keys;
mod laws_agreement;
mod laws_bytes;
mod laws_cards;
mod laws_decks;
mod laws_machine;
mod laws_modules;
mod laws_names;
mod laws_patterns;
mod laws_tokens;
mod laws_trees;
mod laws_values;
mod primitives;
mod run;
mod seq;
mod tokens;
mod trees;

pub use cards::{CardFault, CardRule, Deck, Statement};
pub use causes::{Cause, DeckFault, StmtFault};
pub use format::{
    FormatFault, FormatRule, LoadFault, Miss, ModuleFault, ModuleRule, ReadError, Version,
};
pub use image::{Image, Label, Level, PatInstr};
pub use instr::{ArithOp, Instr, ReturnKind, SignOp};
pub use keys::KeyId;
pub use laws_agreement::{
    agreement, counts_stay, longer_runs_only_add, matches_step, meaning_stays, queries_stay,
    run_prints_are_bounded, run_steps_are_bounded,
};
pub use laws_bytes::{read_is_spelt, spelling_rows, spelt_is_read};
pub use laws_cards::worked_decks;
pub use laws_decks::{accepted_decks_fit, decks_fit, end_is_last, first_cards_fit, trees_fit};
pub use laws_machine::{
    asked_expressions_are_there, expressions_stay_in_range, never_stuck, searches_stay_in_range,
    unreached_objects_are_unseen,
};
pub use laws_modules::{
    cards_change_no_run, faultless_is_well_formed, least_fault_is_told, worked_images,
};
pub use laws_names::{key_names, prim_names};
pub use laws_patterns::{
    answers_come_later, answers_stay, code_means_its_pattern, ends_are_permitted,
    first_end_is_found, literals_are_matched, literals_are_scanned, match_states_answer,
    match_states_lead_on, pattern_cases, pattern_steps_are_bounded, steps_stay_within,
};
pub use laws_tokens::{each_text_has_one_cut, worked_texts};
pub use laws_trees::{each_expression_is_one, each_statement_is_one, worked_faults, worked_trees};
pub use laws_values::{integers_fit, integers_read};
pub use primitives::PrimId;
pub use run::{Ending, ErrorCode, Status, Stop, UnitFault};
pub use seq::{Bytes, Seq};
pub use tokens::{Mark, Token, TokenKind};
pub use trees::{Argument, Binary, Body, Expr, Goto, Place, Program, Stmt, Unary};
