//! The laws of the meaning and of the machine. Each function does nothing; its contract states a law, and who calls it
//! may use the law.

ghost use Rattle.model.specs.Laws.Agreement.{AgreesWherePlaced, EndingStays, PrintedGrows};
ghost use Rattle.model.specs.Laws.LongerRuns.{EndedRunStays, RunPrintsOn};
ghost use Rattle.model.specs.Laws.PrintedBefore.{RunsAfter};
ghost use Rattle.model.specs.Laws.StepBound.{RunPrintsBounded, RunStepsBounded};
ghost use Rattle.model.specs.Laws.Meaning.{AnswersStay, MatchesStay, CountsStay, RulesStay};
ghost use Rattle.model.specs.Laws.Matches.{MatchRuns, MatchComes};

/// A module does what its program does, wherever the code of each statement stands.
pub fn agreement()
    ensures { AgreesWherePlaced }
{}

/// What a machine does doesn't depend on what was printed before: it adds to that.
pub fn runs_add_to_what_was_printed()
    ensures { RunsAfter }
{}

/// Where a deck's meaning ends having used r rules, a module that does what the deck does has ended so after any 5 * (r
/// + 1) steps or more.
pub fn run_steps_are_bounded()
    ensures { RunStepsBounded }
{}

/// What a deck's meaning has printed at some depth, having used r rules to that depth, a module that does what the deck
/// does has printed after any 5 * (r + 1) steps or more: also where the run never ends.
pub fn run_prints_are_bounded()
    ensures { RunPrintsBounded }
{}

/// A longer bound only adds: what a run has printed is a prefix of what it prints with a greater bound on the same inputs,
/// and a run that has ended comes to the same with any greater bound.
pub fn longer_runs_only_add()
    ensures ending { EndedRunStays }
    ensures printed { RunPrintsOn }
{}

/// While it runs, a match of the machine is the steps of its code.
pub fn matches_step()
    ensures runs { MatchRuns }
    ensures comes { MatchComes }
{}

/// Going deeper, an ending of a deck's meaning stays and what it has printed is only added to.
pub fn meaning_stays()
    ensures ending { EndingStays }
    ensures printed { PrintedGrows }
{}

/// Going deeper, what is asked for comes to the same once it has come to anything, a match among the rest.
pub fn queries_stay()
    ensures answers { AnswersStay }
    ensures matches { MatchesStay }
{}

/// Going deeper, the rules used for what has come to anything stay, and so do those of a deck whose meaning has ended.
pub fn counts_stay()
    ensures counts { CountsStay }
    ensures rules { RulesStay }
{}
