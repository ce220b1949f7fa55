//! The laws of patterns. Each function does nothing; its contract states a law, and who calls it may use the law.

ghost use Rattle.model.specs.Laws.Patterns.{EndsGrow, SearchStays, ScanStays, EndsPermitted, StepsOfScan};
ghost use Rattle.model.specs.Laws.Patterns.{ScanOfSteps, ScanOfFirst, FirstOfScan, AnswersComeLater};
ghost use Rattle.model.specs.Laws.Patterns.{StepsAreSound, LiteralsScanned, LiteralScansRight, LiteralsRun};
ghost use Rattle.model.specs.Laws.Patterns.{LiteralRunsRight};
ghost use Rattle.model.specs.Laws.MatchStates.{StatesAnswerAsScan, StatesAnswerFirstEnd, StatesAnswerLiterals};
ghost use Rattle.model.specs.Laws.MatchStates.{StatesCome, StepsLeadOn, AnswersLeadOn};
ghost use Rattle.model.specs.Laws.StepBound.{PatternStepsBounded, PatternStepsOnBounded};
ghost use Rattle.model.specs.Rows.Patterns.{ScansMeetCases, StepsMeetCases, ScansMeetQuestions};
ghost use Rattle.model.specs.Rows.Patterns.{StepsMeetQuestions, NestedEnds};

/// What is answered at a bound stays at each greater one.
pub fn answers_stay()
    ensures ends { EndsGrow }
    ensures searches { SearchStays }
    ensures scans { ScanStays }
{}

/// Each end in pattern order is one that the pattern permits.
pub fn ends_are_permitted()
    ensures { EndsPermitted }
{}

/// Code that stands for a pattern comes to the events of the pattern's scan, and to no others.
pub fn code_means_its_pattern()
    ensures steps { StepsOfScan }
    ensures scans { ScanOfSteps }
{}

/// Code that stands for a pattern comes to each event of its scan within three pattern steps, since the match's start,
/// for each rule that the scan uses under the answers given so far.
pub fn pattern_steps_are_bounded()
    ensures from_start { PatternStepsBounded }
    ensures from_there { PatternStepsOnBounded }
{}

/// The first end of a plain pattern is the result of its scan.
pub fn first_end_is_found()
    ensures scan { ScanOfFirst }
    ensures first { FirstOfScan }
{}

/// Further answers change nothing before the first question that has none.
pub fn answers_come_later()
    ensures { AnswersComeLater }
{}

/// Each step keeps cursors and starts within the subject.
pub fn steps_stay_within()
    ensures { StepsAreSound }
{}

/// A pattern of literals, `|` and blank has a scan that isn't deep, and an answer is a match exactly where some end is
/// permitted at some start that may be tried.
pub fn literals_are_scanned()
    ensures answers { LiteralsScanned }
    ensures right { LiteralScansRight }
{}

/// Code that stands for a pattern of literals, `|` and blank reaches an answer, which is a match exactly where some end
/// is permitted at some start that may be tried.
pub fn literals_are_matched()
    ensures answers { LiteralsRun }
    ensures right { LiteralRunsRight }
{}

/// At each state of a match, further steps come to the events of the pattern's scan, to its first end if it is plain,
/// and to a right answer if it is of literals, `|` and blank.
pub fn match_states_answer()
    ensures scan { StatesAnswerAsScan }
    ensures first_end { StatesAnswerFirstEnd }
    ensures literals { StatesAnswerLiterals }
    ensures comes { StatesCome }
{}

/// A state of a match stays one under further steps without an event on the way, and under further answers.
pub fn match_states_lead_on()
    ensures steps { StepsLeadOn }
    ensures answers { AnswersLeadOn }
{}

/// The worked cases: the scan of each pattern and the steps of its code give the answer that its table has.
pub fn pattern_cases()
    ensures scans { ScansMeetCases }
    ensures steps { StepsMeetCases }
    ensures scans_asked { ScansMeetQuestions }
    ensures steps_asked { StepsMeetQuestions }
    ensures nested { NestedEnds }
{}
