//! The laws of numbers of unevaluated expressions, and of where the states of a run stand. Each function does nothing;
//! its contract states laws.

ghost use Rattle.model.specs.Laws.Machine.{SearchesStayIn, SuppliedStayIn, AskedAreIn};
ghost use Rattle.model.specs.Laws.Machine.{FirstWorldsAreIn, BegunAreIn, StepsStayIn, NextAskedAreIn};
ghost use Rattle.model.specs.Laws.Machine.{NoneAsked, ImagesAreIn, WellFormedAreIn, AskedAreThere};
ghost use Rattle.model.specs.Laws.Machine.{RunsAskForWhatIsThere, WellFormedAreComplete, BegunStand};
ghost use Rattle.model.specs.Laws.Machine.{StepsStand, ActsStand, InstructionsAreThere, NeedsAreThere};
ghost use Rattle.model.specs.Laws.Machine.{StandingAreNotStuck, NeverStuck};
ghost use Rattle.model.specs.Laws.Living.{SearchesLive, SuppliedLive, StepKeepsAlike, StepsKeepAlike};
ghost use Rattle.model.specs.Laws.Living.{AlikeShowTheSame, ImagesLive, ClearedAreAlike, ValuesLiveOn};
ghost use Rattle.model.specs.Laws.Living.{OperandsLiveOn, SearchesLiveOn, FramesLiveOn};
ghost use Rattle.model.specs.Laws.Living.{FitByNumber, GoOnCollected, StepsKeepCollected, CollectedAgain, CollectionsAreUnseen};

/// A search whose code, choices and answers ask only for expressions below a number asks only for such.
pub fn searches_stay_in_range()
    ensures steps { SearchesStayIn }
    ensures supplied { SuppliedStayIn }
    ensures asked { AskedAreIn }
{}

/// The machine, begun with expressions below a number, on a module that gives such alone, keeps and asks for such
/// alone.
pub fn expressions_stay_in_range()
    ensures first { FirstWorldsAreIn }
    ensures begun { BegunAreIn }
    ensures steps { StepsStayIn }
    ensures asked { NextAskedAreIn }
    ensures none { NoneAsked }
{}

/// A well-formed image gives expressions below the number of those that it has, and what a match asks for is there.
pub fn asked_expressions_are_there()
    ensures images { ImagesAreIn }
    ensures well_formed { WellFormedAreIn }
    ensures there { AskedAreThere }
    ensures runs { RunsAskForWhatIsThere }
{}

/// No run of a well-formed image comes to an instruction, a return or a match that lacks what it needs.
pub fn never_stuck()
    ensures complete { WellFormedAreComplete }
    ensures begun { BegunStand }
    ensures steps { StepsStand }
    ensures acts { ActsStand }
    ensures fetched { InstructionsAreThere }
    ensures needs { NeedsAreThere }
    ensures standing { StandingAreNotStuck }
    ensures runs { NeverStuck }
{}

/// No step can tell what stands where nothing reaches: states that are the same but for such objects go on alike and
/// show the same. So a run may give these objects back between steps.
pub fn unreached_objects_are_unseen()
    ensures searches { SearchesLive }
    ensures supplied { SuppliedLive }
    ensures step { StepKeepsAlike }
    ensures steps { StepsKeepAlike }
    ensures seen { AlikeShowTheSame }
    ensures images { ImagesLive }
    ensures cleared { ClearedAreAlike }
    ensures fit { FitByNumber }
    ensures values { ValuesLiveOn }
    ensures operands { OperandsLiveOn }
    ensures matches { SearchesLiveOn }
    ensures frames { FramesLiveOn }
    ensures on { StepsKeepCollected }
    ensures go_on { GoOnCollected }
    ensures again { CollectedAgain }
    ensures runs { CollectionsAreUnseen }
{}
