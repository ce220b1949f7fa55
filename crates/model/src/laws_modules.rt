//! Laws of well-formed modules: functions that do nothing, each with a contract that says the law.

ghost use Rattle.model.specs.Rows.Flow.{FlowRows};
ghost use Rattle.model.specs.Laws.LeastFaults.{LeastIsTold, NoneIsWellFormed, OneIsTold, WellFormedHasNone};
ghost use Rattle.model.specs.Laws.SameRuns.{SameRuns};
ghost use Rattle.model.specs.Rows.WellFormed.{PartsMeetCases};

/// Of all faults of an image the one of least offset is reported, and of these the one of least number; none is reported
/// where it has none.
pub fn least_fault_is_told()
    ensures least { LeastIsTold }
    ensures one { OneIsTold }
{}

/// The worked cases of well-formedness: the first fault of the parts of each image, and where the flow is kept or
/// broken.
pub fn worked_images()
    ensures parts { PartsMeetCases }
    ensures flow { FlowRows }
{}

/// An image is well-formed exactly if it has none of all faults.
pub fn faultless_is_well_formed()
    ensures none { WellFormedHasNone }
    ensures formed { NoneIsWellFormed }
{}

/// A module with other cards does the same in as many steps, on all inputs.
pub fn cards_change_no_run()
    ensures { SameRuns }
{}
