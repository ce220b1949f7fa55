//! What is proved of the trees of token lists.

ghost use Rattle.model.specs.Rows.Faults.{FaultRows};
ghost use Rattle.model.specs.Laws.Trees.{OneExpr, OneTree};
ghost use Rattle.model.specs.Rows.Trees.{TreeRows};

/// A token list has at most one expression, and the parser function finds it.
pub fn each_expression_is_one()
    ensures { OneExpr }
{}

/// A token list has at most one statement, and the parser function finds it.
pub fn each_statement_is_one()
    ensures { OneTree }
{}

/// The worked cases of trees.
pub fn worked_trees()
    ensures { TreeRows }
{}

/// The worked cases of faults.
pub fn worked_faults()
    ensures { FaultRows }
{}
