//! Code of statements.

ghost use Rattle.std.specs.Prelude.{◌≡◌, ◌<◌, ◌≤◌, ◌+◌, ◌*◌, ◌^◌, None, OnOk};
ghost use Rattle.model.specs.Deck.Trees as trees;
ghost use Rattle.model.specs.Deck.TreeViews.{body_of, goto_of, stmt_of};
ghost use Rattle.model.specs.Deck.Weights as weights;
ghost use Rattle.expr_codegen.specs.Emitting.{AddsAtMost, Emits, Extends, size};
ghost use Rattle.expr_codegen.specs.Views.{gen_of};
ghost use Rattle.codegen.specs.Countable.{CountableBody, CountableGoto, CountableStmt};
ghost use Rattle.codegen.specs.Labels.{number_in};
ghost use Rattle.codegen.specs.Layout as layout;

use crate::bodies::body;
use crate::gotos::{after_failure, after_success};
use crate::labels::Labels;
use expr_codegen::Generator;
use model::{Body, Goto, Instr, Stmt};
use std::alloc::{AllocError, Global};

// Puts the code of a statement that isn't END.
fn plain(
    alloc: Global,
    g: &mut Generator<'_>,
    labels: &Labels<'_>,
    number: u32,
    b: &Body,
    goto: &Goto,
) -> Result<(), AllocError>
    requires few { number < 2 ^ 31 }
    requires body { CountableBody (body_of b.now) }
    requires goto { CountableGoto (goto_of goto.now) }
    requires room { size (gen_of g.old) + 9 * weights.of_body (body_of b.now)
        + 9 * weights.of_goto (goto_of goto.now) + 6 < 2 ^ 31 }
    ensures emits { OnOk result
        (Emits (layout.statement (number_in labels.now) number
        (trees.Plain None (body_of b.now) (goto_of goto.now))) (gen_of g.old) (gen_of g.new)) }
    ensures size { OnOk result
        (AddsAtMost (9 * weights.of_body (body_of b.now) + 9 * weights.of_goto (goto_of goto.now)
        + 6) (gen_of g.old) (gen_of g.new)) }
    ensures extends { Extends (gen_of g.old) (gen_of g.new) }
{
    let begin = g.at();
    g.put(Instr::Begin(0))?;
    body(alloc, g, b)?;
    g.put(Instr::Body)?;
    after_success(alloc, g, labels, number, goto)?;
    let failed = g.at();
    after_failure(alloc, g, labels, goto)?;
    g.set_number(begin, failed);
    Ok(())
}

/// Puts the code of a statement.
pub fn statement(
    alloc: Global,
    g: &mut Generator<'_>,
    labels: &Labels<'_>,
    number: u32,
    s: &Stmt,
) -> Result<(), AllocError>
    requires few { number < 2 ^ 31 }
    requires countable { CountableStmt (stmt_of s.now) }
    requires room { size (gen_of g.old) + 9 * weights.weight (stmt_of s.now) + 6 < 2 ^ 31 }
    ensures emits { OnOk result
        (Emits (layout.statement (number_in labels.now) number (stmt_of s.now)) (gen_of g.old)
        (gen_of g.new)) }
    ensures size { OnOk result
        (AddsAtMost (9 * weights.weight (stmt_of s.now) + 6) (gen_of g.old) (gen_of g.new)) }
    ensures extends { Extends (gen_of g.old) (gen_of g.new) }
{
    match s {
        Stmt::Plain { body, goto, .. } => plain(alloc, g, labels, number, body, goto),
        Stmt::End { .. } => g.put(Instr::End),
    }
}
