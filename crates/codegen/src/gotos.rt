//! Code of gotos.

ghost use Rattle.std.specs.Prelude.{◌≡◌, ◌<◌, ◌≤◌, ◌+◌, ◌*◌, ◌^◌, OnOk};
ghost use Rattle.model.specs.Language.Calls as calls;
ghost use Rattle.model.specs.Deck.TreeViews.{goto_of, place_of};
ghost use Rattle.model.specs.Deck.Weights as weights;
ghost use Rattle.expr_codegen.specs.Emitting.{AddsAtMost, Emits, Extends, size};
ghost use Rattle.expr_codegen.specs.Views.{gen_of};
ghost use Rattle.codegen.specs.Countable as countables;
ghost use Rattle.codegen.specs.Countable.{CountableGoto, CountablePlace};
ghost use Rattle.codegen.specs.Labels.{number_in};
ghost use Rattle.codegen.specs.Layout as layout;

use crate::labels::Labels;
use expr_codegen::{Generator, value};
use model::{Goto, Instr, Place, ReturnKind};
use std::alloc::{AllocError, Global};

// The instruction that goes to a label.
fn to_label(labels: &Labels<'_>, label: &[u8]) -> Instr
    ensures { result ≡ layout.goto_label (calls.return_of label.now)
        (number_in labels.now label.now) }
{
    match ReturnKind::named(label) {
        Some(kind) => Instr::Return(kind),
        None => match labels.find(label) {
            Some(number) => Instr::Goto(number),
            None => Instr::NoLabel,
        },
    }
}

/// Puts the code that goes to a place.
pub fn place(
    alloc: Global,
    g: &mut Generator<'_>,
    labels: &Labels<'_>,
    p: &Place,
) -> Result<(), AllocError>
    requires countable { CountablePlace (place_of p.now) }
    requires room { size (gen_of g.old) + 9 * weights.of_place (place_of p.now) < 2 ^ 31 }
    ensures emits { OnOk result
        (Emits (layout.place (number_in labels.now) (place_of p.now)) (gen_of g.old)
        (gen_of g.new)) }
    ensures size { OnOk result
        (AddsAtMost (9 * weights.of_place (place_of p.now)) (gen_of g.old) (gen_of g.new)) }
    ensures extends { Extends (gen_of g.old) (gen_of g.new) }
{
    match p {
        Place::Label(l) => g.put(to_label(labels, l)),
        Place::Computed(e) => {
            value(alloc, g, e)?;
            g.put(Instr::GotoV)
        }
    }
}

/// Puts the code behind a statement's body, up to where a failed statement goes on.
pub fn after_success(
    alloc: Global,
    g: &mut Generator<'_>,
    labels: &Labels<'_>,
    number: u32,
    goto: &Goto,
) -> Result<(), AllocError>
    requires few { number < 2 ^ 31 }
    requires countable { CountableGoto (goto_of goto.now) }
    requires room { size (gen_of g.old) + 9 * weights.of_goto (goto_of goto.now) < 2 ^ 31 }
    ensures emits { OnOk result
        (Emits (layout.after_success (number_in labels.now) number (goto_of goto.now))
        (gen_of g.old) (gen_of g.new)) }
    ensures size { OnOk result
        (size (gen_of g.new) + 9 * countables.of_failure (goto_of goto.now)
        ≤ size (gen_of g.old) + 9 * weights.of_goto (goto_of goto.now)) }
    ensures extends { Extends (gen_of g.old) (gen_of g.new) }
{
    match goto {
        Goto::OnSuccess(p) => place(alloc, g, labels, p),
        Goto::Both(p, _) => place(alloc, g, labels, p),
        Goto::OnFailure(_) => g.put(Instr::Goto(number + 1)),
        Goto::Next => Ok(()),
        Goto::Always(_) => Ok(()),
    }
}

/// Puts the code with which a failed statement goes on.
pub fn after_failure(
    alloc: Global,
    g: &mut Generator<'_>,
    labels: &Labels<'_>,
    goto: &Goto,
) -> Result<(), AllocError>
    requires countable { CountableGoto (goto_of goto.now) }
    requires room { size (gen_of g.old) + 9 * countables.of_failure (goto_of goto.now) < 2 ^ 31 }
    ensures emits { OnOk result
        (Emits (layout.after_failure (number_in labels.now) (goto_of goto.now)) (gen_of g.old)
        (gen_of g.new)) }
    ensures size { OnOk result
        (AddsAtMost (9 * countables.of_failure (goto_of goto.now)) (gen_of g.old) (gen_of g.new)) }
    ensures extends { Extends (gen_of g.old) (gen_of g.new) }
{
    match goto {
        Goto::Always(p) => place(alloc, g, labels, p),
        Goto::OnFailure(p) => place(alloc, g, labels, p),
        Goto::Both(_, p) => place(alloc, g, labels, p),
        Goto::Next => Ok(()),
        Goto::OnSuccess(_) => Ok(()),
    }
}
