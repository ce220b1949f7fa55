//! Code of bodies.

ghost use Rattle.std.specs.Prelude.{◌≡◌, ◌<◌, ◌≤◌, ◌+◌, ◌*◌, ◌^◌, option_map, OnOk};
ghost use Rattle.model.specs.Language.Meaning as meaning;
ghost use Rattle.model.specs.Language.Names.{key_named};
ghost use Rattle.model.specs.Deck.Trees as trees;
ghost use Rattle.model.specs.Deck.TreeViews.{body_of, expr_of, object_of};
ghost use Rattle.model.specs.Deck.Weights as weights;
ghost use Rattle.expr_codegen.specs.Code.{with_key};
ghost use Rattle.expr_codegen.specs.Emitting.{AddsAtMost, Countable, Emits, Extends, size};
ghost use Rattle.expr_codegen.specs.Views.{gen_of};
ghost use Rattle.codegen.specs.Countable.{CountableBody, CountableObject};
ghost use Rattle.codegen.specs.Layout as layout;
ghost use Rattle.model.specs.declared.instr.Instr.{Instr};

use expr_codegen::{Generator, name, value};
use model::{Body, Expr, Instr, KeyId};
use std::alloc::{AllocError, Global};

// The keyword that is assigned, if the subject is one.
fn key_target(subject: &Expr) -> Option<&[u8]>
    ensures { option_map (λ k. k.now) result ≡ meaning.key_target (expr_of subject.now) }
{
    match subject {
        Expr::Keyword(k) => Some(k),
        _ => None,
    }
}

// Puts the code of an object, which is null where it is absent.
fn object(alloc: Global, g: &mut Generator<'_>, o: &Option<Expr>) -> Result<(), AllocError>
    requires countable { CountableObject (object_of o.now) }
    requires room { size (gen_of g.old) + 9 * weights.of_object (object_of o.now) + 1 < 2 ^ 31 }
    ensures emits { OnOk result
        (Emits (layout.object (object_of o.now)) (gen_of g.old) (gen_of g.new)) }
    ensures size { OnOk result
        (AddsAtMost (9 * weights.of_object (object_of o.now) + 1) (gen_of g.old) (gen_of g.new)) }
    ensures extends { Extends (gen_of g.old) (gen_of g.new) }
{
    match o {
        Some(e) => value(alloc, g, e),
        None => g.put(Instr::Null),
    }
}

// Puts an assignment to a keyword.
fn key_set(g: &mut Generator<'_>, name: &[u8]) -> Result<(), AllocError>
    requires { size (gen_of g.old) + 2 < 2 ^ 31 }
    ensures emits { OnOk result
        (Emits (with_key (λ k. Instr.KeySet k) (key_named name.now)) (gen_of g.old)
        (gen_of g.new)) }
    ensures size { OnOk result (AddsAtMost 2 (gen_of g.old) (gen_of g.new)) }
    ensures extends { Extends (gen_of g.old) (gen_of g.new) }
{
    if let Some(key) = KeyId::named(name) {
        g.put(Instr::KeySet(key))?;
    }
    Ok(())
}

// Puts the code of an assignment.
fn assignment(
    alloc: Global,
    g: &mut Generator<'_>,
    subject: &Expr,
    o: &Option<Expr>,
) -> Result<(), AllocError>
    requires subject { Countable (expr_of subject.now) }
    requires object { CountableObject (object_of o.now) }
    requires room { size (gen_of g.old)
        + 9 * (weights.of_expr (expr_of subject.now) + weights.of_object (object_of o.now) + 3)
        < 2 ^ 31 }
    ensures emits { OnOk result
        (Emits (layout.assignment (meaning.key_target (expr_of subject.now)) (expr_of subject.now)
        (object_of o.now)) (gen_of g.old) (gen_of g.new)) }
    ensures size { OnOk result
        (AddsAtMost (9 * (weights.of_expr (expr_of subject.now)
        + weights.of_object (object_of o.now) + 3)) (gen_of g.old) (gen_of g.new)) }
    ensures extends { Extends (gen_of g.old) (gen_of g.new) }
{
    match key_target(subject) {
        Some(key) => {
            object(alloc, g, o)?;
            key_set(g, key)
        }
        None => {
            name(alloc, g, subject)?;
            object(alloc, g, o)?;
            g.put(Instr::Assign)
        }
    }
}

// Puts the code of a replacement.
fn replacement(
    alloc: Global,
    g: &mut Generator<'_>,
    subject: &Expr,
    pattern: &Expr,
    o: &Option<Expr>,
) -> Result<(), AllocError>
    requires subject { Countable (expr_of subject.now) }
    requires pattern { Countable (expr_of pattern.now) }
    requires object { CountableObject (object_of o.now) }
    requires room { size (gen_of g.old)
        + 9 * (weights.of_expr (expr_of subject.now) + weights.of_expr (expr_of pattern.now)
        + weights.of_object (object_of o.now) + 4) < 2 ^ 31 }
    ensures emits { OnOk result
        (Emits (layout.body (trees.Replace (expr_of subject.now) (expr_of pattern.now)
        (object_of o.now))) (gen_of g.old) (gen_of g.new)) }
    ensures size { OnOk result
        (AddsAtMost (9 * (weights.of_expr (expr_of subject.now)
        + weights.of_expr (expr_of pattern.now) + weights.of_object (object_of o.now) + 4))
        (gen_of g.old) (gen_of g.new)) }
    ensures extends { Extends (gen_of g.old) (gen_of g.new) }
{
    name(alloc, g, subject)?;
    g.put(Instr::FetchK)?;
    value(alloc, g, pattern)?;
    g.put(Instr::MatchR)?;
    object(alloc, g, o)?;
    g.put(Instr::Splice)
}

/// Puts the code of a body.
pub fn body(alloc: Global, g: &mut Generator<'_>, b: &Body) -> Result<(), AllocError>
    requires countable { CountableBody (body_of b.now) }
    requires room { size (gen_of g.old) + 9 * weights.of_body (body_of b.now) < 2 ^ 31 }
    ensures emits { OnOk result
        (Emits (layout.body (body_of b.now)) (gen_of g.old) (gen_of g.new)) }
    ensures size { OnOk result
        (AddsAtMost (9 * weights.of_body (body_of b.now)) (gen_of g.old) (gen_of g.new)) }
    ensures extends { Extends (gen_of g.old) (gen_of g.new) }
{
    match b {
        Body::Nothing => Ok(()),
        Body::Evaluate(e) => {
            value(alloc, g, e)?;
            g.put(Instr::Drop)
        }
        Body::Match(e, f) => {
            value(alloc, g, e)?;
            value(alloc, g, f)?;
            g.put(Instr::Match)
        }
        Body::Assign(x, o) => assignment(alloc, g, x, o),
        Body::Replace(x, f, o) => replacement(alloc, g, x, f, o),
    }
}
