//! The rules that statements keep.

ghost use Rattle.std.specs.Prelude.{◌≡◌};
ghost use Rattle.model.specs.Deck.Faults as faults;
ghost use Rattle.model.specs.Language.Names.{key_named};
ghost use Rattle.model.specs.Deck.TreeViews.{body_of, goto_of, object_of, place_of, stmt_of};
ghost use Rattle.parser.specs.Reads.{rule_if};
ghost use Rattle.parser.specs.Rules.{AreKept};

use crate::rules::{Kept, is_target, keeps};
use model::{Body, Cause, Expr, Goto, KeyId, Place, Stmt};

fn place_keeps(place: &Place) -> Kept
    ensures { AreKept result (λ test. faults.in_place test (place_of place.now)) }
{
    match place {
        Place::Label(_) => Kept::ALL,
        Place::Computed(expr) => keeps(expr),
    }
}

fn goto_keeps(goto: &Goto) -> Kept
    ensures { AreKept result (λ test. faults.in_goto test (goto_of goto.now)) }
{
    match goto {
        Goto::Next => Kept::ALL,
        Goto::Always(place) | Goto::OnSuccess(place) | Goto::OnFailure(place) => place_keeps(place),
        Goto::Both(success, failure) => place_keeps(success).and(place_keeps(failure)),
    }
}

fn object_keeps(object: &Option<Expr>) -> Kept
    ensures { AreKept result (λ test. faults.in_object test (object_of object.now)) }
{
    match object {
        None => Kept::ALL,
        Some(expr) => keeps(expr),
    }
}

fn body_keeps(body: &Body) -> Kept
    ensures { AreKept result (λ test. faults.in_body test (body_of body.now)) }
{
    match body {
        Body::Nothing => Kept::ALL,
        Body::Evaluate(subject) => keeps(subject),
        Body::Match(subject, pattern) => keeps(subject).and(keeps(pattern)),
        Body::Assign(subject, object) => keeps(subject).and(object_keeps(object)),
        Body::Replace(subject, pattern, object) => {
            keeps(subject).and(keeps(pattern).and(object_keeps(object)))
        }
    }
}

// What the expressions of a statement keep.
fn statement_keeps(statement: &Stmt) -> Kept
    ensures { AreKept result (λ test. faults.throughout test (stmt_of statement.now)) }
{
    match statement {
        Stmt::Plain { body, goto, .. } => body_keeps(body).and(goto_keeps(goto)),
        Stmt::End { .. } => Kept::ALL,
    }
}

fn may_be_assigned(name: &[u8]) -> bool
    ensures { result ≡ faults.may_be_assigned (key_named name.now) }
{
    match KeyId::named(name) {
        Some(key) => !key.is_protected(),
        None => false,
    }
}

// Whether the subject of `=` can be assigned to.
fn subject_fits(body: &Body) -> bool
    ensures { result ≡ faults.subject_fits (body_of body.now) }
{
    match body {
        Body::Assign(Expr::Keyword(name), _) => may_be_assigned(name),
        Body::Assign(subject, _) | Body::Replace(subject, _, _) => is_target(subject),
        _ => true,
    }
}

// Whether all that must be a target is one.
fn targets_fit(statement: &Stmt, kept: Kept) -> bool
    requires { AreKept kept (λ test. faults.throughout test (stmt_of statement.now)) }
    ensures { result ≡ faults.targets_fit (stmt_of statement.now) }
{
    match statement {
        Stmt::Plain { body, .. } => subject_fits(body) && kept.operands,
        Stmt::End { .. } => true,
    }
}

/// The least rule that a statement breaks, whose label is taken or isn't, but for the one that asks for the labels of
/// later ones.
pub(crate) fn rule_broken(statement: &Stmt, is_taken: bool) -> Option<Cause>
    ensures { result ≡ rule_if is_taken (stmt_of statement.now) }
{
    let kept = statement_keeps(statement);
    if is_taken {
        Some(Cause::LabelTaken)
    } else if !kept.calls {
        Some(Cause::TooManyArguments)
    } else if !kept.keywords {
        Some(Cause::UnknownKeyword)
    } else if !targets_fit(statement, kept) {
        Some(Cause::NotATarget)
    } else {
        None
    }
}
