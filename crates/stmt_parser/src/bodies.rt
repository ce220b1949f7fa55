//! What statements do: subject, pattern and object.

ghost use Rattle.std.specs.Prelude.{◌≡◌};
ghost use Rattle.model.specs.Deck.ParseStatements as spec;
ghost use Rattle.model.specs.Deck.TreeViews.{body_of, expr_of, object_of};
ghost use Rattle.stmt_parser.specs.Views.{Reads};

use crate::cursor::Cursor;
use crate::expressions::{element, whole};
use crate::stop::Stop;
use model::{Body, Expr, Mark};
use tree_drops::FreeParts;

/// `[B subject [B pattern] [B = [B object]]]`
#[tactic(auto, unfolding(model::specs::Deck::ParseStatements::body_parser, model::specs::Deck::Parse::bind))]
pub(crate) fn body(
    free: &mut FreeParts,
    cursor: &mut Cursor<'_>,
    depth: usize,
) -> Result<Body, Stop>
    ensures { Reads body_of (spec.body_parser depth cursor.old) result cursor.new }
{
    if !cursor.enter() {
        return Ok(Body::Nothing);
    }
    let subject = element(free, cursor, depth)?;
    after_subject(free, cursor, depth, subject)
}

#[tactic(auto, unfolding(model::specs::Deck::ParseStatements::after_subject, model::specs::Deck::Parse::bind))]
fn after_subject(
    free: &mut FreeParts,
    cursor: &mut Cursor<'_>,
    depth: usize,
    mut subject: Expr,
) -> Result<Body, Stop>
    ensures { Reads body_of
        (spec.after_subject depth (expr_of subject) cursor.old) result cursor.new }
{
    if cursor.eat_spaced(Mark::Equal) {
        return match object(free, cursor, depth) {
            Ok(object) => Ok(Body::Assign(subject, object)),
            Err(stop) => {
                free.keep(&mut subject);
                Err(stop)
            }
        };
    }
    if !cursor.enter() {
        return Ok(Body::Evaluate(subject));
    }
    match whole(free, cursor, depth) {
        Ok(pattern) => after_pattern(free, cursor, depth, subject, pattern),
        Err(stop) => {
            free.keep(&mut subject);
            Err(stop)
        }
    }
}

#[tactic(auto, unfolding(model::specs::Deck::ParseStatements::after_pattern, model::specs::Deck::Parse::bind))]
fn after_pattern(
    free: &mut FreeParts,
    cursor: &mut Cursor<'_>,
    depth: usize,
    mut subject: Expr,
    mut pattern: Expr,
) -> Result<Body, Stop>
    ensures { Reads body_of
        (spec.after_pattern depth (expr_of subject)
        (expr_of pattern) cursor.old) result cursor.new }
{
    if !cursor.eat_spaced(Mark::Equal) {
        return Ok(Body::Match(subject, pattern));
    }
    match object(free, cursor, depth) {
        Ok(object) => Ok(Body::Replace(subject, pattern, object)),
        Err(stop) => {
            free.keep(&mut subject);
            free.keep(&mut pattern);
            Err(stop)
        }
    }
}

/// `[B object]`
#[tactic(auto, unfolding(model::specs::Deck::ParseStatements::object_parser, model::specs::Deck::Parse::bind))]
fn object(free: &mut FreeParts, cursor: &mut Cursor<'_>, depth: usize) -> Result<Option<Expr>, Stop>
    ensures { Reads object_of (spec.object_parser depth cursor.old) result cursor.new }
{
    if !cursor.enter() {
        return Ok(None);
    }
    Ok(Some(whole(free, cursor, depth)?))
}
