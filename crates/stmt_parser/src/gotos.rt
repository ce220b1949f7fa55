//! Gotos.

ghost use Rattle.std.specs.Prelude.{◌≡◌};
ghost use Rattle.model.specs.Deck.ParseStatements as spec;
ghost use Rattle.model.specs.Deck.TreeViews.{goto_of, place_of};
ghost use Rattle.stmt_parser.specs.Views.{Reads, other_place_of};

use crate::cursor::Cursor;
use crate::expressions::element;
use crate::stop::Stop;
use model::{Goto, Mark, Place, Token, TokenKind};
use tree_drops::FreeParts;

/// `[B goto]`
#[tactic(auto, unfolding(model::specs::Deck::ParseStatements::goto))]
pub(crate) fn goto(
    free: &mut FreeParts,
    cursor: &mut Cursor<'_>,
    depth: usize,
) -> Result<Goto, Stop>
    ensures { Reads goto_of (spec.goto depth cursor.old) result cursor.new }
{
    if !cursor.eat_spaced(Mark::Colon) {
        return Ok(Goto::Next);
    }
    cursor.skip();
    exits(free, cursor, depth)
}

/// What stands after `:` and blanks.
#[tactic(auto, unfolding(model::specs::Deck::ParseStatements::exits, model::specs::Deck::Parse::bind))]
fn exits(free: &mut FreeParts, cursor: &mut Cursor<'_>, depth: usize) -> Result<Goto, Stop>
    ensures { Reads goto_of (spec.exits depth cursor.old) result cursor.new }
{
    if cursor.eat_word(b"S") {
        let mut success = in_brackets(free, cursor, depth)?;
        return match second(free, cursor, depth, b"F") {
            Ok(None) => Ok(Goto::OnSuccess(success)),
            Ok(Some(failure)) => Ok(Goto::Both(success, failure)),
            Err(stop) => {
                free.keep_place(&mut success);
                Err(stop)
            }
        };
    }
    if cursor.eat_word(b"F") {
        let mut failure = in_brackets(free, cursor, depth)?;
        return match second(free, cursor, depth, b"S") {
            Ok(None) => Ok(Goto::OnFailure(failure)),
            Ok(Some(success)) => Ok(Goto::Both(success, failure)),
            Err(stop) => {
                free.keep_place(&mut failure);
                Err(stop)
            }
        };
    }
    Ok(Goto::Always(in_brackets(free, cursor, depth)?))
}

/// The place after blanks and this word, where the word comes next.
#[tactic(auto, unfolding(model::specs::Deck::ParseStatements::second, model::specs::Deck::Parse::bind))]
fn second(
    free: &mut FreeParts,
    cursor: &mut Cursor<'_>,
    depth: usize,
    word: &[u8],
) -> Result<Option<Place>, Stop>
    ensures { Reads other_place_of (spec.second depth word.now cursor.old) result cursor.new }
{
    if !cursor.eat_word_past_blanks(word) {
        return Ok(None);
    }
    Ok(Some(in_brackets(free, cursor, depth)?))
}

/// A place in round brackets.
#[tactic(auto, unfolding(model::specs::Deck::ParseStatements::in_brackets, model::specs::Deck::Parse::bind, model::specs::Deck::Parse::expect))]
fn in_brackets(free: &mut FreeParts, cursor: &mut Cursor<'_>, depth: usize) -> Result<Place, Stop>
    ensures { Reads place_of (spec.in_brackets depth cursor.old) result cursor.new }
{
    if !cursor.eat(Mark::Open) {
        return Err(Stop::NoTree);
    }
    cursor.skip();
    let mut place = place(free, cursor, depth)?;
    cursor.skip();
    if cursor.eat(Mark::Close) {
        Ok(place)
    } else {
        free.keep_place(&mut place);
        Err(Stop::NoTree)
    }
}

/// A label, or `$` directly before an element.
#[tactic(auto, unfolding(model::specs::Deck::ParseStatements::place_parser, model::specs::Deck::Parse::bind))]
fn place(free: &mut FreeParts, cursor: &mut Cursor<'_>, depth: usize) -> Result<Place, Stop>
    ensures { Reads place_of (spec.place_parser depth cursor.old) result cursor.new }
{
    if cursor.eat(Mark::Dollar) {
        return Ok(Place::Computed(element(free, cursor, depth)?));
    }
    match cursor.take() {
        Some(
            Token {
                kind: TokenKind::Name,
                text,
                ..
            },
        ) => Ok(Place::Label(free.text(text)?)),
        _ => Err(Stop::NoTree),
    }
}
