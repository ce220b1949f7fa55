//! Whole decks.

ghost use Rattle.std.specs.Prelude.{◌≡◌, map, option_map, IfOk};
ghost use Rattle.parser.specs.Heads.{head_of};

use card_reader::StatementView;
use lexer::first_name;
use model::Seq;
use std::alloc::{AllocError, Global};

/// The label that each statement gives, if all have a tree: the name that its text begins with.
pub fn labels_of<'a>(
    alloc: Global,
    statements: &[StatementView<'a>],
) -> Result<Vec<Option<&'a [u8]>>, AllocError>
    ensures { IfOk result (λ labels.
        map (option_map (λ l. l.now)) labels.items ≡ map head_of statements.now) }
{
    let mut labels = Vec::with_capacity(alloc, statements.len())?;
    for statement in statements {
        labels.push(first_name(statement.text()))?;
    }
    Ok(labels)
}

/// The card where each statement begins.
pub fn cards_of(alloc: Global, statements: &[StatementView<'_>]) -> Result<Seq<u32>, AllocError>
    ensures { IfOk result (λ cs. cs ≡ map (λ s. s.card) statements.now) }
{
    let mut cards = Vec::with_capacity(alloc, statements.len())?;
    for statement in statements {
        cards.push(statement.card())?;
    }
    Ok(Seq::from_vec(cards))
}
