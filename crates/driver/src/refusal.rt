//! Why a deck is refused.

ghost use Rattle.std.specs.Prelude.{◌≡◌};
ghost use Rattle.driver.specs.declared.refusal.Refusal.TheVariants.{Memory};

use model::{CardFault, Seq, StmtFault};
use std::alloc::AllocError;

/// Why a deck is refused.
#[derive(Drop)]
pub enum Refusal {
    /// The card fault, alone.
    Card(CardFault),
    /// The faulty statements in order, at least one.
    Statements(Seq<StmtFault>),
    /// A growth of memory was refused.
    Memory,
}

impl From<AllocError> for Refusal {
    ghost from_gives = { λ _ e. e ≡ Memory };

    fn from(_e: AllocError) -> Refusal {
        Refusal::Memory
    }
}
