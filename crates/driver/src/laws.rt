//! The laws of runs of decks. Each function does nothing; its contract states a law, which a caller may use.

ghost use Rattle.driver.specs.InMemory.{RunsInMemory};

/// On units in memory, each open in the ways in which a deck uses it, a run ends as the deck means, or has used its bound,
/// or lacked memory: no unit stops it.
pub fn ends_or_goes_on()
    ensures { RunsInMemory }
{}
