//! Exit statuses.

ghost use Rattle.std.specs.Prelude.{◌≡◌};
ghost use Rattle.snobol_cli.specs.Statuses.{status_of};

use model::{Ending, Status};

/// What was asked is done.
pub(crate) const DONE: u8 = 0;

/// The words aren't in order.
pub(crate) const BAD_WORDS: u8 = 2;

/// A deck is refused.
pub(crate) const REFUSED: u8 = 3;

/// A module is refused.
pub(crate) const BAD_MODULE: u8 = 4;

/// A file or a unit failed, memory was refused, or standard error took no line.
pub(crate) const FAILED: u8 = 6;

/// The exit status of a run.
pub fn status_of(status: Status) -> u8
    ensures { result ≡ status_of status }
{
    match status {
        Status::Ended(Ending::Normal) => 0,
        Status::Ended(Ending::Error { .. }) => 1,
        Status::Ended(Ending::StLimit { .. }) | Status::Running => 5,
        Status::Stopped(_) => 6,
    }
}
