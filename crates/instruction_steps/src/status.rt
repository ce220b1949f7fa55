//! Why a machine makes no further step.

ghost use Rattle.std.specs.Prelude.{◌≡◌};
ghost use Rattle.instruction_steps.specs.Stopped.{status_of};

use model::{Ending, Status, Stop};
use std::alloc::AllocError;
use values::Fault;

/// Why no further step is made.
#[derive(Clone, Copy)]
pub enum Halt {
    /// The run ended.
    Ended(Ending),
    /// A unit or want of memory stopped it.
    Stopped(Stop),
}

/// Why a run doesn't go on in the code that it is in. It is small, since each instruction may give it.
#[derive(Clone, Copy)]
pub enum Exit {
    /// END was reached.
    End,
    /// `&STLIMIT` statements were begun. The number of the one that would have begun.
    Limit(u32),
    /// An error in the statement that runs, or a stop.
    Fault(Fault),
    /// A failure that no handler of this code catches.
    Failure,
}

const _: () = prove!(size_of::<Exit>() <= 8);

impl From<AllocError> for Exit {
    ghost use Rattle.instruction_steps.specs.declared.status.Exit.TheVariants as exit;
    ghost use Rattle.values.specs.declared.fault.Fault.TheVariants as fault;
    ghost use Rattle.model.specs.declared.run.Stop.TheVariants.{NoMemory};

    ghost from_gives = { λ _ x. x ≡ exit.Fault (fault.Stop NoMemory) };

    fn from(_refused: AllocError) -> Exit {
        Exit::Fault(Fault::Stop(Stop::NoMemory))
    }
}

impl From<Stop> for Halt {
    ghost use Rattle.instruction_steps.specs.declared.status.Halt.TheVariants.{Stopped};

    ghost from_gives = { λ stop halt. halt ≡ Stopped stop };

    fn from(stop: Stop) -> Halt {
        Halt::Stopped(stop)
    }
}

impl From<AllocError> for Halt {
    ghost use Rattle.instruction_steps.specs.declared.status.Halt.TheVariants.{Stopped};
    ghost use Rattle.model.specs.declared.run.Stop.TheVariants.{NoMemory};

    ghost from_gives = { λ _ halt. halt ≡ Stopped NoMemory };

    fn from(_refused: AllocError) -> Halt {
        Halt::Stopped(Stop::NoMemory)
    }
}

impl Halt {
    /// The status of a run that halted so.
    pub fn status(self) -> Status
        ensures { result ≡ status_of self }
    {
        match self {
            Halt::Ended(ending) => Status::Ended(ending),
            Halt::Stopped(stop) => Status::Stopped(stop),
        }
    }
}
