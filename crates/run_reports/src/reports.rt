//! All that is reported of a run.

use crate::dump::Dump;
use crate::profile::Profile;
use crate::trace::Trace;
use statement_machine::{Clock, Watch, WatchRun};
use std::io::Write;
use strings::Text;
use world::World;

/// What is reported of a run, of each kind as it is wanted.
#[derive(Drop)]
pub struct Reports<'a, 's, 'o, W: Write> {
    pub trace: Option<Trace<'a, 's, 'o, W>>,
    pub profile: Option<Profile>,
    pub dump: Option<Dump>,
}

impl<W: Write> Watch for Reports<'_, '_, '_, W> {
    #[inline(always)]
    fn begins(&mut self, statement: u32, clock: Clock, world: &World) {
        if let Some(profile) = &mut self.profile {
            profile.begins(statement, clock, world);
        }
        if let Some(trace) = &mut self.trace {
            trace.begins(statement, clock, world);
        }
    }
}

impl<W: Write> WatchRun for Reports<'_, '_, '_, W> {
    fn calls(&mut self, function: &Text, steps: u64, world: &World) {
        if let Some(profile) = &mut self.profile {
            profile.calls(function, steps, world);
        }
    }

    fn may_return(&mut self, steps: u64, world: &World) {
        if let Some(profile) = &mut self.profile {
            profile.may_return(steps, world);
        }
    }

    fn returns(&mut self, statement: u32, steps: u64, world: &World) {
        if let Some(profile) = &mut self.profile {
            profile.returns(statement, steps, world);
        }
    }

    fn ends(&mut self, steps: u64, world: &World) {
        if let Some(profile) = &mut self.profile {
            profile.ends(steps, world);
        }
        if let Some(dump) = &mut self.dump {
            dump.ends(steps, world);
        }
    }
}
