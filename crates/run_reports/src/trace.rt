//! A line for each statement that begins.

use crate::statements::Statements;
use statement_machine::{Clock, Watch, WatchRun};
use std::alloc::{AllocError, Global};
use std::io::{self, Write};
use strings::Text;
use world::World;

/// Writes a line for each statement that begins: file, card, number, level and text.
#[derive(Drop)]
pub struct Trace<'a, 's, 'o, W: Write> {
    statements: &'a Statements<'s>,
    out: &'o mut W,
    line: String,
    fault: Option<io::Error>,
}

impl<'a, 's, 'o, W: Write> Trace<'a, 's, 'o, W> {
    /// A trace that is written there.
    pub fn new(
        alloc: Global,
        statements: &'a Statements<'s>,
        out: &'o mut W,
    ) -> Trace<'a, 's, 'o, W> {
        Trace {
            statements,
            out,
            line: String::new(alloc),
            fault: None,
        }
    }

    /// Why a line was not written, if one was not. No further one was tried.
    pub fn into_fault(self) -> Option<io::Error> {
        self.fault
    }

    fn put_line(&mut self, number: u32, level: i64) -> Result<(), AllocError> {
        self.line.clear();
        self.statements.put_place(&mut self.line, number)?;
        write!(&mut self.line, " level {level}")?;
        self.statements.put_text(&mut self.line, number)
    }

    fn write_line(&mut self, number: u32, level: i64) -> io::Result<()> {
        self.put_line(number, level)?;
        self.out.write_all(self.line.as_bytes())
    }
}

impl<W: Write> Watch for Trace<'_, '_, '_, W> {
    fn begins(&mut self, statement: u32, _clock: Clock, world: &World) {
        if self.fault.is_some() {
            return;
        }
        if let Err(error) = self.write_line(statement, world.level()) {
            self.fault = Some(error);
        }
    }
}

impl<W: Write> WatchRun for Trace<'_, '_, '_, W> {
    fn calls(&mut self, _function: &Text, _steps: u64, _world: &World) {}

    fn may_return(&mut self, _steps: u64, _world: &World) {}

    fn returns(&mut self, _statement: u32, _steps: u64, _world: &World) {}

    fn ends(&mut self, _steps: u64, _world: &World) {}
}
