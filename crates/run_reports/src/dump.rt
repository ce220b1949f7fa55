//! What a run holds when it is over.

use crate::dump_values::{put_name, put_value};
use crate::objects::{put_marked, reached};
use statement_machine::{Clock, Watch, WatchRun};
use std::alloc::{AllocError, Global};
use strings::Text;
use values::Value;
use world::World;

/// The variables that hold patterns at first.
const PATTERNS: [&[u8]; 7] = [
    b"ARB", b"BAL", b"REM", b"FAIL", b"SUCCEED", b"ABORT", b"FENCE",
];

/// What a run held when it was over: its variables by name, and the arrays, tables and records that they lead to.
#[derive(Drop)]
pub struct Dump {
    alloc: Global,
    lines: String,
    is_lost: bool,
}

// Whether a variable is as it is at first.
fn is_first(name: &Text, value: &Value) -> bool {
    match value {
        Value::Pattern(_) => PATTERNS
            .iter()
            .copied()
            .any(|first| first == name.as_slice()),
        _ => value.is_null(),
    }
}

// The names of the variables that aren't as they are at first, and their slots, by name.
fn names_of<'a>(alloc: Global, world: &'a World) -> Result<Vec<(&'a [u8], usize)>, AllocError> {
    let mut names = Vec::new(alloc);
    for slot in 0..usize::MAX {
        let Some((name, value)) = world.named_value(slot) else {
            break;
        };
        if !is_first(name, value) {
            names.push((name.as_slice(), slot))?;
        }
    }
    names.sort_unstable();
    Ok(names)
}

impl Dump {
    /// Nothing yet.
    pub fn new(alloc: Global) -> Dump {
        Dump {
            alloc,
            lines: String::new(alloc),
            is_lost: false,
        }
    }

    /// The lines.
    pub fn into_lines(self) -> Result<String, AllocError> {
        if self.is_lost {
            return Err(AllocError);
        }
        Ok(self.lines)
    }

    fn put(&mut self, world: &World) -> Result<(), AllocError> {
        let objects = world.objects();
        for named in names_of(self.alloc, world)?.iter().copied() {
            if let Some((name, value)) = world.named_value(named.1) {
                put_name(&mut self.lines, name)?;
                self.lines.push_str(" = ")?;
                put_value(&mut self.lines, objects, value)?;
                self.lines.push('\n')?;
            }
        }
        let marks = reached(self.alloc, world)?;
        put_marked(&mut self.lines, objects, &marks)
    }
}

impl Watch for Dump {
    fn begins(&mut self, _statement: u32, _clock: Clock, _world: &World) {}
}

impl WatchRun for Dump {
    fn calls(&mut self, _function: &Text, _steps: u64, _world: &World) {}

    fn may_return(&mut self, _steps: u64, _world: &World) {}

    fn returns(&mut self, _statement: u32, _steps: u64, _world: &World) {}

    fn ends(&mut self, _steps: u64, world: &World) {
        if self.put(world).is_err() {
            self.is_lost = true;
        }
    }
}
