//! The system as the units of a run see it.

use crate::records::CutRecords;
use driver::UnitFile;
use std::alloc::AllocError;
use std::cell::RefCell;
use std::fs::{Files, Metadata, OpenFile, OpenOptions};
use std::io::{self, ErrorKind, Input, Print, Printer};
use std::os::unix::fs::MetadataExt;
use unit_io::UnitSystem;

/// A regular file that a unit or a standard stream has open.
#[derive(Clone, Copy, Drop)]
struct Opened {
    device: u64,
    number: u64,
    is_written: bool,
}

impl Opened {
    // `None` for what is no regular file.
    fn of(metadata: &Metadata, is_written: bool) -> Option<Opened> {
        if metadata.is_file() {
            Some(Opened {
                device: metadata.dev(),
                number: metadata.ino(),
                is_written,
            })
        } else {
            None
        }
    }

    // Whether one file is open twice, and one of the two writes it.
    fn clashes(&self, other: &Opened) -> bool {
        self.device == other.device
            && self.number == other.number
            && (self.is_written || other.is_written)
    }
}

/// A system on which a run opens files for its units. No regular file is opened that a unit or a standard stream has
/// open already, if one of them writes it; and long records are read as `CutRecords` are.
pub struct RunSystem<'a, R> {
    rt: &'a R,
    opened: RefCell<Vec<Opened>>,
}

impl<R> Drop for RunSystem<'_, R> {
    fn drop(self) {
        let RunSystem { rt: _, opened: _ } = self;
    }
}

/// The standard streams by their names in the system, the unit of each, and whether it is written while units are open.
/// What is reported on standard error comes behind the run, so a file may be read that takes it.
const STREAMS: [(&str, u8, bool); 3] = [
    ("/proc/self/fd/0", 5, false),
    ("/proc/self/fd/1", 6, true),
    ("/proc/self/fd/2", NO_UNIT, false),
];

/// No unit.
const NO_UNIT: u8 = 255;

impl<'a, R: Files + AllocGlobal> RunSystem<'a, R> {
    /// The system, for a run to which these files are given.
    pub fn new(rt: &'a R, files: &[UnitFile<'_>]) -> Result<RunSystem<'a, R>, AllocError> {
        let mut opened = Vec::new(rt.alloc());
        if !files.is_empty() {
            for (name, unit, is_written) in STREAMS {
                if files.iter().any(|file| file.unit == unit) {
                    continue;
                }
                let Ok(metadata) = rt.metadata(name) else {
                    continue;
                };
                if let Some(stream) = Opened::of(&metadata, is_written) {
                    opened.push(stream)?;
                }
            }
        }
        Ok(RunSystem {
            rt,
            opened: RefCell::new(opened),
        })
    }
}

impl<R: Files> RunSystem<'_, R> {
    // Notes a file that was opened, unless it clashes with another.
    fn note(&self, file: Opened) -> io::Result<()> {
        let Ok(mut opened) = self.opened.try_borrow_mut() else {
            return Err(io::Error::from(ErrorKind::ResourceBusy));
        };
        if opened.iter().any(|other| file.clashes(other)) {
            return Err(io::Error::from(ErrorKind::ResourceBusy));
        }
        opened.push(file)?;
        Ok(())
    }
}

impl<R: Files> RunSystem<'_, R> {
    // A file is emptied only once it is known that no other unit has it open.
    fn open_file(&self, how: &OpenOptions, path: &str) -> io::Result<R::File> {
        let mut gently = how.clone()?;
        gently.truncate(false);
        let file = self.rt.open_file(&gently, path)?;
        let is_written = how.asks_write() || how.asks_append();
        if let Some(regular) = Opened::of(&file.metadata()?, is_written) {
            self.note(regular)?;
            if how.asks_truncate() {
                file.set_len(0)?;
            }
        }
        Ok(file)
    }
}

/// It exposes nothing of what the streams and files of the system hold.
impl<'a, R: Files + Input + Print> UnitSystem for RunSystem<'a, R> {
    ghost use Rattle.std.specs.Prelude.{[], false};

    type Input = CutRecords<R::Reader>;

    type Output = Printer<'a, R>;

    type Source = CutRecords<R::File>;

    type Target = R::File;

    ghost exposes = { λ _. false };

    ghost input_bytes = { λ _. [] };

    ghost source_bytes = { λ _ _. [] };

    fn input(&self) -> CutRecords<R::Reader> {
        CutRecords::new(self.rt.reader())
    }

    fn output(&self) -> Printer<'a, R> {
        io::writer(self.rt)
    }

    fn open(&self, path: &str) -> io::Result<CutRecords<R::File>> {
        let mut how = OpenOptions::new();
        how.read(true);
        Ok(CutRecords::new(self.open_file(&how, path)?))
    }

    fn create(&self, path: &str) -> io::Result<R::File> {
        let mut how = OpenOptions::new();
        how.write(true).create(true).truncate(true);
        self.open_file(&how, path)
    }
}
