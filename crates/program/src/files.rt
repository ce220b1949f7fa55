//! The files that are read and written whole.

ghost use Rattle.std.specs.Prelude.{None, Some, codes, IfErr, IfOk, OnOk};
ghost use Rattle.program.specs.Words.{IsNotDone};

use crate::system::RunSystem;
use driver::{FinalReport, UnitFile};
use std::alloc::AllocError;
use std::fs::{self, Files, OpenFile, OpenOptions, Permissions};
use std::io::{self, ErrorKind, Input, Print, Read, Write};
use std::path::{Path, PathBuf};
use unit_io::UnitSystem;

/// Files that are read and written whole, by their names, and standard input; and the system on which units open theirs.
/// Contracts say by its ghost members what a word reads and writes.
pub trait WholeFiles {
    ghost use Rattle.std.specs.Prelude.{List, ℕ};

    /// The system on which the units of a run open their files.
    type System: UnitSystem + Drop;

    /// The file with this name holds these bytes.
    ghost holds: { Self → List ℕ → List ℕ → Type 0 };

    /// Standard input holds these bytes.
    ghost input_holds: { Self → List ℕ → Type 0 };

    /// From one state to the next, the file with this name got these bytes.
    ghost writes: { Self → Self → List ℕ → List ℕ → Type 0 };

    /// All of a file.
    fn read_whole(&self, name: &str) -> io::Result<Vec<u8>>
        ensures { IfOk result (λ bytes. holds self.now name.now bytes.items) };

    /// All of standard input.
    fn read_input(&self) -> io::Result<Vec<u8>>
        ensures { IfOk result (λ bytes. input_holds self.now bytes.items) };

    /// Writes a file, whose old bytes go.
    fn write_whole(&mut self, name: &str, bytes: &[u8]) -> io::Result<()>
        ensures { OnOk result (writes self.old self.new name.now bytes.now) };

    /// The system for a run to which these files are given.
    fn system(&self, files: &[UnitFile<'_>]) -> Result<Self::System, AllocError>;
}

/// The files of the system. Nothing is known of what they hold.
pub struct SystemFiles<'a, R> {
    rt: &'a R,
}

impl<R> Drop for SystemFiles<'_, R> {
    fn drop(self) {
        let SystemFiles { rt: _ } = self;
    }
}

impl<'a, R> SystemFiles<'a, R> {
    /// Those of this system.
    pub fn new(rt: &'a R) -> SystemFiles<'a, R> {
        SystemFiles { rt }
    }
}

impl<'a, R: Files + Input + Print + AllocGlobal> WholeFiles for SystemFiles<'a, R> {
    type System = RunSystem<'a, R>;

    ghost holds = { λ _ _ _. Unit {0} };

    ghost input_holds = { λ _ _. Unit {0} };

    ghost writes = { λ _ _ _ _. Unit {0} };

    fn read_whole(&self, name: &str) -> io::Result<Vec<u8>> {
        fs::read(self.rt, name)
    }

    fn read_input(&self) -> io::Result<Vec<u8>> {
        let mut bytes = Vec::new(self.rt.alloc());
        self.rt.reader().read_to_end(&mut bytes)?;
        Ok(bytes)
    }

    fn write_whole(&mut self, name: &str, bytes: &[u8]) -> io::Result<()> {
        write_whole(self.rt, name, bytes)
    }

    fn system(&self, files: &[UnitFile<'_>]) -> Result<RunSystem<'a, R>, AllocError> {
        RunSystem::new(self.rt, files)
    }
}

/// Why a file was not read.
fn not_read<'a>(error: &io::Error, file: &'a str) -> FinalReport<'a>
    ensures { IsNotDone (Some file.now) None result }
{
    match error.kind() {
        ErrorKind::OutOfMemory => FinalReport::NoMemory,
        _ => FinalReport::CannotRead(file),
    }
}

/// All of standard input.
pub(crate) fn read_input<F: WholeFiles>(files: &F) -> Result<Vec<u8>, FinalReport<'static>>
    ensures read { IfOk result (λ bytes. F.input_holds files.now bytes.items) }
    ensures err { IfErr result (IsNotDone (Some (codes "standard input")) None) }
{
    match files.read_input() {
        Ok(bytes) => Ok(bytes),
        Err(error) => Err(not_read(&error, "standard input")),
    }
}

/// All of a file.
pub(crate) fn read_file<'a, F: WholeFiles>(
    files: &F,
    file: &'a str,
) -> Result<Vec<u8>, FinalReport<'a>>
    ensures read { IfOk result (λ bytes. F.holds files.now file.now bytes.items) }
    ensures err { IfErr result (IsNotDone (Some file.now) None) }
{
    match files.read_whole(file) {
        Ok(bytes) => Ok(bytes),
        Err(error) => Err(not_read(&error, file)),
    }
}

// A new file in the folder of another, and its name. A number in the name sets it apart from those that are there.
fn file_beside<R: Files + AllocGlobal>(rt: &R, file: &str) -> io::Result<(R::File, PathBuf)> {
    let mut how = OpenOptions::new();
    how.write(true).create_new(true);
    for number in 0..u64::MAX {
        let name = format!(in rt.alloc(); ".sno-{number}")?;
        let path = Path::new(file).with_file_name(rt.alloc(), &name)?;
        match how.open(rt, &path) {
            Ok(made) => return Ok((made, path)),
            Err(error) => {
                if error.kind() != ErrorKind::AlreadyExists {
                    return Err(error);
                }
            }
        }
    }
    Err(io::Error::from(ErrorKind::AlreadyExists))
}

fn fill<F: Write + OpenFile>(
    made: &mut F,
    bytes: &[u8],
    permissions: Option<Permissions>,
) -> io::Result<()> {
    made.write_all(bytes)?;
    match permissions {
        Some(permissions) => made.set_permissions(permissions),
        None => Ok(()),
    }
}

// Writes a file beside another, and only then gives it the other's name.
fn write_beside<R: Files + AllocGlobal>(
    rt: &R,
    file: &str,
    bytes: &[u8],
    permissions: Option<Permissions>,
) -> io::Result<()> {
    let (mut made, path) = file_beside(rt, file)?;
    let written = match fill(&mut made, bytes, permissions) {
        Ok(()) => fs::rename(rt, &path, file),
        Err(error) => Err(error),
    };
    if written.is_err() {
        let _ = fs::remove_file(rt, &path);
    }
    written
}

// A regular file is replaced by a new one; anything else, as a pipe, is written as it is.
fn write_over<R: Files + AllocGlobal>(
    rt: &R,
    file: &str,
    mut old: R::File,
    bytes: &[u8],
) -> io::Result<()> {
    let metadata = old.metadata()?;
    if !metadata.is_file() {
        return old.write_all(bytes);
    }
    let path = fs::canonicalize(rt, file)?;
    write_beside(rt, path.as_str(), bytes, Some(metadata.permissions()))
}

/// Writes a file, whose old bytes go. Whenever the program is ended, a regular file has all of its old bytes, or all of
/// the new.
pub fn write_whole<R: Files + AllocGlobal>(rt: &R, file: &str, bytes: &[u8]) -> io::Result<()> {
    let mut how = OpenOptions::new();
    how.write(true);
    match how.open(rt, file) {
        Ok(old) => write_over(rt, file, old, bytes),
        Err(error) => {
            if error.kind() == ErrorKind::NotFound {
                write_beside(rt, file, bytes, None)
            } else {
                Err(error)
            }
        }
    }
}

/// Writes a file so, or says what is to be reported.
pub(crate) fn write_file<'a, F: WholeFiles>(
    files: &mut F,
    file: &'a str,
    bytes: &[u8],
) -> Result<(), FinalReport<'a>>
    ensures written { OnOk result (F.writes files.old files.new file.now bytes.now) }
    ensures err { IfErr result (IsNotDone None (Some file.now)) }
{
    match files.write_whole(file, bytes) {
        Ok(()) => Ok(()),
        Err(error) => match error.kind() {
            ErrorKind::OutOfMemory => Err(FinalReport::NoMemory),
            _ => Err(FinalReport::CannotWrite(file)),
        },
    }
}
