//! What is done for each row of the table of words.

ghost use Rattle.std.specs.Prelude.{◌≡◌, [], codes, Err, IfErr, IfOk, OnOk};
ghost use Rattle.loader.specs.Answers.{IsAnswer};
ghost use Rattle.driver.specs.Compiled.{IsModuleOf, IsRefusalOf};
ghost use Rattle.driver.specs.Exits.{IsOneOf, exit_of_outcome, exits_of};
ghost use Rattle.driver.specs.Upgraded.{IsUpgradeOf};
ghost use Rattle.program.specs.Fresh.{AreFresh};
ghost use Rattle.program.specs.Runs.{HasRunDeck, HasRunModule};
ghost use Rattle.program.specs.Words.{HasDone, HasWritten, IsDeckFailure, IsFailure, IsModuleFailure, IsNotDone, IsOldFailure, IsTaken, OfBytesIn, UnlessWriting, told_of_run, told_of_work};

use crate::files::{WholeFiles, read_file, read_input, write_file};
use crate::system::RunSystem;
use driver::{
    FinalReport, Job, Ran, ShowFault, UnitFile, check_module, compile_deck, run_deck_on_files,
    run_module_on_files, show, upgrade,
};
use std::alloc::Global;
use std::fs::Files;
use std::io::{self, BufWriter, Print, Write};
use unit_io::{FileUnits, UnitSystem};

/// The system on which the units of a run open their files.
pub fn system_of<'a, R: Files + AllocGlobal>(
    rt: &'a R,
    files: &[UnitFile<'_>],
) -> Result<RunSystem<'a, R>, FinalReport<'static>>
    ensures { IfErr result (λ told. told ≡ FinalReport.NoMemory) }
{
    match RunSystem::new(rt, files) {
        Ok(system) => Ok(system),
        Err(_) => Err(FinalReport::NoMemory),
    }
}

/// Standard input and output, and the files that are given.
pub fn units_of<'a, 'f: 'a, S: UnitSystem>(
    alloc: Global,
    system: &'a S,
    files: &[UnitFile<'f>],
) -> Result<FileUnits<'a, S>, FinalReport<'static>>
    ensures fresh { IfOk result
        (AreFresh S.exposes S.input_bytes S.source_bytes system.now files.now) }
    ensures memory { IfErr result (λ told. told ≡ FinalReport.NoMemory) }
{
    let Ok(mut units) = FileUnits::new(alloc, system) else {
        return Err(FinalReport::NoMemory);
    };
    'files: for given in files {
        if units.give(given.unit, given.file).is_err() {
            return Err(FinalReport::NoMemory);
        }
    }
    Ok(units)
}

/// Runs the module that bytes spell, on the units of a system to which these files are given.
#[tactic(auto, using(crate::proofs::Failures::no_memory))]
fn run_on<S: UnitSystem>(
    alloc: Global,
    system: &S,
    bytes: &[u8],
    steps: u64,
    files: &[UnitFile<'_>],
) -> Result<Ran, FinalReport<'static>>
    ensures ran { IfOk result
        (HasRunModule S.exposes S.input_bytes S.source_bytes bytes.now steps files.now) }
    ensures refused { IfErr result
        (IsFailure (λ _. ⊥) (λ fault. IsAnswer bytes.now (Err fault)) None None) }
{
    let mut units = units_of(alloc, system, files)?;
    match run_module_on_files(alloc, bytes, &mut units, steps) {
        Ok(ran) => Ok(ran),
        Err(fault) => Err(FinalReport::BadModule(fault)),
    }
}

/// Compiles a deck and runs its module, on the units of a system to which these files are given.
#[tactic(auto, using(crate::proofs::Failures::no_memory))]
fn run_deck_on<S: UnitSystem>(
    alloc: Global,
    system: &S,
    deck: &[u8],
    steps: u64,
    files: &[UnitFile<'_>],
) -> Result<Ran, FinalReport<'static>>
    // In the deck's own words, and in bytes: the deck has no fault, and the run writes what it means.
    ensures ran { IfOk result
        (HasRunDeck S.exposes S.input_bytes S.source_bytes deck.now steps files.now) }
    ensures refused { IfErr result
        (IsFailure (IsRefusalOf deck.now) (λ _. ⊥) None None) }
{
    let mut units = units_of(alloc, system, files)?;
    match run_deck_on_files(alloc, deck, &mut units, steps) {
        Ok(ran) => Ok(ran),
        Err(refusal) => Err(FinalReport::Refused(refusal)),
    }
}

/// Runs the module that bytes spell on the units of the program.
#[tactic(auto, using(crate::proofs::Failures::no_memory))]
fn run<F: WholeFiles>(
    alloc: Global,
    whole: &F,
    bytes: &[u8],
    steps: u64,
    files: &[UnitFile<'_>],
) -> Result<Ran, FinalReport<'static>>
    ensures ran { IfOk result
        (HasRunModule F.System.exposes F.System.input_bytes F.System.source_bytes bytes.now steps files.now) }
    ensures refused { IfErr result
        (IsFailure (λ _. ⊥) (λ fault. IsAnswer bytes.now (Err fault)) None None) }
{
    let Ok(system) = whole.system(files) else {
        return Err(FinalReport::NoMemory);
    };
    run_on(alloc, &system, bytes, steps, files)
}

/// Compiles a deck and runs its module on the units of the program.
#[tactic(auto, using(crate::proofs::Failures::no_memory))]
fn compile_and_run<F: WholeFiles>(
    alloc: Global,
    whole: &F,
    deck: &[u8],
    steps: u64,
    files: &[UnitFile<'_>],
) -> Result<Ran, FinalReport<'static>>
    // A run does what its deck means; a deck that is refused is refused by exactly its faults.
    ensures ran { IfOk result
        (HasRunDeck F.System.exposes F.System.input_bytes F.System.source_bytes deck.now steps files.now) }
    ensures refused { IfErr result
        (IsFailure (IsRefusalOf deck.now) (λ _. ⊥) None None) }
{
    let Ok(system) = whole.system(files) else {
        return Err(FinalReport::NoMemory);
    };
    run_deck_on(alloc, &system, deck, steps, files)
}

#[tactic(auto, using(crate::proofs::Failures::not_read))]
fn run_input<F: WholeFiles>(
    alloc: Global,
    whole: &F,
    steps: u64,
) -> Result<Ran, FinalReport<'static>>
    ensures ran { IfOk result (λ ran. OfBytesIn (F.input_holds whole.now) (λ deck.
        HasRunDeck F.System.exposes F.System.input_bytes F.System.source_bytes deck steps [] ran)) }
    ensures failure { IfErr result
        (IsDeckFailure (F.input_holds whole.now) (Some (codes "standard input")) None) }
{
    let deck = read_input(whole)?;
    compile_and_run(alloc, whole, &deck, steps, &[])
}

#[tactic(auto, using(crate::proofs::Failures::not_read))]
fn run_deck_file<'a, F: WholeFiles>(
    alloc: Global,
    whole: &F,
    deck: &'a str,
    steps: u64,
    files: &[UnitFile<'_>],
) -> Result<Ran, FinalReport<'a>>
    ensures ran { IfOk result (λ ran. OfBytesIn (F.holds whole.now deck.now) (λ text.
        HasRunDeck F.System.exposes F.System.input_bytes F.System.source_bytes text steps files.now ran)) }
    ensures failure { IfErr result
        (IsDeckFailure (F.holds whole.now deck.now) (Some deck.now) None) }
{
    let bytes = read_file(whole, deck)?;
    compile_and_run(alloc, whole, &bytes, steps, files)
}

#[tactic(auto, using(crate::proofs::Failures::not_read, crate::proofs::Failures::untouched, crate::proofs::Failures::not_written_as, crate::proofs::Failures::writing_all))]
fn compile<'a, F: WholeFiles>(
    alloc: Global,
    whole: &mut F,
    deck: &'a str,
    file: &'a str,
) -> Result<(), FinalReport<'a>>
    // The module of the deck that the one file holds is written to the other.
    ensures written { OnOk result (OfBytesIn (F.holds whole.old deck.now) (λ text.
        HasWritten F.holds F.input_holds F.writes F.System.exposes F.System.input_bytes F.System.source_bytes
        whole.old whole.new file.now (IsModuleOf text))) }
    ensures failure { IfErr result
        (IsDeckFailure (F.holds whole.old deck.now) (Some deck.now) (Some file.now)) }
    ensures untouched { IfErr result (λ told. UnlessWriting told (whole.new ≡ whole.old)) }
{
    let text = read_file(whole, deck)?;
    match compile_deck(alloc, &text) {
        Ok(spelling) => write_file(whole, file, &spelling),
        Err(refusal) => Err(FinalReport::Refused(refusal)),
    }
}

#[tactic(auto, using(crate::proofs::Failures::not_read, crate::proofs::Failures::untouched, crate::proofs::Failures::not_written_as, crate::proofs::Failures::writing_all))]
fn upgrade_file<'a, F: WholeFiles>(
    alloc: Global,
    whole: &mut F,
    old: &'a str,
    new: &'a str,
) -> Result<(), FinalReport<'a>>
    // The module that the one file holds is written to the other in version 2.
    ensures written { OnOk result (OfBytesIn (F.holds whole.old old.now) (λ older.
        HasWritten F.holds F.input_holds F.writes F.System.exposes F.System.input_bytes F.System.source_bytes
        whole.old whole.new new.now (IsUpgradeOf older))) }
    ensures failure { IfErr result
        (IsOldFailure (F.holds whole.old old.now) (Some old.now) (Some new.now)) }
    ensures untouched { IfErr result (λ told. UnlessWriting told (whole.new ≡ whole.old)) }
{
    let bytes = read_file(whole, old)?;
    match upgrade(alloc, &bytes) {
        Ok(newer) => write_file(whole, new, &newer),
        Err(fault) => Err(FinalReport::BadModule(fault)),
    }
}

fn print_ok<R: Print>(rt: &R) -> Result<(), FinalReport<'static>>
    ensures { IfErr result
        (IsNotDone None (Some (codes "standard output"))) }
{
    match println!(rt; "ok") {
        Ok(()) => Ok(()),
        Err(_) => Err(FinalReport::CannotWrite("standard output")),
    }
}

#[tactic(auto, using(crate::proofs::Failures::not_read, crate::proofs::Failures::not_written_as))]
fn check<'a, R: Print + AllocGlobal, F: WholeFiles>(
    rt: &R,
    whole: &F,
    file: &'a str,
) -> Result<(), FinalReport<'a>>
    ensures accepted { OnOk result (OfBytesIn (F.holds whole.now file.now) IsTaken) }
    ensures failure { IfErr result (IsModuleFailure
        (F.holds whole.now file.now) (Some file.now) (Some (codes "standard output"))) }
{
    let bytes = read_file(whole, file)?;
    match check_module(rt.alloc(), &bytes) {
        Ok(()) => print_ok(rt),
        Err(fault) => Err(FinalReport::BadModule(fault)),
    }
}

#[tactic(auto, using(crate::proofs::Failures::not_read))]
fn show_module<'a, R: Print + AllocGlobal, F: WholeFiles>(
    rt: &R,
    whole: &F,
    file: &'a str,
) -> Result<(), FinalReport<'a>>
    ensures accepted { OnOk result (OfBytesIn (F.holds whole.now file.now) IsTaken) }
    ensures failure { IfErr result (IsModuleFailure
        (F.holds whole.now file.now) (Some file.now) (Some (codes "standard output"))) }
{
    let bytes = read_file(whole, file)?;
    let Ok(mut out) = BufWriter::new(rt.alloc(), io::writer(rt)) else {
        return Err(FinalReport::NoMemory);
    };
    match show(rt.alloc(), &bytes, &mut out) {
        Ok(()) => (),
        Err(ShowFault::Module(fault)) => return Err(FinalReport::BadModule(fault)),
        Err(ShowFault::Write(_)) => return Err(FinalReport::CannotWrite("standard output")),
    }
    match out.flush() {
        Ok(()) => Ok(()),
        Err(_) => Err(FinalReport::CannotWrite("standard output")),
    }
}

#[tactic(auto, using(crate::proofs::Failures::not_read))]
fn run_file<'a, F: WholeFiles>(
    alloc: Global,
    whole: &F,
    file: &'a str,
    steps: u64,
    files: &[UnitFile<'_>],
) -> Result<Ran, FinalReport<'a>>
    ensures ran { IfOk result (λ ran. OfBytesIn (F.holds whole.now file.now) (λ bytes.
        HasRunModule F.System.exposes F.System.input_bytes F.System.source_bytes bytes steps files.now ran)) }
    ensures failure { IfErr result
        (IsModuleFailure (F.holds whole.now file.now) (Some file.now) None) }
{
    let bytes = read_file(whole, file)?;
    run(alloc, whole, &bytes, steps, files)
}

/// What is reported of a job that leads to a run, or fails.
fn told_of<'a>(done: Result<Ran, FinalReport<'a>>) -> Option<FinalReport<'a>>
    ensures { result ≡ told_of_run done.entry }
{
    match done {
        Ok(ran) => Some(FinalReport::Ran(ran)),
        Err(told) => Some(told),
    }
}

/// What is reported of work that leads to no run.
fn failure_of<'a>(done: Result<(), FinalReport<'a>>) -> Option<FinalReport<'a>>
    ensures { result ≡ told_of_work done.entry }
{
    match done {
        Ok(()) => None,
        Err(told) => Some(told),
    }
}

/// Does what it is asked to do, and says what is to be reported, if anything. Its exit status is one of those that
/// docs/program.md has for the word.
pub(crate) fn perform<'a, R: Print + AllocGlobal, F: WholeFiles>(
    rt: &R,
    whole: &mut F,
    job: Job<'a>,
) -> Option<FinalReport<'a>>
    ensures exit { IsOneOf (exit_of_outcome result) (exits_of job.entry) }
    // What the word was to do is done, or the result says why it is not.
    ensures done { HasDone F.holds F.input_holds F.writes F.System.exposes F.System.input_bytes F.System.source_bytes
        job.entry whole.old whole.new result }
{
    let alloc = rt.alloc();
    match job {
        Job::CompileAndRun { steps } => told_of(run_input(alloc, whole, steps)),
        Job::Compile { deck, module } => failure_of(compile(alloc, whole, deck, module)),
        Job::Upgrade { old, new } => failure_of(upgrade_file(alloc, whole, old, new)),
        Job::Check { module } => failure_of(check(rt, whole, module)),
        Job::Show { module } => failure_of(show_module(rt, whole, module)),
        Job::Run {
            module,
            steps,
            files,
        } => told_of(run_file(alloc, whole, module, steps, &files)),
        Job::Go { deck, steps, files } => told_of(run_deck_file(alloc, whole, deck, steps, &files)),
    }
}
