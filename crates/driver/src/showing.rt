//! What can be said of a module without running it.

ghost use Rattle.std.specs.Prelude.{◌≡◌, Err, Ok, IfErr, OnOk};
ghost use Rattle.model.specs.declared.image.Image.{Image};
ghost use Rattle.model.specs.Module.Reading.{read_image};
ghost use Rattle.loader.specs.Answers.{IsAnswer};
ghost use Rattle.loader.specs.Loaded.{IsLoaded};
ghost use Rattle.driver.specs.Shown.{OfShown};

use loader::load;
use model::{Instr, LoadFault};
use std::alloc::Global;
use std::io::{self, Write};

/// Accepts a module, or reports why it is refused.
pub fn check_module(alloc: Global, bytes: &[u8]) -> Result<(), LoadFault>
    ensures refused { IfErr result (λ fault. IsAnswer bytes.now (Err fault)) }
    ensures accepted { OnOk result ((m : Image) × (read_image bytes.now ≡ Ok m) × IsLoaded m) }
{
    let _ = load(alloc, bytes)?;
    Ok(())
}

/// Why a module was not shown.
#[derive(Drop)]
pub enum ShowFault {
    /// The module is refused.
    Module(LoadFault),
    /// A line could not be written.
    Write(io::Error),
}

impl From<io::Error> for ShowFault {
    fn from(error: io::Error) -> ShowFault {
        ShowFault::Write(error)
    }
}

/// The name of an instruction.
pub fn instruction_name(instr: Instr) -> &'static str {
    match instr {
        Instr::End => "END",
        Instr::Begin(_) => "BEGIN",
        Instr::Body => "BODY",
        Instr::Goto(_) => "GOTO",
        Instr::Return(_) => "RETURN",
        Instr::GotoV => "GOTOV",
        Instr::NoLabel => "NOLABEL",
        Instr::Str(_) => "STR",
        Instr::Int(_) => "INT",
        Instr::Null => "NULL",
        Instr::Var(_) => "VAR",
        Instr::Fetch => "FETCH",
        Instr::KeyGet(_) => "KEYGET",
        Instr::KeySet(_) => "KEYSET",
        Instr::Indir => "INDIR",
        Instr::Elem(_) => "ELEM",
        Instr::Assign => "ASSIGN",
        Instr::NameV => "NAMEV",
        Instr::Expr(_) => "EXPR",
        Instr::CallV(..) => "CALLV",
        Instr::CallN(..) => "CALLN",
        Instr::PrimV(..) => "PRIMV",
        Instr::PrimN(..) => "PRIMN",
        Instr::Drop => "DROP",
        Instr::Try(_) => "TRY",
        Instr::Untry => "UNTRY",
        Instr::Fail => "FAIL",
        Instr::Sign(_) => "SIGN",
        Instr::Arith(_) => "ARITH",
        Instr::Cat => "CAT",
        Instr::Alt => "ALT",
        Instr::Cond => "COND",
        Instr::Imm => "IMM",
        Instr::Cursor => "CURSOR",
        Instr::Pat(_) => "PAT",
        Instr::FetchK => "FETCHK",
        Instr::Match => "MATCH",
        Instr::MatchR => "MATCHR",
        Instr::Splice => "SPLICE",
        Instr::Ret => "RET",
    }
}

// The operands of an instruction; there are at most two.
fn operands(instr: Instr) -> (Option<i64>, Option<i64>) {
    match instr {
        Instr::Int(value) => (Some(value), None),
        Instr::Begin(n)
        | Instr::Goto(n)
        | Instr::Str(n)
        | Instr::Var(n)
        | Instr::Expr(n)
        | Instr::Try(n)
        | Instr::Pat(n) => (Some(i64::from(n)), None),
        Instr::Elem(n) => (Some(i64::from(n)), None),
        Instr::Return(kind) => (Some(i64::from(kind as u8)), None),
        Instr::KeyGet(key) | Instr::KeySet(key) => (Some(i64::from(key as u8)), None),
        Instr::Sign(sign) => (Some(i64::from(sign as u8)), None),
        Instr::Arith(operator) => (Some(i64::from(operator as u8)), None),
        Instr::CallV(string, count) | Instr::CallN(string, count) => {
            (Some(i64::from(string)), Some(i64::from(count)))
        }
        Instr::PrimV(prim, count) | Instr::PrimN(prim, count) => {
            (Some(i64::from(prim as u8)), Some(i64::from(count)))
        }
        _ => (None, None),
    }
}

fn show_instr<W: Write>(at: u32, instr: Instr, out: &mut W) -> io::Result<()> {
    let name = instruction_name(instr);
    match operands(instr) {
        (Some(first), Some(second)) => writeln!(out, "{at:08x} {name} {first} {second}"),
        (Some(only), None) => writeln!(out, "{at:08x} {name} {only}"),
        _ => writeln!(out, "{at:08x} {name}"),
    }
}

/// Writes a line for each instruction of a module. After a failure nothing is said of what was written.
pub fn show<W: Write>(alloc: Global, bytes: &[u8], out: &mut W) -> Result<(), ShowFault>
    ensures refused { IfErr result (OfShown bytes.now) }
    ensures accepted { OnOk result ((m : Image) × (read_image bytes.now ≡ Ok m) × IsLoaded m) }
{
    let module = match load(alloc, bytes) {
        Ok(module) => module,
        Err(fault) => return Err(ShowFault::Module(fault)),
    };
    let mut at = 0_u32;
    for place in 0..module.len() {
        let instr = module.at(place).instr;
        if let Err(error) = show_instr(at, instr, out) {
            return Err(ShowFault::Write(error));
        }
        // No code is as long as that.
        at = at.wrapping_add(instr.size());
    }
    Ok(())
}
