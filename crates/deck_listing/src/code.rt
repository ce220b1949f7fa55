//! The instructions of a module under the statements of its deck.

use crate::lines::printable;
use driver::instruction_name;
use model::{ArithOp, Image, Instr, ReturnKind, SignOp};
use std::io::{self, Write};

/// How far the instructions are written: how many, and the offset of the next.
#[derive(Clone, Copy)]
pub(crate) struct Reached {
    place: usize,
    offset: u32,
}

impl Reached {
    /// None is written.
    pub(crate) fn start() -> Reached {
        Reached {
            place: 0,
            offset: 0,
        }
    }

    fn past(self, instr: Instr) -> Reached {
        Reached {
            place: self.place.saturating_add(1),
            offset: self.offset.saturating_add(instr.size()),
        }
    }
}

// A string of the module by its number, between some quotes or none.
fn string<W: Write>(image: &Image, number: u32, quote: &str, out: &mut W) -> io::Result<()> {
    let strings = image.strings.as_slice();
    write!(out, " {quote}")?;
    if let Some(bytes) = strings.get(number as usize) {
        printable(bytes.as_slice(), out)?;
    }
    write!(out, "{quote}")
}

fn return_name(kind: ReturnKind) -> &'static str {
    match kind {
        ReturnKind::Return => "RETURN",
        ReturnKind::FReturn => "FRETURN",
        ReturnKind::NReturn => "NRETURN",
    }
}

fn sign_mark(operator: SignOp) -> &'static str {
    match operator {
        SignOp::Plus => "+",
        SignOp::Minus => "-",
    }
}

fn arith_mark(operator: ArithOp) -> &'static str {
    match operator {
        ArithOp::Add => "+",
        ArithOp::Subtract => "-",
        ArithOp::Multiply => "*",
        ArithOp::Divide => "/",
        ArithOp::Power => "**",
    }
}

// The operands of calls.
fn call_operands<W: Write>(image: &Image, instr: Instr, out: &mut W) -> io::Result<()> {
    match instr {
        Instr::CallV(name, count) | Instr::CallN(name, count) => {
            string(image, name, "", out)?;
            write!(out, " {count}")
        }
        Instr::PrimV(primitive, count) | Instr::PrimN(primitive, count) => {
            write!(out, " {} {count}", primitive.name())
        }
        Instr::Elem(count) => write!(out, " {count}"),
        _ => Ok(()),
    }
}

// The operands of instructions that go on elsewhere.
fn way_operands<W: Write>(instr: Instr, out: &mut W) -> io::Result<()> {
    match instr {
        Instr::Goto(statement) => write!(out, " statement {statement}"),
        Instr::Begin(offset) | Instr::Try(offset) => write!(out, " to {offset:08x}"),
        Instr::Return(kind) => write!(out, " {}", return_name(kind)),
        _ => Ok(()),
    }
}

// The operands of instructions that give values.
fn value_operands<W: Write>(image: &Image, instr: Instr, out: &mut W) -> io::Result<()> {
    match instr {
        Instr::Str(number) => string(image, number, "'", out),
        Instr::Var(number) => string(image, number, "", out),
        Instr::Int(value) => write!(out, " {value}"),
        Instr::KeyGet(key) | Instr::KeySet(key) => write!(out, " &{}", key.name()),
        Instr::Expr(number) => write!(out, " expression {number}"),
        Instr::Pat(number) => write!(out, " pattern {number}"),
        Instr::Sign(operator) => write!(out, " {}", sign_mark(operator)),
        Instr::Arith(operator) => write!(out, " {}", arith_mark(operator)),
        _ => Ok(()),
    }
}

fn instruction<W: Write>(image: &Image, offset: u32, instr: Instr, out: &mut W) -> io::Result<()> {
    write!(
        out,
        "                {offset:08x} {}",
        instruction_name(instr)
    )?;
    call_operands(image, instr, out)?;
    way_operands(instr, out)?;
    value_operands(image, instr, out)?;
    out.write_all(b"\n")
}

/// Writes the instructions of a statement, and behind END's those of unevaluated expressions.
pub(crate) fn statement<W: Write>(
    image: &Image,
    number: u32,
    reached: Reached,
    out: &mut W,
) -> io::Result<Reached> {
    let next = image.statements.as_slice().get(number as usize).copied();
    let mut reached = reached;
    let rest = image.code.as_slice().get(reached.place..).unwrap_or(&[]);
    for instr in rest.iter().copied() {
        match next {
            Some(next) if reached.offset >= next => break,
            _ => {}
        }
        instruction(image, reached.offset, instr, out)?;
        reached = reached.past(instr);
    }
    Ok(reached)
}
