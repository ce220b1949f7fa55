//! What standard output is: how wide, and whether it takes colours.

use deck_listing::Style;
use std::env::Env;
use std::fs::Files;

/// The width where nothing says it.
const USUAL: usize = 132;

/// The most bytes of a variable of the environment that says a width.
const LONGEST: usize = 32;

// The number that digits spell, if it isn't too large.
fn number(digits: &[u8]) -> Option<usize> {
    let mut number: usize = 0;
    for digit in digits.iter().copied() {
        if !digit.is_ascii_digit() {
            return None;
        }
        number = number
            .checked_mul(10)?
            .checked_add(usize::from(digit.saturating_sub(b'0')))?;
    }
    Some(number)
}

/// How many columns a line has, if the environment says it.
pub fn columns<R: Env>(rt: &R) -> Option<usize> {
    let mut buffer = [0_u8; LONGEST];
    let Ok(length) = rt.var("COLUMNS", &mut buffer) else {
        return None;
    };
    match buffer.get(..length) {
        Some(digits) if !digits.is_empty() => number(digits),
        _ => None,
    }
}

// Whether standard output is a terminal, by its name in the system.
fn is_terminal<R: Files + AllocGlobal>(rt: &R) -> bool {
    match rt.read_link(rt.alloc(), "/proc/self/fd/1") {
        Ok(path) => path.starts_with("/dev/pts") || path.starts_with("/dev/tty"),
        Err(_) => false,
    }
}

// Whether the environment asks for no colours.
fn wants_none<R: Env>(rt: &R) -> bool {
    let mut buffer = [0_u8; LONGEST];
    match rt.var("NO_COLOR", &mut buffer) {
        Ok(length) => length > 0,
        Err(_) => false,
    }
}

/// How lines are written on standard output.
pub fn output_style<R: Env + Files + AllocGlobal>(rt: &R) -> Style {
    Style::new(
        columns(rt).unwrap_or(USUAL),
        is_terminal(rt) && !wants_none(rt),
    )
}
