//! A profile as lines.

use crate::profile::{Calls, OUTSIDE, Profile};
use crate::statements::Statements;
use std::alloc::{AllocError, Global};

// Numbers with so many steps each, those with the most first.
#[derive(Drop)]
struct Order {
    rows: Vec<(u64, usize)>,
}

impl Order {
    fn put(&mut self, steps: u64, number: usize) -> Result<(), AllocError> {
        self.rows.push((u64::MAX.saturating_sub(steps), number))?;
        Ok(())
    }
}

// What a part is of a whole, in percent with a decimal.
fn put_share(out: &mut String, part: u64, whole: u64) -> Result<(), AllocError> {
    let share = part.saturating_mul(1000).checked_div(whole).unwrap_or(0);
    let percent = share.checked_div(10).unwrap_or(0);
    let tenth = share.saturating_sub(percent.saturating_mul(10));
    write!(out, " {percent:>4}.{tenth}%")
}

fn put_statements(
    alloc: Global,
    profile: &Profile,
    whole: u64,
    statements: &Statements<'_>,
    out: &mut String,
) -> Result<(), AllocError> {
    let mut order = Order {
        rows: Vec::new(alloc),
    };
    for (number, counts) in profile.statements.iter().enumerate() {
        if counts.begun > 0 {
            order.put(counts.steps, number)?;
        }
    }
    order.rows.sort_unstable();
    out.push_str("     begun   failures        steps percent  statement\n")?;
    for row in order.rows.iter().copied() {
        let Some(counts) = profile.statements.get(row.1) else {
            continue;
        };
        let (steps, begun, failures) = (counts.steps, counts.begun, counts.failures);
        write!(out, "{begun:>10} {failures:>10} {steps:>12}")?;
        put_share(out, steps, whole)?;
        out.push_str("  ")?;
        let number = u32::try_from(row.1).unwrap_or(u32::MAX);
        statements.put_place(out, number)?;
        statements.put_text(out, number)?;
    }
    Ok(())
}

// Puts a line of a function, but for its name.
fn put_calls(out: &mut String, calls: Calls, whole: u64) -> Result<(), AllocError> {
    let (steps, count) = (calls.steps, calls.calls);
    write!(out, "{count:>10}            {steps:>12}")?;
    put_share(out, steps, whole)?;
    out.push_str("  ")?;
    Ok(())
}

fn put_functions(
    alloc: Global,
    profile: &Profile,
    whole: u64,
    out: &mut String,
) -> Result<(), AllocError> {
    let mut order = Order {
        rows: Vec::new(alloc),
    };
    order.put(profile.outside.steps, OUTSIDE)?;
    for (number, calls) in profile.functions.values().enumerate() {
        order.put(calls.steps, number)?;
    }
    order.rows.sort_unstable();
    out.push_str("\n     calls                   steps percent  function\n")?;
    for row in order.rows.iter().copied() {
        match profile.functions.get_index(row.1) {
            Some((name, calls)) => {
                put_calls(out, *calls, whole)?;
                for byte in name.as_slice().iter().copied() {
                    out.push(char::from(byte))?;
                }
            }
            None => {
                put_calls(out, profile.outside, whole)?;
                out.push_str("outside of functions")?;
            }
        }
        out.push('\n')?;
    }
    Ok(())
}

/// Puts a profile as lines: of the statements, by steps falling, and of the functions.
pub fn put_profile(
    alloc: Global,
    profile: &Profile,
    statements: &Statements<'_>,
    out: &mut String,
) -> Result<(), AllocError> {
    let mut whole: u64 = 0;
    for counts in profile.statements.iter() {
        whole = whole.saturating_add(counts.steps);
    }
    put_statements(alloc, profile, whole, statements, out)?;
    if !profile.functions.is_empty() {
        put_functions(alloc, profile, whole, out)?;
    }
    Ok(())
}
