//! Tests of units, of keyword values, and of whole calls on units in memory, of which a call fails in some; and of older
//! modules.
#![tactic(auto)]

#[cfg(test)]
mod failing;
#[cfg(test)]
mod files;
#[cfg(test)]
mod keyword_values;
#[cfg(test)]
mod older;
#[cfg(test)]
mod records;
#[cfg(test)]
mod runs;
#[cfg(test)]
mod streams;
