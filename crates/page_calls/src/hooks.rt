//! What the page hears of a run while it goes on.
//!
//! These calls do nothing. What `tools/wasm` builds for a browser has calls of the page in their place, which
//! look at their arguments and change nothing of the library's.

/// A record was written to a unit; its line feed isn't among the bytes.
pub fn page_wrote(unit: u8, bytes: &[u8]) {
    let _ = unit;
    let _ = bytes;
}

/// The run has made so many steps and goes on.
pub fn page_went(steps: u64) {
    let _ = steps;
}
