//! Messages of files.

use crate::faults::of_whole;
use codes::{Topic, topic_code};
use messages::Message;
use std::alloc::{AllocError, Global};
use std::io;

/// A message of a file that can't be read or written, with the system's reason, if there is one.
pub fn of_file(
    alloc: Global,
    file: &str,
    topic: Topic,
    reason: Option<&io::Error>,
) -> Result<Message, AllocError> {
    let code = topic_code(topic);
    let mut text = String::from_str(alloc, code.text)?;
    if let Some(reason) = reason {
        write!(text, ": {reason}")?;
    }
    of_whole(alloc, file, code, text)
}
