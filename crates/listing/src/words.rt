//! The words of the program `sno_list`.

/// What the program is asked to do.
#[derive(Clone, Copy)]
pub(crate) enum Job<'a> {
    /// List a deck, or the one on standard input.
    List {
        deck: Option<&'a str>,
        has_code: bool,
    },
    /// Explain an error of runs.
    Explain {
        error: &'a str,
    },
}

/// What the words after the program's name ask for; nothing where they are in no row of the table.
pub(crate) fn read_job<'a>(words: &[&'a str]) -> Option<Job<'a>> {
    let (deck, has_code) = match words {
        [] => (None, false),
        ["--code"] => (None, true),
        ["--error", error] => return Some(Job::Explain { error: *error }),
        ["--code", deck] | [deck, "--code"] => (Some(*deck), true),
        [deck] => (Some(*deck), false),
        _ => return None,
    };
    match deck {
        Some(deck) if deck.starts_with("--") => None,
        deck => Some(Job::List { deck, has_code }),
    }
}
