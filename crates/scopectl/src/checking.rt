//! Whether each line of a journal is accepted by the rules, and answered by them as the host was.
use scope_script::{Line, first_line, read_line};
use std::alloc::{AllocError, Global};

/// The first line of a journal that the rules refuse, or answer otherwise than the host was.
#[derive(Clone, Copy)]
pub struct Finding<'a> {
    /// Which line of the journal it is, from 1; one behind the last if a host was answered too often.
    number: u64,
    /// The line, without its end.
    line: &'a [u8],
    /// What the rules reply.
    rules: &'a [u8],
    /// What the host was answered, if that is to be compared.
    host: Option<&'a [u8]>,
}

impl Finding<'_> {
    /// What is said of it.
    ///
    /// # Errors
    /// If memory was refused.
    pub fn text(&self, alloc: Global) -> Result<String, AllocError> {
        let number = self.number;
        let line = shown(self.line);
        let rules = shown(self.rules);
        match self.host {
            Some(host) => {
                let host = shown(host);
                format!(in alloc;
                    "check: line {number}: {line}: the rules answer {rules}, the host {host}\n"
                )
            }
            None => format!(in alloc; "check: line {number}: {line}: the rules answer {rules}\n"),
        }
    }
}

/// The text of a line.
fn shown(line: &[u8]) -> &str {
    if line.is_empty() {
        return "nothing";
    }
    match str::from_utf8(line) {
        Ok(text) => text,
        Err(_) => "no text",
    }
}

/// What is found in a journal to which these are the replies, and these the answers of the host, if they are given.
pub fn first_finding<'a>(
    journal: &'a [u8],
    replies: &'a [u8],
    answers: Option<&'a [u8]>,
) -> Option<Finding<'a>> {
    let mut rules = replies;
    let mut host = answers;
    let mut number = 0u64;
    for piece in journal.split_inclusive(|byte| *byte == b'\n') {
        number = number.saturating_add(1);
        let line = unended(piece);
        if line.len() < piece.len() && matches!(read_line(line), Line::Silent) {
            continue;
        }
        let (reply, others) = told_first(rules);
        rules = others;
        let told = told_by(host);
        host = others_of(host);
        if reply.starts_with(b"refused ") || told.is_some_and(|told| told != reply) {
            return Some(Finding {
                number,
                line,
                rules: reply,
                host: told,
            });
        }
    }
    match host {
        Some([]) | None => None,
        Some(more) => Some(Finding {
            number: number.saturating_add(1),
            line: b"",
            rules: b"",
            host: Some(told_first(more).0),
        }),
    }
}

/// The line without its end.
fn unended(piece: &[u8]) -> &[u8] {
    match piece {
        [line @ .., b'\n'] => line,
        _ => piece,
    }
}

/// The first answer of the host, if answers are given.
fn told_by(host: Option<&[u8]>) -> Option<&[u8]> {
    match host {
        Some(text) => Some(told_first(text).0),
        None => None,
    }
}

/// The answers behind the first, if answers are given.
fn others_of(host: Option<&[u8]>) -> Option<&[u8]> {
    match host {
        Some(text) => Some(told_first(text).1),
        None => None,
    }
}

/// The first reply of the text, and those behind it. One without an end was cut, so it is none.
fn told_first(text: &[u8]) -> (&[u8], &[u8]) {
    match first_line(text) {
        Some(parts) => parts,
        None => (b"", text),
    }
}
