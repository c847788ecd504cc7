// Answers of the calls on a log, with what the log has then.
use crate::inner::printer::Printer;
use crate::inner::show::{Bytes, Refused};
use crate::inner::{show, words};
use answers::Refusal;
use session_log::inner::Scan;
use std::fmt;
use std::io::Write;

// How many revisions there are.
#[derive(Clone, Copy)]
struct Revisions(u64);

impl fmt::Display for Revisions {
    fn fmt<W: fmt::Write>(&self, f: &mut fmt::Formatter<W>) -> fmt::Result {
        match self.0 {
            1 => f.write_str("1 revision"),
            n => write!(f, "{n} revisions"),
        }
    }
}

// A refusal with its reason.
#[derive(Clone, Copy)]
pub struct Reason(pub Refusal);

impl fmt::Display for Reason {
    fn fmt<W: fmt::Write>(&self, f: &mut fmt::Formatter<W>) -> fmt::Result {
        let reason = match self.0 {
            Refusal::Size => "a buffer is too short, or a size passes its limit",
            Refusal::Entry => "an unknown kind, a count of 0, or insert counts that don't add up",
            Refusal::Utf8 => "a text that isn't well-formed UTF-8",
            Refusal::Neighbours => {
                "two neighbours of one kind, or an insert directly behind a delete"
            }
            Refusal::Sums => "a stated base or target that isn't the sum",
            Refusal::Log => "a log that can't be read",
            Refusal::Revision => "a revision that the log doesn't have",
            Refusal::IncompatibleLengths => "two lengths that have to agree and differ",
            Refusal::Limit => "a result that would pass a limit",
            Refusal::Room => "a buffer too short for what goes into it",
            Refusal::Json => "not a JSON list of positive and negative whole numbers and strings",
        };
        write!(f, "{}: {reason}", Refused(self.0))
    }
}

// The answer, what the log has then, and the counterparts with the whole output.
pub fn accepted(
    to: &mut Printer<impl Write>,
    w: Result<(usize, usize), Refusal>,
    log: &[u8],
    out: &[u8],
) {
    match w {
        Ok((n, m)) => {
            write!(to, "{n} {m}; ");
            newest(to, log);
            write!(to, "; counterparts ");
            part(to, out, 0, m);
        }
        Err(x) => {
            write!(to, "{}; {}", Refused(x), Revisions(words::count(log)));
        }
    }
    write!(to, "; output {}", Bytes(out));
}

// The newest revision.
fn newest(to: &mut Printer<impl Write>, log: &[u8]) {
    let count = words::count(log);
    write!(to, "revision {count} is ");
    if 1 <= count {
        match session_log::inner::read(log, count - 1) {
            None => write!(to, "unreadable"),
            Some(s) => part(to, log, s.at, s.size),
        }
    }
}

// The records that stand there.
fn part(to: &mut Printer<impl Write>, bytes: &[u8], from: usize, end: usize) {
    match bytes.get(from..end) {
        Some(records) => words::first_and_last(to, records),
        None => (),
    }
}

pub fn relayed(to: &mut Printer<impl Write>, before: u64, log: &[u8]) {
    let count = words::count(log);
    if before <= count {
        write!(to, "{} accepted; ", count - before);
    }
    write!(to, "{}", Revisions(count));
}

pub fn opened(to: &mut Printer<impl Write>, w: Result<usize, Refusal>, log: &[u8]) {
    let revisions = Revisions(words::count(log));
    write!(to, "{}; {revisions}", show::Answer(w));
}

pub fn summed(to: &mut Printer<impl Write>, w: Result<usize, Refusal>, out: &[u8]) {
    write!(to, "{}", show::Answer(w));
    if let Ok(n) = w {
        write!(to, "; ");
        part(to, out, 0, n);
    }
    write!(to, "; output {}", Bytes(out));
}

pub fn played(to: &mut Printer<impl Write>, w: Result<usize, Refusal>, out: &[u8]) {
    write!(to, "{}", show::Answer(w));
    if let Ok(n) = w {
        write!(to, "; ");
        if let Some(text) = out.get(..n) {
            words::text(to, text);
        }
    }
}

// The contents, and the whole buffer.
pub fn log(to: &mut Printer<impl Write>, log: &[u8]) {
    match session_log::inner::read(log, 0) {
        None => write!(to, "unreadable"),
        Some(s) => contents(to, log, s),
    }
    write!(to, "; buffer {}", Bytes(log));
}

fn contents(to: &mut Printer<impl Write>, log: &[u8], s: Scan) {
    let revisions = Revisions(s.count as u64);
    write!(to, "{revisions} from length {}: ", s.start);
    part(to, log, session_log::inner::LOG_HEADER, s.size);
    if let Some(written) = log.get(..s.size) {
        write!(to, "; contents {}", Bytes(written));
    }
}
