// Records in words: R, I and D with their counts and texts.
ghost use Rattle.std.specs.Prelude.{length};
ghost use Rattle.std.specs.Iterator.{at_most};

use crate::inner::printer::Printer;
use crate::inner::show::Bytes;
use std::io::Write;
use walker::{Kind, Op};

// So many operations of a record are told.
const SHOWN: usize = 8;

// The number of revisions that a log states.
pub fn count(log: &[u8]) -> u64 {
    match log {
        [low, high, ..] => u64::from(u16::from_le_bytes([*low, *high])),
        _ => 0,
    }
}

// The records that fill these bytes; what is no record goes on to the end.
#[derive(Clone, Copy)]
pub struct Records<'a>(pub &'a [u8]);

impl<'a> Iterator for Records<'a> {
    type Item = &'a [u8];

    ghost remaining = { λ s. at_most (length s.0.now) };

    fn next(&mut self) -> Option<&'a [u8]> {
        if self.0.is_empty() {
            return None;
        }
        let size = match operation::check(self.0) {
            Ok(n) if 0 < n && n < self.0.len() => n,
            _ => self.0.len(),
        };
        let (record, rest) = self.0.split_at(size);
        self.0 = rest;
        Some(record)
    }
}

// The first record and the last.
pub fn first_and_last(to: &mut Printer<impl Write>, bytes: &[u8]) {
    let mut all = Records(bytes);
    let Some(first) = all.next() else {
        write!(to, "none");
        return;
    };
    record(to, first);
    let Some(second) = all.next() else {
        return;
    };
    match all.last() {
        None => {
            write!(to, ", ");
            record(to, second);
        }
        Some(last) => {
            write!(to, ", .., ");
            record(to, last);
        }
    }
}

// At most its first eight operations.
fn record(to: &mut Printer<impl Write>, rec: &[u8]) {
    for k in 0..SHOWN {
        let Some(op) = walker::step(rec, k) else {
            if k == 0 {
                write!(to, "empty");
            }
            return;
        };
        if 0 < k {
            write!(to, " ");
        }
        named(to, op, operation::insert_text(rec, k));
    }
    if walker::step(rec, SHOWN).is_some() {
        write!(to, " ..");
    }
}

fn named(to: &mut Printer<impl Write>, op: Op, inserted: &[u8]) {
    match op.kind {
        Kind::Retain => write!(to, "R{}", op.count),
        Kind::Insert => {
            write!(to, "I");
            text(to, inserted);
        }
        Kind::Delete => write!(to, "D{}", op.count),
    }
}

// Short ones in quotes; of long ones the length and a sum.
pub fn text(to: &mut Printer<impl Write>, t: &[u8]) {
    if t.len() <= 64 {
        write!(to, "\"");
        to.write_all(t);
        write!(to, "\"");
    } else {
        write!(to, "({})", Bytes(t));
    }
}
