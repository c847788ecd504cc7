// Answers in words, as the programs print them.
ghost use Rattle.std.specs.Prelude.{◌<◌};

use answers::Refusal;
use std::fmt;
use walker::Op;

// A refusal by its number.
#[derive(Clone, Copy)]
pub struct Refused(pub Refusal);

impl fmt::Display for Refused {
    fn fmt<W: fmt::Write>(&self, f: &mut fmt::Formatter<W>) -> fmt::Result {
        write!(f, "refused {}", self.0.number())
    }
}

#[derive(Clone, Copy)]
pub struct YesOrNo(pub bool);

impl fmt::Display for YesOrNo {
    fn fmt<W: fmt::Write>(&self, f: &mut fmt::Formatter<W>) -> fmt::Result {
        f.write_str(if self.0 { "yes" } else { "no" })
    }
}

// Short ones in hexadecimal; of long ones the length and a sum.
#[derive(Clone, Copy)]
pub struct Bytes<'a>(pub &'a [u8]);

impl fmt::Display for Bytes<'_> {
    fn fmt<W: fmt::Write>(&self, f: &mut fmt::Formatter<W>) -> fmt::Result {
        match self.0.len() {
            0 => f.write_str("empty"),
            1..=64 => {
                for b in self.0 {
                    write!(f, "{b:02x}")?;
                }
                Ok(())
            }
            n => write!(f, "{n} bytes, sum {}", sum(self.0)),
        }
    }
}

// Each byte weighed by its place.
fn sum(t: &[u8]) -> u64 {
    let mut n = 0;
    for b in t {
        n = (n * 31 + u64::from(*b)) % 4294967291;
    }
    n
}

// What a call gives back: its result, or the refusal.
#[derive(Clone, Copy)]
pub struct Answer<T>(pub Result<T, Refusal>);

impl<T: fmt::Display> fmt::Display for Answer<T> {
    fn fmt<W: fmt::Write>(&self, f: &mut fmt::Formatter<W>) -> fmt::Result {
        match &self.0 {
            Ok(x) => write!(f, "{x}"),
            Err(x) => write!(f, "{}", Refused(*x)),
        }
    }
}

pub fn noop(n: Result<bool, Refusal>) -> Answer<YesOrNo> {
    Answer(n.map(YesOrNo))
}

// The sizes of two outputs.
#[derive(Clone, Copy)]
pub struct Sizes(usize, usize);

impl fmt::Display for Sizes {
    fn fmt<W: fmt::Write>(&self, f: &mut fmt::Formatter<W>) -> fmt::Result {
        write!(f, "{} {}", self.0, self.1)
    }
}

pub fn pair(w: Result<(usize, usize), Refusal>) -> Answer<Sizes> {
    Answer(w.map(|(n, m)| Sizes(n, m)))
}

// The numbers of what a step finds.
#[derive(Clone, Copy)]
pub struct Step(pub Option<Op>);

impl fmt::Display for Step {
    fn fmt<W: fmt::Write>(&self, f: &mut fmt::Formatter<W>) -> fmt::Result {
        match self.0 {
            Some(Op { kind, count }) => write!(f, "{}:{count}", u8::from(kind)),
            None => f.write_str("end"),
        }
    }
}
