// Replays the calls of a list with the answers that the Rust original gave, and prints how many agree. rust/src/bin/vectors.rs
// writes the list. Each argument names a part of it, of at most 131,072 bytes.
//
// A part is cases end to end; numbers are low byte first. A case:
//   1 byte: the call: 1 retain, 2 delete, 3 insert, 4 apply, 5 invert, 6 compose, 7 transform, 8 base_len, 9 target_len, 10 is_noop
//   1 byte: the refusal's number, or 0
//   2 bytes each: the sizes of the first and the second operand, of the first and the second output, and of what is written to them
//   the first operand: a record
//   the second: a text, a record, or the 8 bytes of the number of retain and delete
//   what is written to the first output, and to the second
// The calls 8 to 10 have no output: what would be written is the number asked for, in 2 bytes; 1 or 0 for is_noop.
#![tactic(auto)]

use call::name;
use case::Case;
use std::alloc::{AllocError, Global};
use std::fs::{File, Files};
use std::io::{BufWriter, Read, Write};
use std::{env, fmt};

mod call;
mod case;

// Of a part no more bytes are read.
const PART: u64 = 131072;

#[derive(Clone, Copy)]
struct Tally {
    cases: u64,
    differ: u64,
}

impl fmt::Display for Tally {
    fn fmt<W: fmt::Write>(&self, f: &mut fmt::Formatter<W>) -> fmt::Result {
        let agree = self.cases.saturating_sub(self.differ);
        write!(
            f,
            "{} cases: {agree} agree, {} differ",
            self.cases, self.differ
        )
    }
}

impl Tally {
    // A case more. One that differs is named.
    fn count(&mut self, to: &mut impl Write, call: u8, agrees: bool) {
        self.cases = self.cases.saturating_add(1);
        if !agrees {
            self.differ = self.differ.saturating_add(1);
            if let Some(name) = name(call) {
                let _ = write!(to, "{name:<11}");
            }
            let _ = writeln!(to, "case {} differs", self.cases);
        }
    }

    // A case that is cut off takes all that is left, and differs.
    fn replay(
        &mut self,
        to: &mut impl Write,
        alloc: Global,
        list: &[u8],
    ) -> Result<(), AllocError> {
        let mut rest = list;
        while let Some(call) = rest.first() {
            let agrees = match Case::split(rest) {
                Some((case, behind)) => {
                    rest = behind;
                    case.agrees(alloc)?
                }
                None => {
                    rest = &[];
                    false
                }
            };
            self.count(to, *call, agrees);
        }
        Ok(())
    }
}

// What a part's file has. A read that the system refuses ends it.
fn part(rt: &(impl Files + AllocGlobal), name: &str) -> std::io::Result<Vec<u8>> {
    let mut list = Vec::new(rt.alloc());
    match File::open(rt, name)?.take(PART).read_to_end(&mut list) {
        Err(e) if e.raw_os_error().is_none() => Err(e),
        _ => Ok(list),
    }
}

// What can't be written is left out. All of a part's cases are written before the next part is opened.
fn main(rt: HostRuntime) -> std::io::Result<()> {
    let alloc = rt.alloc();
    let mut to = BufWriter::new(alloc, std::io::writer(&rt))?;
    let mut tally = Tally {
        cases: 0,
        differ: 0,
    };
    for name in env::args(&rt)?.skip(1) {
        let list = part(&rt, name.as_str())?;
        tally.replay(&mut to, alloc, &list)?;
        let _ = to.flush();
    }
    let _ = writeln!(to, "{tally}");
    let _ = to.flush();
    Ok(())
}
