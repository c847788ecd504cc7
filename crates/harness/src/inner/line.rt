// A list of calls, one on a line: a call's name, then its operands as bytes.
ghost use Rattle.std.specs.Prelude.{◌≡◌, ◌≤◌, length, replicate, IfOk, vec_len};

use crate::inner::printer::Printer;
use std::alloc::{AllocError, Global};
use std::io::{Read, Write};

// Of a list no more bytes are read.
const LIST: u64 = 65536;

// A call's name and operands have no more bytes than these; what would come behind them is left out.
const OPERANDS: usize = 131072;

// The list that is on standard input. A read that the system refuses ends it.
pub fn input(rt: &(impl Input + AllocGlobal)) -> std::io::Result<Vec<u8>> {
    let mut list = Vec::new(rt.alloc());
    match rt.reader().take(LIST).read_to_end(&mut list) {
        Err(e) if e.raw_os_error().is_none() => Err(e),
        _ => Ok(list),
    }
}

// Each line of a list, with a call's answer behind it. What stands before the answer is written before the call.
pub fn answered<W: Write, F: FnMut(&mut Printer<W>, &Line)>(
    to: &mut Printer<W>,
    alloc: Global,
    list: &[u8],
    mut answer: F,
) -> Result<(), AllocError>
    requires { F.IsAlwaysCallable answer }
{
    for line in list.split_inclusive(|c| *c == b'\n') {
        let text = line.strip_suffix(b"\n").unwrap_or(line);
        to.write_all(text);
        if let Some(line) = Line::read(alloc, text)? {
            write!(to, " -> ");
            to.flush();
            answer(to, &line);
        }
        writeln!(to);
    }
    Ok(())
}

// No output and no other buffer of a call has more bytes.
pub const MOST: usize = 40000;

// Such a buffer before its first use.
pub fn untouched(alloc: Global, len: usize) -> Result<Vec<u8>, AllocError>
    ensures { IfOk result (λ out. out.items ≡ replicate len 0xEE) }
{
    vec![in alloc; 0xEE; len]
}

// Where the name, the first operand and the second end in a line's bytes.
#[derive(Clone, Copy)]
pub struct Parts {
    pub name: usize,
    pub first: usize,
    pub second: usize,
}

#[derive(Drop)]
pub struct Line {
    // the name and the operands, end to end
    pub bytes: Vec<u8>,
    // where the name ends, and where the first operand does, once a comma has ended it
    name: usize,
    first: Option<usize>,
    // where a group in brackets begins
    mark: usize,
    // a hexadecimal digit that waits for the second
    digit: Option<u8>,
    // the number behind `#`
    pub number: u64,
    // the sizes of the outputs, the last of them in `rooms`
    pub room: usize,
    pub rooms: usize,
}

impl Line {
    // What the line says, if it is no remark.
    fn read(alloc: Global, text: &[u8]) -> Result<Option<Line>, AllocError> {
        let end = text.iter().position(|c| matches!(c, b' ' | b';'));
        let (name, operands) = match end {
            None => (text, &[][..]),
            Some(end) if text[end] == b';' => return Ok(None),
            Some(end) => (&text[..end], &text[end + 1..]),
        };
        let mut line = Line {
            bytes: Vec::from_slice(alloc, name)?,
            name: name.len(),
            first: None,
            mark: 0,
            digit: None,
            number: 0,
            room: 0,
            rooms: 0,
        };
        let mut rest = operands;
        while let Some((c, behind)) = rest.split_first() {
            rest = line.take(*c, behind)?;
        }
        Ok(Some(line))
    }

    // The `ensures` is what taking the parts out needs.
    pub fn ends(&self) -> Parts
        ensures { (result.name ≤ result.first) × (result.first ≤ result.second)
            × (result.second ≤ vec_len self.now.bytes) }
    {
        let name = self.name;
        let second = self.bytes.len();
        let first = self.first.unwrap_or(second);
        if name <= first && first <= second {
            return Parts {
                name,
                first,
                second,
            };
        }
        Parts {
            name: 0,
            first: 0,
            second: 0,
        }
    }

    pub fn name(&self) -> &[u8] {
        let ends = self.ends();
        &self.bytes[..ends.name]
    }

    pub fn first(&self) -> &[u8] {
        let ends = self.ends();
        &self.bytes[ends.name..ends.first]
    }

    pub fn second(&self) -> &[u8] {
        let ends = self.ends();
        &self.bytes[ends.first..ends.second]
    }

    // Takes in what begins with the byte `c`, and gives what stands behind it.
    fn take<'a>(&mut self, c: u8, behind: &'a [u8]) -> Result<&'a [u8], AllocError>
        ensures { IfOk result (λ rest. length rest.now ≤ length behind.now) }
    {
        match c {
            b'[' => self.mark = self.bytes.len(),
            b',' => {
                let end = self.bytes.len();
                self.first.get_or_insert(end);
            }
            b'"' => return self.text(behind),
            b'=' | b'#' | b']' | b'>' => return self.counted(c, behind),
            _ => {
                if let Some(digit) = hex(c) {
                    self.half(digit)?;
                }
            }
        }
        Ok(behind)
    }

    // A text, up to its quotation mark.
    fn text<'a>(&mut self, behind: &'a [u8]) -> Result<&'a [u8], AllocError>
        ensures { IfOk result (λ rest. length rest.now ≤ length behind.now) }
    {
        self.digit = None;
        match behind.iter().position(|c| *c == b'"') {
            None => {
                self.put(behind)?;
                Ok(&[])
            }
            Some(end) => {
                self.put(&behind[..end])?;
                Ok(&behind[end + 1..])
            }
        }
    }

    // A number, which the sign `c` before it has a use for.
    fn counted<'a>(&mut self, c: u8, behind: &'a [u8]) -> Result<&'a [u8], AllocError>
        ensures { IfOk result (λ rest. length rest.now ≤ length behind.now) }
    {
        self.digit = None;
        let (n, rest) = number(behind);
        match c {
            b'=' => self.put(&((n % 65536) as u16).to_le_bytes())?,
            b'#' => self.number = n,
            b']' => self.repeat(n)?,
            _ => {
                self.room = self.rooms;
                self.rooms = n as usize;
            }
        }
        Ok(rest)
    }

    // Half a byte, the upper one first.
    fn half(&mut self, digit: u8) -> Result<(), AllocError> {
        let Some(upper) = self.digit.take() else {
            self.digit = Some(digit);
            return Ok(());
        };
        self.put(&[upper % 16 * 16 + digit % 16])
    }

    // The bytes from the mark on, `times` times in all; 0 times is once.
    fn repeat(&mut self, times: u64) -> Result<(), AllocError> {
        if 2 <= times && self.mark < self.bytes.len() {
            let group = self.bytes.split_off(self.mark)?;
            for _ in 0..times {
                if OPERANDS <= self.bytes.len() {
                    break;
                }
                self.put(group.as_slice())?;
            }
        }
        Ok(())
    }

    fn put(&mut self, bytes: &[u8]) -> Result<(), AllocError> {
        self.bytes.extend_from_slice(bytes)?;
        self.bytes.truncate(OPERANDS);
        Ok(())
    }
}

// The value of a hexadecimal digit.
fn hex(c: u8) -> Option<u8> {
    match c {
        b'0'..=b'9' => Some(c - b'0'),
        b'a'..=b'f' => Some(c - b'a' + 10),
        _ => None,
    }
}

// The number that begins here, 0 where there is none, and what stands behind it. A star in it is passed over.
fn number(text: &[u8]) -> (u64, &[u8])
    ensures { length result.1.now ≤ length text.now }
{
    let end = text.iter().position(|c| !matches!(c, b'0'..=b'9' | b'*'));
    let (digits, rest) = text.split_at(end.unwrap_or(text.len()));
    let mut n: u64 = 0;
    for c in digits {
        match *c {
            b'*' => (),
            _ if n < u64::MAX / 10 => n = 10 * n + u64::from(c % 16),
            _ => n = u64::MAX,
        }
    }
    (n, rest)
}
