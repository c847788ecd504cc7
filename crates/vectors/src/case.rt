// A case of the list, and whether the call answers as it says.
ghost use Rattle.std.specs.Prelude.{◌+◌, ◌≤◌, length, IfSome};

use crate::call::Call;
use answers::Refusal;
use std::alloc::{AllocError, Global};

#[derive(Clone, Copy)]
pub(crate) struct Case<'a> {
    call: u8,
    // the refusal's number, or 0
    refusal: u8,
    // the operands
    a: &'a [u8],
    b: &'a [u8],
    // the sizes of the outputs, and what is written to them
    room_x: usize,
    room_y: usize,
    x: &'a [u8],
    y: &'a [u8],
}

// The number of two bytes that stands here, and what stands behind it.
fn number(list: &[u8]) -> Option<(usize, &[u8])>
    ensures { IfSome result (λ p. length p.1.now ≤ length list.now) }
{
    let (bytes, rest) = list.split_first_chunk()?;
    Some((usize::from(u16::from_le_bytes(*bytes)), rest))
}

impl<'a> Case<'a> {
    // The case that the list begins with, if it isn't cut off, and what stands behind it.
    pub(crate) fn split(list: &'a [u8]) -> Option<(Case<'a>, &'a [u8])>
        ensures { IfSome result (λ p. length p.1.now + 2 ≤ length list.now) }
    {
        let ([call, refusal], rest) = list.split_first_chunk::<2>()?;
        let (a, rest) = number(rest)?;
        let (b, rest) = number(rest)?;
        let (room_x, rest) = number(rest)?;
        let (room_y, rest) = number(rest)?;
        let (x, rest) = number(rest)?;
        let (y, rest) = number(rest)?;
        let (a, rest) = rest.split_at_checked(a)?;
        let (b, rest) = rest.split_at_checked(b)?;
        let (x, rest) = rest.split_at_checked(x)?;
        let (y, rest) = rest.split_at_checked(y)?;
        let case = Case {
            call: *call,
            refusal: *refusal,
            a,
            b,
            room_x,
            room_y,
            x,
            y,
        };
        Some((case, rest))
    }

    // Whether the call gives what is wanted of it: its refusal or sizes, and every byte of its outputs.
    pub(crate) fn agrees(&self, alloc: Global) -> Result<bool, AllocError> {
        let Ok(call) = Call::try_from(self.call) else {
            return Ok(false);
        };
        let (a, b) = (self.a, self.b);
        match call {
            Call::Retain => self.writes(alloc, |out| builders::retain(a, long(b), out)),
            Call::Delete => self.writes(alloc, |out| builders::delete(a, long(b), out)),
            Call::Insert => self.writes(alloc, |out| builders::insert(a, b, out)),
            Call::Apply => self.writes(alloc, |out| apply::apply(a, b, out)),
            Call::Invert => self.writes(alloc, |out| invert::invert(a, b, out)),
            Call::Compose => self.writes(alloc, |out| compose::compose(a, b, out)),
            Call::Transform => self.transforms(alloc),
            Call::BaseLen => Ok(numbered(operation::base_len(a)) == self.wants(short(self.x))),
            Call::TargetLen => Ok(numbered(operation::target_len(a)) == self.wants(short(self.x))),
            Call::IsNoop => Ok(
                numbered(operation::is_noop(a).map(usize::from)) == self.wants(short(self.x)),
            ),
        }
    }

    // The answer that is wanted: the refusal's number, or this.
    fn wants<T: Drop>(&self, answer: T) -> Result<T, u8> {
        match self.refusal {
            0 => Ok(answer),
            refusal => Err(refusal),
        }
    }

    fn writes<F: FnOnce(&mut [u8]) -> Result<usize, Refusal>>(
        &self,
        alloc: Global,
        call: F,
    ) -> Result<bool, AllocError>
        requires { F.IsAlwaysCallable call }
    {
        let mut out = vec![in alloc; UNTOUCHED; self.room_x]?;
        let w = call(&mut out);
        Ok(numbered(w) == self.wants(self.x.len()) && holds(&out, self.x))
    }

    fn transforms(&self, alloc: Global) -> Result<bool, AllocError> {
        let mut x = vec![in alloc; UNTOUCHED; self.room_x]?;
        let mut y = vec![in alloc; UNTOUCHED; self.room_y]?;
        let w = transform::transform(self.a, self.b, &mut x, &mut y);
        let wanted = self.wants((self.x.len(), self.y.len()));
        Ok(numbered(w) == wanted && holds(&x, self.x) && holds(&y, self.y))
    }
}

// What an output is filled with before a call.
const UNTOUCHED: u8 = 0xEE;

// Whether the output begins with these bytes and all others are as before the call.
fn holds(out: &[u8], want: &[u8]) -> bool {
    match out.strip_prefix(want) {
        Some(rest) => rest.iter().all(|b| *b == UNTOUCHED),
        None => false,
    }
}

// The 16-bit number that these bytes begin with, or 0.
fn short(bytes: &[u8]) -> usize {
    match number(bytes) {
        Some((n, _)) => n,
        None => 0,
    }
}

// The 64-bit number that these bytes begin with; the words that they haven't are 0.
fn long(bytes: &[u8]) -> u64 {
    let words = bytes.len().min(8) / 2 * 2;
    let mut all = [0; 8];
    all[..words].copy_from_slice(&bytes[..words]);
    u64::from_le_bytes(all)
}

// An answer with its refusal's number.
fn numbered<T: Drop>(answer: Result<T, Refusal>) -> Result<T, u8> {
    answer.map_err(Refusal::number)
}
