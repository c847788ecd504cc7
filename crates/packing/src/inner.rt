// The answers of the calls, as one number of 64 bits each.
ghost use Rattle.std.specs.Prelude.{◌≡◌, cond, ◌+◌, ◌^◌, T, [], ◌∷◌};
ghost use Rattle.answers.specs.Answer.{success, number, answer_of, noop_of, pair_of};
ghost use Rattle.walker.specs.Walk.{found_of};
ghost use Rattle.packing.specs.Numbers.{packed, small, step_number};

use answers::Refusal;
use walker::Op;

// 1 for true, 0 for false.
pub fn flag(b: bool) -> u64
    ensures { result ≡ cond b 1 0 }
{
    if b { 1 } else { 0 }
}

fn refusal(x: Refusal) -> u64
    ensures { result ≡ 2 ^ 63 + number x }
{
    0x8000_0000_0000_0000 + x.number() as u64
}

// A number that was asked for, or how many bytes were written.
pub fn answer(x: Result<usize, Refusal>) -> u64
    ensures { result ≡ packed (answer_of x) }
{
    match x {
        Ok(n) => n as u64,
        Err(y) => refusal(y),
    }
}

pub fn noop(x: Result<bool, Refusal>) -> u64
    ensures { result ≡ packed (noop_of x) }
{
    match x {
        Ok(b) => flag(b),
        Err(y) => refusal(y),
    }
}

pub fn pair(x: Result<(usize, usize), Refusal>) -> u64
    requires { T (small (pair_of x)) }
    ensures { result ≡ packed (pair_of x) }
{
    match x {
        Ok((m, n)) => m as u64 + 0x1_0000_0000 * (n as u64),
        Err(y) => refusal(y),
    }
}

// What a step gives, by the kind's number, whatever that is.
pub fn kind_and_count(kind: u8, count: u16) -> u64
    ensures { result ≡ step_number (success (kind ∷ count ∷ [])) }
{
    kind as u64 + 256 * (count as u64)
}

pub fn step(x: Option<Op>) -> u64
    ensures { result ≡ step_number (found_of x) }
{
    match x {
        Some(Op { kind, count }) => kind_and_count(u8::from(kind), count),
        None => 0,
    }
}
