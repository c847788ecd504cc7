// An inserted text as a string of a list: between quotation marks, escaped where it must be, eight bytes at once where none must. Each byte
// has its place in the output.
ghost use Rattle.std.specs.Prelude.{◌≡◌, ◌||◌, ◌+◌, ◌-◌, ◌≤◌, ◌<◌, eqb, length, take, drop};
ghost use Rattle.buffers.specs.Lists.{all_of};
ghost use Rattle.json_lists.specs.Grammar.{is_raw};
ghost use Rattle.json_lists.specs.Written.{hex_digit_of, escaped, escaped_all};
ghost use Rattle.json_write_text.specs.InnerPutting.{Puts, quoted};

use json_lists::inner::{BACKSLASH, QUOTATION_MARK};

// A small hexadecimal digit.
fn hex_digit(n: u8) -> u8
    requires { n < 16 }
    ensures { result ≡ hex_digit_of n }
{
    if n < 10 { 0x30 + n } else { 0x57 + n }
}

// `\u00` and two digits: the place behind them.
fn write_code(out: &mut [u8], at: usize, b: u8) -> usize
    requires { (b < 0x20) × (at + 6 ≤ length out.old) }
    ensures { Puts at (escaped b) out.old result out.new }
{
    out[at] = BACKSLASH;
    out[at + 1] = 0x75;
    out[at + 2] = 0x30;
    out[at + 3] = 0x30;
    out[at + 4] = hex_digit(b / 16);
    out[at + 5] = hex_digit(b % 16);
    at + 6
}

// Whether a backslash goes before the byte.
fn has_backslash(b: u8) -> bool
    ensures { result ≡ (eqb b 0x22 || eqb b 0x5C) }
{
    if b == QUOTATION_MARK {
        return true;
    }
    b == BACKSLASH
}

// One byte of a text, escaped where it must be: the place behind it.
fn write_byte(out: &mut [u8], at: usize, b: u8) -> usize
    requires { at + length (escaped b) ≤ length out.old }
    ensures { Puts at (escaped b) out.old result out.new }
{
    if b < 0x20 {
        return write_code(out, at, b);
    }
    if has_backslash(b) {
        out[at] = BACKSLASH;
        out[at + 1] = b;
        return at + 2;
    }
    out[at] = b;
    at + 1
}

// The bytes rec[from..to] of a text, one by one: the place behind them.
fn write_bytes(out: &mut [u8], at: usize, rec: &[u8], from: usize, to: usize) -> usize
    requires { (from ≤ to) × (to ≤ length rec.now)
        × (at + length (escaped_all (take (to - from) (drop from rec.now))) ≤ length out.old) }
    ensures { Puts at (escaped_all (take (to - from) (drop from rec.now))) out.old result out.new }
{
    let mut end = at;
    for i in from..to {
        end = write_byte(out, end, rec[i]);
    }
    end
}

// 0 where the byte stands for itself in a string.
fn special(b: u8) -> u8
    ensures { eqb result 0 ≡ is_raw b }
{
    u8::from(b < 0x20) + u8::from(b == QUOTATION_MARK) + u8::from(b == BACKSLASH)
}

// Whether eight bytes stand for themselves. It is branch-free, so that the compiler vectorises it.
fn raw_eight(rec: &[u8], at: usize) -> bool
    requires { at + 8 ≤ length rec.now }
    ensures { result ≡ all_of is_raw (take 8 (drop at rec.now)) }
{
    let a = special(rec[at]) | special(rec[at + 1]);
    let b = special(rec[at + 2]) | special(rec[at + 3]);
    let c = special(rec[at + 4]) | special(rec[at + 5]);
    let d = special(rec[at + 6]) | special(rec[at + 7]);
    (a | b) | (c | d) == 0
}

// Eight bytes of a text, at once where they stand for themselves: the place behind them.
fn write_eight(out: &mut [u8], at: usize, rec: &[u8], from: usize) -> usize
    requires { (from + 8 ≤ length rec.now) × (at + length (escaped_all (take 8 (drop from rec.now))) ≤ length out.old) }
    ensures { Puts at (escaped_all (take 8 (drop from rec.now))) out.old result out.new }
{
    if raw_eight(rec, from) {
        buffers::inner::copy_array::<8>(out, at, rec, from);
        return at + 8;
    }
    write_bytes(out, at, rec, from, from + 8)
}

// The bytes rec[from..to] of a text, by eights: the place behind them.
fn write_text(out: &mut [u8], at: usize, rec: &[u8], from: usize, to: usize) -> usize
    requires { (from ≤ to) × (to ≤ length rec.now)
        × (at + length (escaped_all (take (to - from) (drop from rec.now))) ≤ length out.old) }
    ensures { Puts at (escaped_all (take (to - from) (drop from rec.now))) out.old result out.new }
{
    let mut i = from;
    let mut end = at;
    while i + 8 <= to {
        end = write_eight(out, end, rec, i);
        i += 8;
    }
    write_bytes(out, end, rec, i, to)
}

// The bytes rec[from..to] as a string: the place behind it.
pub fn write_string(out: &mut [u8], at: usize, rec: &[u8], from: usize, to: usize) -> usize
    requires { (from ≤ to) × (to ≤ length rec.now)
        × (at + length (quoted (take (to - from) (drop from rec.now))) ≤ length out.old) }
    ensures { Puts at (quoted (take (to - from) (drop from rec.now))) out.old result out.new }
{
    out[at] = QUOTATION_MARK;
    let end = write_text(out, at + 1, rec, from, to);
    out[end] = QUOTATION_MARK;
    end + 1
}
