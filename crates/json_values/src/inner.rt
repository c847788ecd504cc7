// The values of a list, and the white space between them, scanned. Each function gives what it found and the place behind it by value.
ghost use Rattle.std.specs.Prelude.{◌≡◌, ◌+◌, ◌-◌, ◌*◌, ◌<◌, ◌≤◌, min, length, slice_index};
ghost use Rattle.std.specs.List.{prefix_len};
ghost use Rattle.json_lists.specs.Form.{is_white_space, after_minus, after_comma};
ghost use Rattle.json_lists.specs.InnerRuns.{Run, over_limit};
ghost use Rattle.json_values.specs.InnerValues.{DigitsAt, WholeNumber, ValueFrom, NoSpace, OtherByte};

use json_lists::inner::{MINUS, QUOTATION_MARK};
use record::inner::MAX_SIZE;

fn is_space(b: u8) -> bool
    ensures { result ≡ is_white_space b }
{
    if 0x20 < b {
        return false;
    }
    if b == 0x20 {
        return true;
    }
    if b == 0x0A {
        return true;
    }
    if b == 0x0D {
        return true;
    }
    b == 0x09
}

// How many bytes at the front are white space.
fn spaces(list: &[u8]) -> usize
    ensures { result ≡ prefix_len is_white_space list.now }
{
    list.iter().take_while(|&&b| is_space(b)).count()
}

// The place of the first byte from `at` on that is no white space, or the end.
pub fn after_spaces(list: &[u8], at: usize) -> usize
    requires { at ≤ length list.now }
    ensures { Run is_white_space list.now at result }
{
    at + spaces(&list[at..])
}

// The first number over the limit of a record's sizes.
const OVER_LIMIT: usize = MAX_SIZE + 1;

// A number with one digit more. A number over the limit is held as the first one over it: the record is refused all the same.
fn with_digit(value: usize, digit: usize) -> usize
    requires { (value ≤ over_limit) × (digit ≤ 9) }
    ensures { (result ≡ min (value * 10 + digit) over_limit) × (result ≤ over_limit) }
{
    let more = value * 10 + digit;
    if MAX_SIZE < more {
        return OVER_LIMIT;
    }
    more
}

// A number, or the first one over the limit; and the place behind its digits.
#[derive(Clone, Copy)]
pub struct Digits {
    pub value: usize,
    pub to: usize,
}

// The number whose first digit stands at `at`, and is not 0.
fn number(list: &[u8], at: usize) -> Digits
    requires { (at < length list.now) × (0x31 ≤ slice_index list.now at) × (slice_index list.now at ≤ 0x39) }
    ensures { DigitsAt list.now at result }
{
    let mut value = (list[at] - 0x30) as usize;
    for i in at + 1..list.len() {
        let b = list[i];
        if b < 0x30 {
            return Digits { value, to: i };
        }
        if 0x39 < b {
            return Digits { value, to: i };
        }
        value = with_digit(value, (b - 0x30) as usize);
    }
    Digits {
        value,
        to: list.len(),
    }
}

// The number at `at`, where a digit from 1 to 9 stands there and the list goes on behind the last.
fn whole_number(list: &[u8], at: usize) -> Option<Digits>
    requires { at ≤ length list.now }
    ensures { WholeNumber list.now at result }
{
    match *list.get(at)? {
        b'1'..=b'9' => {
            let x = number(list, at);
            if x.to < list.len() { Some(x) } else { None }
        }
        _ => None,
    }
}

// A value: a number, which retains or deletes; or a string, which inserts so many bytes and characters.
#[derive(Clone, Copy, Debug, PartialEq, Eq)]
pub enum Value {
    Retain(usize),
    Delete(usize),
    Insert { bytes: usize, chars: usize },
}

// A value that was scanned, and the place behind it.
#[derive(Clone, Copy, Debug, PartialEq, Eq)]
pub struct Found {
    pub value: Value,
    pub to: usize,
}

// The number whose minus stands before `at`.
fn negative(list: &[u8], at: usize) -> Option<Found>
    requires { at ≤ length list.now }
    ensures { ValueFrom after_minus list.now at result }
{
    let x = whole_number(list, at)?;
    Some(Found {
        value: Value::Delete(x.value),
        to: x.to,
    })
}

// The number whose first digit stands at `at`.
fn positive(list: &[u8], at: usize) -> Option<Found>
    requires { (at < length list.now) × OtherByte (slice_index list.now at) }
    ensures { ValueFrom after_comma list.now at result }
{
    let x = whole_number(list, at)?;
    Some(Found {
        value: Value::Retain(x.value),
        to: x.to,
    })
}

// The string whose first quotation mark stands at `at`.
fn quoted(list: &[u8], at: usize) -> Option<Found>
    requires { (at < length list.now) × (slice_index list.now at ≡ 0x22) }
    ensures { ValueFrom after_comma list.now at result }
{
    let s = json_escapes::inner::string(list, at + 1)?;
    Some(Found {
        value: Value::Insert {
            bytes: s.bytes,
            chars: s.chars,
        },
        to: s.to,
    })
}

// The value that stands at `at`, where no white space does.
pub fn scan_value(list: &[u8], at: usize) -> Option<Found>
    requires { (at ≤ length list.now) × NoSpace list.now at }
    ensures { ValueFrom after_comma list.now at result }
{
    match *list.get(at)? {
        QUOTATION_MARK => quoted(list, at),
        MINUS => negative(list, at + 1),
        _ => positive(list, at),
    }
}
