// The escapes of a string, and whole strings, scanned. Each function gives what it found and the place behind it by value.
ghost use Rattle.std.specs.Prelude.{◌≡◌, ◌+◌, ◌<◌, ◌≤◌, length};
ghost use Rattle.json_lists.specs.Form.{after_escape, after_high};
ghost use Rattle.json_lists.specs.InnerRuns.{width as width_of};
ghost use Rattle.json_escapes.specs.InnerEscapes.{hex_or_none, short_or_none, Hex4At, after_u, EscapeAt, StringScanned};

use json_lists::inner::{BACKSLASH, QUOTATION_MARK};

// The letter behind a backslash that four hexadecimal digits follow.
const LETTER_U: u8 = 0x75;

// The value of a hexadecimal digit.
fn hex(b: u8) -> Option<u8>
    ensures { result ≡ hex_or_none b }
{
    match b {
        b'0'..=b'9' => Some(b - b'0'),
        b'A'..=b'F' => Some(b - b'A' + 10),
        b'a'..=b'f' => Some(b - b'a' + 10),
        _ => None,
    }
}

// The number of the four hexadecimal digits at `at`.
fn four_digits(list: &[u8], at: usize) -> Option<usize>
    requires { at ≤ length list.now }
    ensures { Hex4At list.now at result }
{
    let mut v = 0;
    for k in 0..4 {
        let b = *list.get(at + k)?;
        v = v * 16 + usize::from(hex(b)?);
    }
    Some(v)
}

// The scalar value that an escape names, and the place behind it.
#[derive(Clone, Copy, Debug, PartialEq, Eq)]
pub struct Escaped {
    pub code: usize,
    pub to: usize,
}

// The low surrogate that must stand at `at`, behind a high one; the pair is one scalar value.
fn low_surrogate(list: &[u8], at: usize, high: usize) -> Option<Escaped>
    requires { (at ≤ length list.now) × (0xD800 ≤ high) × (high ≤ 0xDBFF) }
    ensures { EscapeAt (after_high high) list.now at result }
{
    if !list[at..].starts_with(b"\\u") {
        return None;
    }
    let low = four_digits(list, at + 2)?;
    match low {
        0xDC00..=0xDFFF => Some(Escaped {
            code: 0x10000 + (high - 0xD800) * 0x400 + (low - 0xDC00),
            to: at + 6,
        }),
        _ => None,
    }
}

// An escape of four digits, which stand at `at`.
fn by_number(list: &[u8], at: usize) -> Option<Escaped>
    requires { at ≤ length list.now }
    ensures { EscapeAt after_u list.now at result }
{
    let v = four_digits(list, at)?;
    let to = at + 4;
    match v {
        0xD800..=0xDBFF => low_surrogate(list, to, v),
        0xDC00..=0xDFFF => None,
        _ => Some(Escaped { code: v, to }),
    }
}

// The code that an escape of one letter stands for.
fn by_letter(b: u8) -> Option<usize>
    ensures { result ≡ short_or_none b }
{
    match b {
        b'"' => Some(0x22),
        b'\\' => Some(0x5C),
        b'/' => Some(0x2F),
        b'b' => Some(0x08),
        b'f' => Some(0x0C),
        b'n' => Some(0x0A),
        b'r' => Some(0x0D),
        b't' => Some(0x09),
        _ => None,
    }
}

// The escape whose backslash stands before `at`.
pub fn escape(list: &[u8], at: usize) -> Option<Escaped>
    requires { at ≤ length list.now }
    ensures { EscapeAt after_escape list.now at result }
{
    let b = *list.get(at)?;
    if b == LETTER_U {
        return by_number(list, at + 1);
    }
    let code = by_letter(b)?;
    Some(Escaped { code, to: at + 1 })
}

// How many bytes a scalar value has.
pub fn width(v: usize) -> usize
    ensures { (result ≡ width_of v) × (result ≤ 4) }
{
    if v < 0x80 {
        return 1;
    }
    if v < 0x800 {
        return 2;
    }
    if v < 0x10000 {
        return 3;
    }
    4
}

// How many bytes and characters a string has, and the place behind it.
#[derive(Clone, Copy, Debug, PartialEq, Eq)]
pub struct Scanned {
    pub bytes: usize,
    pub chars: usize,
    pub to: usize,
}

// The string whose first quotation mark stands before `at`, unless it is none of the form's.
pub fn string(list: &[u8], at: usize) -> Option<Scanned>
    requires { at ≤ length list.now }
    ensures { StringScanned list.now at result }
{
    let mut i = at;
    let mut bytes = 0;
    let mut chars = 0;
    loop {
        let s = json_strings::inner::plain(list, i);
        let end = s.to;
        bytes += end - i;
        chars += s.chars;
        match *list.get(end)? {
            QUOTATION_MARK => {
                return Some(Scanned {
                    bytes,
                    chars,
                    to: end + 1,
                });
            }
            BACKSLASH => {
                let x = escape(list, end + 1)?;
                bytes += width(x.code);
                chars += 1;
                i = x.to;
            }
            _ => return None,
        }
    }
}
