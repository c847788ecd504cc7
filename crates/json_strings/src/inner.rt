// The strings of a JSON list, scanned: plain characters many bytes at a time, and escapes. Each function gives what it found and the
// place behind it by value; nothing is written.
ghost use Rattle.std.specs.Prelude.{◌≡◌, ◌+◌, ◌<◌, ◌≤◌, length, take, drop};
ghost use Rattle.buffers.specs.Lists.{all_of};
ghost use Rattle.json_lists.specs.InnerRuns.{Run, Plain};
ghost use Rattle.json_strings.specs.InnerStrings.{is_plain, Plains};

use ascii::inner::TOP_BITS;
use json_lists::inner::{BACKSLASH, QUOTATION_MARK};

// In each byte of a word, 9F, 22 and 5C. The difference of 9F and an ASCII code has its top bit set where the code is below 20; that of
// 80 and two ASCII codes laid over each other exclusively, where the two are the same.
const BELOW_20: u64 = 0x9F9F_9F9F_9F9F_9F9F;

const QUOTATION_MARKS: u64 = 0x2222_2222_2222_2222;

const BACKSLASHES: u64 = 0x5C5C_5C5C_5C5C_5C5C;

// Whether the eight bytes at `at` are ASCII that stands for itself in a string.
pub fn plain_eight(text: &[u8], at: usize) -> bool
    requires { at + 8 ≤ length text.now }
    ensures { result ≡ all_of is_plain (take 8 (drop at text.now)) }
{
    let w = ascii::inner::word(text, at);
    if w & TOP_BITS != 0 {
        return false;
    }
    let low = BELOW_20 - w;
    let mark = TOP_BITS - (w ^ QUOTATION_MARKS);
    let slash = TOP_BITS - (w ^ BACKSLASHES);
    (low | mark | slash) & TOP_BITS == 0
}

fn plain_byte(b: u8) -> bool
    ensures { result ≡ is_plain b }
{
    if b < 0x20 {
        return false;
    }
    if 0x80 <= b {
        return false;
    }
    if b == QUOTATION_MARK {
        return false;
    }
    b != BACKSLASH
}

// As far as plain bytes go on from `at`, eight at a time.
fn by_eight(text: &[u8], at: usize) -> usize
    requires { at ≤ length text.now }
    ensures { Plains text.now at result }
{
    let mut i = at;
    while 8 <= text.len() - i {
        if !plain_eight(text, i) {
            return i;
        }
        i += 8;
    }
    i
}

// The place of the first byte from `at` on that is not plain, or the end. (Each character that isn't ASCII leads here. `take_while` over a part
// of the text took 0.83 to 1.65 times the time, by where the code came to stand.)
fn plain_ascii(text: &[u8], at: usize) -> usize
    requires { at ≤ length text.now }
    ensures { Run is_plain text.now at result }
{
    for i in by_eight(text, at)..text.len() {
        if !plain_byte(text[i]) {
            return i;
        }
    }
    text.len()
}

// The place behind characters that need no escape, and how many they are.
#[derive(Clone, Copy)]
pub struct Span {
    pub to: usize,
    pub chars: usize,
}

// The characters from `at` on that need no escape: ASCII many bytes at a time, others one by one.
pub fn plain(text: &[u8], at: usize) -> Span
    requires { at ≤ length text.now }
    ensures { Plain text.now at result.to result.chars }
{
    let mut i = plain_ascii(text, at);
    let mut conts = 0;
    while i < text.len() {
        let more = utf8::inner::continuations(text, i);
        if more == 0 {
            return Span {
                to: i,
                chars: i - at - conts,
            };
        }
        conts += more;
        i = plain_ascii(text, i + 1 + more);
    }
    Span {
        to: i,
        chars: i - at - conts,
    }
}
