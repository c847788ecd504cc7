// One block of sixteen bytes, checked branch-free, so that the compiler vectorises the loop.
//
// Why it works: by RFC 3629's table it is told by the three bytes before a byte whether it may stand there. A continuation, 80..BF, must
// stand one byte behind C2..F4, two bytes behind E0..F4 and three bytes behind F0..F4, and may stand nowhere else. C0, C1 and F5..FF stand
// nowhere. Directly behind E0, ED, F0 and F4 the continuation has a narrower range. So a text that is well-formed up to the end of a
// character goes on well up to a place exactly when each byte up to there may stand behind the three before it, and the last three
// bytes tell how many bytes of a character are pending. Differences that stop at 0 and masks of all bits stand for the tests.
ghost use Rattle.std.specs.Prelude.{◌≡◌, ◌+◌, ◌-◌, ◌≤◌, length};
ghost use Rattle.characters.specs.Form.{within};
ghost use Rattle.characters.specs.InnerBlock.{bit_of, mask_of, Tells, due_of, invalid_byte_of, outside_of, misplaced_of, Goes, pending_of, before};
ghost use Rattle.characters.specs.Chars.{is_continuation};

pub fn in_range(b: u8, lo: u8, hi: u8) -> bool
    ensures { result ≡ within lo hi b }
{
    (lo..=hi).contains(&b)
}

fn mask(b: bool) -> u8
    ensures { result ≡ mask_of b }
{
    if b { 0xFF } else { 0 }
}

// A number that isn't 0 exactly where a continuation must follow these three bytes.
fn due(p3: u8, p2: u8, p1: u8) -> u8
    ensures { Tells result (due_of p3 p2 p1) }
{
    p1.saturating_sub(0xBF) | p2.saturating_sub(0xDF) | p3.saturating_sub(0xEF)
}

// A number that isn't 0 exactly where b neither begins a character nor continues one.
fn invalid_byte(b: u8) -> u8
    ensures { Tells result (invalid_byte_of b) }
{
    mask(b & 0xFE == 0xC0) | b.saturating_sub(0xF4)
}

// A number that isn't 0 exactly where the second byte is outside of the range that the first asks for.
fn outside(p: u8, b: u8) -> u8
    ensures { Tells result (outside_of p b) }
{
    let low = mask(in_range(b, 0x80, 0x9F));
    let lowest = mask(in_range(b, 0x80, 0x8F));
    (mask(p == 0xE0) & low)
        | (mask(p == 0xED) & !low)
        | (mask(p == 0xF0) & lowest)
        | (mask(p == 0xF4) & !lowest)
}

// A number that is 0 exactly where b may stand behind the three bytes.
fn misplaced(p3: u8, p2: u8, p1: u8, b: u8) -> u8
    ensures { Tells result (misplaced_of p3 p2 p1 b) }
{
    mask(counting::inner::is_cont(b) == (due(p3, p2, p1) == 0)) | invalid_byte(b) | outside(p1, b)
}

// Whether b is a continuation, by its two highest bits.
fn cont_bit(b: u8) -> u8
    ensures { (result ≡ bit_of (is_continuation b)) × (result ≤ 1) }
{
    (b >> 7) & (!b >> 6) & 1
}

// What sixteen bytes are found to be: bad is 0 only where they go on well.
#[derive(Clone, Copy)]
pub struct Found {
    pub bad: u8,
    pub conts: u8,
}

pub fn check16(text: &[u8], at: usize) -> Found
    requires { (3 ≤ at) × (at + 16 ≤ length text.now) }
    ensures { Goes text.now at (at + 16) result.bad result.conts }
{
    let mut bad: u8 = 0;
    let mut conts: u8 = 0;
    for k in 0..16 {
        let i = at + k;
        let b = text[i];
        bad = bad | misplaced(text[i - 3], text[i - 2], text[i - 1], b);
        conts += cont_bit(b);
    }
    Found { bad, conts }
}

// How many bytes before i belong to a character that is to go on.
pub fn pending(text: &[u8], i: usize) -> u8
    requires { (3 ≤ i) × (i ≤ length text.now) }
    ensures { (result ≡ before pending_of text.now i) × (result ≤ 6) }
{
    u8::from(0xC0 <= text[i - 1])
        + 2 * u8::from(0xE0 <= text[i - 2])
        + 3 * u8::from(0xF0 <= text[i - 3])
}
