// The characters of a text: its bytes that are no continuations, counted.
ghost use Rattle.std.specs.Prelude.{◌≡◌, ◌+◌, ◌-◌, ◌*◌, ◌/◌, ◌%◌, ◌<◌, ◌≤◌, length, take, drop};
ghost use Rattle.characters.specs.Chars.{is_continuation, number_of_chars};
ghost use Rattle.characters.specs.InnerMarks.{marks_of, Further, count_mod255, Starts};

pub fn is_cont(b: u8) -> bool
    ensures { result ≡ is_continuation b }
{
    (0x80..=0xBF).contains(&b)
}

// The number of bytes that aren't continuations. A count in one byte is what makes this fast.
pub fn count_block(text: &[u8]) -> u8
    requires { length text.now ≤ 224 }
    ensures { (result ≡ number_of_chars text.now) × (result ≤ length text.now) }
{
    let mut n: u8 = 0;
    for &b in text {
        if !is_cont(b) {
            n += 1;
        }
    }
    n
}

// The number of bytes that aren't continuations, byte by byte: for fewer than eight bytes, and for inserts, since they are counted in loops
// that a longer function makes slower.
fn count(bytes: &[u8]) -> usize
    ensures { (result ≡ number_of_chars bytes.now) × (result ≤ length bytes.now) }
{
    let mut n: usize = 0;
    for &b in bytes {
        if !is_cont(b) {
            n += 1;
        }
    }
    n
}

// The number of characters of text[at..to]. Where it is short and the eight bytes there are ASCII, its bytes are its characters.
pub fn count_in(text: &[u8], at: usize, to: usize) -> usize
    requires { (at ≤ to) × (to ≤ length text.now) }
    ensures { (result ≡ number_of_chars (take (to - at) (drop at text.now))) × (result ≤ to - at) }
{
    if to - at <= 8 {
        if 8 <= text.len() - at {
            if ascii::inner::are_ascii::<1>(text, at) {
                return to - at;
            }
        }
    }
    count(&text[at..to])
}

// The lowest bit of each byte of a word.
const LOW_BITS: u64 = 0x0101_0101_0101_0101;

// Each byte that is no continuation, marked by the lowest bit of its place in the word.
fn marks(text: &[u8], at: usize) -> u64
    requires { at + 8 ≤ length text.now }
    ensures { (result ≡ marks_of (take 8 (drop at text.now))) × (result ≤ 0x0101_0101_0101_0101) }
{
    let w = ascii::inner::word(text, at);
    ((!w >> 7) | (w >> 6)) & LOW_BITS
}

// The marks of the last bytes, fewer than eight of them: those of the text's last word, shifted down.
fn last(text: &[u8], rest: usize) -> u64
    requires { (8 ≤ length text.now) × (0 < rest) × (rest < 8) }
    ensures { (result ≡ marks_of (drop (length text.now - rest) text.now)) × (result ≤ 0x0101_0101_0101_0101) }
{
    marks(text, text.len() - 8) >> (64 - 8 * rest)
}

// A sum of the marks of words, and where these end.
#[derive(Clone, Copy)]
struct Sum {
    at: usize,
    marks: u64,
}

// The sum after four, two or one words more, where so many bytes are left; `rest` adds the bytes that are no word.
fn thirty_two(text: &[u8], at: usize) -> Sum
    requires { (at ≤ length text.now) × (length text.now - at < 64) }
    ensures { Further text.now at 0 result.at result.marks 32 × (result.marks ≤ 0x0404_0404_0404_0404) }
{
    if text.len() - at < 32 {
        return Sum { at, marks: 0 };
    }
    Sum {
        at: at + 32,
        marks: marks(text, at) + marks(text, at + 8) + marks(text, at + 16) + marks(text, at + 24),
    }
}

fn sixteen(text: &[u8], at: usize, sum: u64) -> Sum
    requires { (at ≤ length text.now) × (length text.now - at < 32) × (sum ≤ 0x0404_0404_0404_0404) }
    ensures { Further text.now at sum result.at result.marks 16 × (result.marks ≤ 0x0606_0606_0606_0606) }
{
    if text.len() - at < 16 {
        return Sum { at, marks: sum };
    }
    Sum {
        at: at + 16,
        marks: sum + marks(text, at) + marks(text, at + 8),
    }
}

fn eight(text: &[u8], at: usize, sum: u64) -> Sum
    requires { (at ≤ length text.now) × (length text.now - at < 16) × (sum ≤ 0x0606_0606_0606_0606) }
    ensures { Further text.now at sum result.at result.marks 8 × (result.marks ≤ 0x0707_0707_0707_0707) }
{
    if text.len() - at < 8 {
        return Sum { at, marks: sum };
    }
    Sum {
        at: at + 8,
        marks: sum + marks(text, at),
    }
}

fn rest(text: &[u8], at: usize, sum: u64) -> u64
    requires { (8 ≤ length text.now) × (at ≤ length text.now) × (length text.now - at < 8) × (sum ≤ 0x0707_0707_0707_0707) }
    ensures { result % 255 ≡ count_mod255 text.now at sum }
{
    let n = text.len() - at;
    if n == 0 {
        return sum;
    }
    sum + last(text, n)
}

// The number of characters of text[from..]. As 256 leaves 1 by 255, a sum of marks leaves by 255 how many there are.
pub fn tail(text: &[u8], from: usize) -> usize
    requires { (from ≤ length text.now) × (length text.now - from < 64) × (from % 32 ≡ 0) }
    ensures { (result ≡ number_of_chars (drop from text.now)) × (result ≤ length text.now - from) }
{
    if text.len() == from {
        return 0;
    }
    if text.len() < 8 {
        return count_block(text) as usize;
    }
    let a = thirty_two(text, from);
    let b = sixteen(text, a.at, a.marks);
    let c = eight(text, b.at, b.marks);
    (rest(text, c.at, c.marks) % 255) as usize
}

// The lowest bit of each of seven bytes, as many as can be left over. It is a mask of its own since the compiler counts bits that stand one
// in a byte by a single multiplication, and doesn't see that they do where a loop and the code behind it share the mask.
const LOW_BITS_OF_SEVEN: u64 = 0x0001_0101_0101_0101;

// The eight bytes at `at` as one word, the top bit of each set where it is no continuation: a continuation has its top bit set and the next
// one clear. The other bits say nothing.
fn starts(text: &[u8], at: usize) -> u64
    requires { at + 8 ≤ length text.now }
    ensures { Starts result (take 8 (drop at text.now)) }
{
    let w = ascii::inner::word(text, at);
    !(w & !(w << 1))
}

// How many of the eight bytes at `at` are no continuations: each of them is marked by one bit, and the marks are counted.
pub fn count_eight(text: &[u8], at: usize) -> usize
    requires { at + 8 ≤ length text.now }
    ensures { (result ≡ number_of_chars (take 8 (drop at text.now))) × (result ≤ 8) }
{
    u64::count_ones((starts(text, at) >> 7) & LOW_BITS) as usize
}

// How many of the last n bytes are no continuations: by the text's last word, of which the bytes before these are shifted out.
fn count_last(text: &[u8], n: usize) -> usize
    requires { (8 ≤ length text.now) × (0 < n) × (n < 8) }
    ensures { (result ≡ number_of_chars (drop (length text.now - n) text.now)) × (result ≤ n) }
{
    u64::count_ones((starts(text, text.len() - 8) >> (71 - 8 * n)) & LOW_BITS_OF_SEVEN) as usize
}

// The number of characters of the bytes left over behind the words of a text.
pub fn left_over(text: &[u8]) -> usize
    ensures { (result ≡ number_of_chars (drop (8 * (length text.now / 8)) text.now))
        × (result ≤ length text.now % 8) }
{
    let n = text.len() % 8;
    if n == 0 {
        return 0;
    }
    if text.len() < 8 {
        return count(text);
    }
    count_last(text, n)
}

// `count_last`, also where no byte is left.
fn count_rest(text: &[u8], n: usize) -> usize
    requires { (8 ≤ length text.now) × (n < 8) }
    ensures { (result ≡ number_of_chars (drop (length text.now - n) text.now)) × (result ≤ n) }
{
    if n == 0 {
        return 0;
    }
    count_last(text, n)
}

// The number of characters of text[from..], of which fewer than sixteen bytes are left.
pub fn few_left(text: &[u8], from: usize) -> usize
    requires { (8 ≤ length text.now) × (from ≤ length text.now) × (length text.now - from < 16) }
    ensures { (result ≡ number_of_chars (drop from text.now)) × (result ≤ length text.now - from) }
{
    let n = text.len() - from;
    if n < 8 {
        return count_rest(text, n);
    }
    count_eight(text, from) + count_rest(text, n - 8)
}
