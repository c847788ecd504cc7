// Runs of ASCII bytes, passed many at a time.
ghost use Rattle.std.specs.Prelude.{◌≡◌, ◌+◌, ◌*◌, ◌<◌, ◌≤◌, length, take, drop, nat_lt};
ghost use Rattle.std.specs.List.{prefix_len};
ghost use Rattle.buffers.specs.Lists.{all_of};
ghost use Rattle.characters.specs.InnerAscii.{word_of, is_ascii, ahead_of, Runs};

// The top bit of each byte of a word: set where the byte is not ASCII.
pub const TOP_BITS: u64 = 0x8080_8080_8080_8080;

// The eight bytes at `at` as one number, the first lowest: one load.
pub fn word(text: &[u8], at: usize) -> u64
    requires { at + 8 ≤ length text.now }
    ensures { result ≡ word_of (take 8 (drop at text.now)) }
{
    u64::from_le_bytes(*text[at..at + 8].as_array::<8>().unwrap())
}

// Whether the bytes of so many words at `at` are ASCII: no top bit is set in the words, one laid over another.
pub fn are_ascii<const WORDS: usize>(text: &[u8], at: usize) -> bool
    requires { at + 8 * WORDS ≤ length text.now }
    ensures { result ≡ all_of is_ascii (take (8 * WORDS) (drop at text.now)) }
{
    let mut all = 0;
    for k in 0..WORDS {
        all |= word(text, at + 8 * k);
    }
    all & TOP_BITS == 0
}

// Whether the sixty-four bytes at `at` are there and ASCII.
pub fn ahead(text: &[u8], at: usize) -> bool
    requires { at ≤ length text.now }
    ensures { result ≡ ahead_of text.now at }
{
    if text.len() - at < 64 {
        return false;
    }
    are_ascii::<8>(text, at)
}

// As far as ASCII bytes go on from `at`, so many words at a time.
fn by_words<const WORDS: usize>(text: &[u8], at: usize) -> usize
    requires { (0 < WORDS) × (WORDS ≤ 8) × (at ≤ length text.now) }
    ensures { Runs text.now at result }
{
    let mut i = at;
    while 8 * WORDS <= text.len() - i {
        if !are_ascii::<WORDS>(text, i) {
            return i;
        }
        i += 8 * WORDS;
    }
    i
}

// As far as ASCII bytes go on from `at`, sixty-four or eight at a time.
pub fn bulk(text: &[u8], at: usize) -> usize
    requires { at ≤ length text.now }
    ensures { Runs text.now at result }
{
    by_words::<1>(text, by_words::<8>(text, at))
}

// The end of the text, where less than eight bytes are left of it and its last eight are ASCII.
pub fn last(text: &[u8], at: usize) -> usize
    requires { at ≤ length text.now }
    ensures { Runs text.now at result }
{
    if text.len() < 8 {
        return at;
    }
    let from = text.len() - 8;
    if at < from {
        return at;
    }
    if !are_ascii::<1>(text, from) {
        return at;
    }
    text.len()
}

// How many bytes at the front are ASCII, as far as they are seen many at a time.
pub fn front(text: &[u8]) -> usize
    ensures { Runs text.now 0 result }
{
    last(text, bulk(text, 0))
}

// How many bytes at the front are ASCII.
fn run(text: &[u8]) -> usize
    ensures { result ≡ prefix_len (λ b. nat_lt b 0x80) text.now }
{
    text.iter().take_while(|&&b| b < 0x80).count()
}

// How many bytes at the front of a text of less than eight are ASCII; 0 of a longer one.
pub fn short_run(text: &[u8]) -> usize
    ensures { Runs text.now 0 result }
{
    if 8 <= text.len() {
        return 0;
    }
    run(text)
}
