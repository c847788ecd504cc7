// A record that was checked is gone through operation by operation, the text along with it. What has no place in the output is not
// written: a run on an empty output yields the size.
ghost use Rattle.std.specs.Prelude.{◌≡◌, ◌<◌, ◌≤◌, T, length, drop};
ghost use Rattle.buffers.specs.InnerOver.{over};
ghost use Rattle.characters.specs.Form.{is_well_formed};
ghost use Rattle.characters.specs.Chars.{number_of_chars};
ghost use Rattle.characters.specs.InnerPlaces.{Passes};
ghost use Rattle.record.specs.Layout.{op_count_of, base_of};
ghost use Rattle.record.specs.Record.{record_fault};
ghost use Rattle.apply_steps.specs.InnerSteps.{TakesRest, Stage, Steps, played};

use record::inner::Kind;

// How far the record and the text were gone through: the next operation, the places of the next insert's text and of the next
// character, and how many bytes were given.
#[derive(Clone, Copy)]
pub struct Progress {
    pub k: usize,
    pub from: usize,
    pub at: usize,
    pub len: usize,
}

// The place `count` characters behind `at`, in a text that has `chars` characters and at least so many from there on.
fn skip_chars(text: &[u8], chars: usize, at: usize, count: usize) -> usize
    requires { (chars ≡ number_of_chars text.now) × (at ≤ length text.now) × T (is_well_formed (drop at text.now)) × (count < 65536)
        × (count ≤ number_of_chars (drop at text.now)) }
    ensures { Passes text.now at count result }
{
    if chars == text.len() {
        return at + count;
    }
    utf8::inner::skip(text, at, count)
}

// The place `count` characters behind `at`, where the operation that takes them is the first of `left`: the last takes all.
pub fn end_of(text: &[u8], chars: usize, at: usize, count: usize, left: usize) -> usize
    requires { (chars ≡ number_of_chars text.now) × (at ≤ length text.now) × T (is_well_formed (drop at text.now)) × (count < 65536)
        × (count ≤ number_of_chars (drop at text.now)) × TakesRest text.now at count left }
    ensures { Passes text.now at count result }
{
    if left == 1 {
        return text.len();
    }
    skip_chars(text, chars, at, count)
}

// One operation: retain copies, delete skips, insert writes.
fn apply_op(
    out: &mut [u8],
    rec: &[u8],
    n: usize,
    text: &[u8],
    chars: usize,
    s: Progress,
) -> Progress
    requires { (record_fault rec.now ≡ 0) × (n ≡ op_count_of rec.now) × (chars ≡ number_of_chars text.now) × Stage rec.now text.now s
        × (s.k < n) }
    ensures { Steps rec.now text.now s out.old result out.new }
{
    let k = s.k;
    let from = s.from;
    let at = s.at;
    let len = s.len;
    let kind = reader::inner::kind(rec, k);
    let count = reader::inner::count(rec, n, k);
    if let Kind::Insert = kind {
        let to = from + count;
        buffers::inner::copy_short(out, len, rec, from, to);
        return Progress {
            k: k + 1,
            from: to,
            at,
            len: len + count,
        };
    }
    let end = end_of(text, chars, at, count, n - k);
    if let Kind::Retain = kind {
        buffers::inner::copy_short(out, len, text, at, end);
        return Progress {
            k: k + 1,
            from,
            at: end,
            len: len + (end - at),
        };
    }
    Progress {
        k: k + 1,
        from,
        at: end,
        len,
    }
}

// How many bytes the text after the edit has, of which those that have a place are written.
pub fn apply_into(out: &mut [u8], rec: &[u8], text: &[u8]) -> usize
    requires { (record_fault rec.now ≡ 0) × T (is_well_formed text.now) × (number_of_chars text.now ≡ base_of rec.now) }
    ensures { (result ≡ length (played rec.now text.now))
        × (out.new ≡ over 0 (played rec.now text.now) out.old) }
{
    let n = reader::inner::op_count(rec);
    let chars = reader::inner::base(rec);
    let from = layout::inner::text_start(n);
    let mut s = Progress {
        k: 0,
        from,
        at: 0,
        len: 0,
    };
    while s.k < n {
        s = apply_op(out, rec, n, text, chars, s);
    }
    s.len
}
