// The list of a record that was checked is written from the front on, each byte to its place: the output has room for all of them.
ghost use Rattle.std.specs.Prelude.{◌≡◌, ◌+◌, ◌-◌, ◌<◌, ◌≤◌, length, drop};
ghost use Rattle.buffers.specs.InnerOver.{over};
ghost use Rattle.record.specs.Layout.{op_count_of};
ghost use Rattle.record.specs.Record.{record_fault, ops};
ghost use Rattle.record.specs.InnerFront.{Place, ops_left};
ghost use Rattle.json_lists.specs.Written.{decimal, written};
ghost use Rattle.json_write_text.specs.InnerPutting.{Puts};
ghost use Rattle.json_write.specs.InnerWriting.{negative, value_of, bytes_of_text, marks_behind, left, Steps};

use json_lists::inner::{BEGIN_ARRAY, COMMA, END_ARRAY, MINUS};
use record::inner::Kind;

// A number in decimal: the place behind it.
fn write_decimal(out: &mut [u8], at: usize, n: usize) -> usize
    requires { (n < 65536) × (at + length (decimal n) ≤ length out.old) }
    ensures { Puts at (decimal n) out.old result out.new }
{
    let to = at + json_measure::inner::digits(n);
    let mut rest = n;
    for i in (at..to).rev() {
        out[i] = 0x30 + (rest % 10) as u8;
        rest /= 10;
    }
    to
}

// A delete's number: the place behind it.
fn write_negative(out: &mut [u8], at: usize, n: usize) -> usize
    requires { (n < 65536) × (at + length (negative n) ≤ length out.old) }
    ensures { Puts at (negative n) out.old result out.new }
{
    out[at] = MINUS;
    write_decimal(out, at + 1, n)
}

// The value of an operation, the text of which begins at `from`: the place behind it.
fn write_value(
    out: &mut [u8],
    at: usize,
    rec: &[u8],
    from: usize,
    kind: Kind,
    count: usize,
) -> usize
    requires { (count < 65536) × (from + bytes_of_text kind count ≤ length rec.now)
        × (at + length (value_of kind count (drop from rec.now)) ≤ length out.old) }
    ensures { Puts at (value_of kind count (drop from rec.now)) out.old result out.new }
{
    match kind {
        Kind::Retain => write_decimal(out, at, count),
        Kind::Insert => json_write_text::inner::write_string(out, at, rec, from, from + count),
        Kind::Delete => write_negative(out, at, count),
    }
}

// How many bytes of text an operation has.
fn text_bytes(kind: Kind, count: usize) -> usize
    ensures { (result ≡ bytes_of_text kind count) × (result ≤ count) }
{
    match kind {
        Kind::Insert => count,
        Kind::Retain | Kind::Delete => 0,
    }
}

// What stands behind a value: a comma, or the end of the list.
fn mark_behind(last: bool) -> u8
    ensures { result ≡ marks_behind last }
{
    if last { END_ARRAY } else { COMMA }
}

// How far the record was gone through and the list written: the next operation, the place of the next insert's text, and that of the next
// value.
#[derive(Clone, Copy)]
pub struct Progress {
    pub k: usize,
    pub from: usize,
    pub at: usize,
}

// The next value, and what stands behind it.
fn write_next(out: &mut [u8], rec: &[u8], n: usize, s: Progress) -> Progress
    requires { (record_fault rec.now ≡ 0) × (n ≡ op_count_of rec.now) × (s.k < n) × Place rec.now s.k s.from
        × (s.at + length (left (ops_left rec.now s.k s.from)) ≤ length out.old) }
    ensures { Steps rec.now s out.old result out.new }
{
    let k = s.k;
    let from = s.from;
    let at = s.at;
    let kind = reader::inner::kind(rec, k);
    let count = reader::inner::count(rec, n, k);
    let end = write_value(out, at, rec, from, kind, count);
    out[end] = mark_behind(n <= k + 1);
    Progress {
        k: k + 1,
        from: from + text_bytes(kind, count),
        at: end + 1,
    }
}

// The whole list of a record of n operations.
pub fn write_list(out: &mut [u8], rec: &[u8], n: usize)
    requires { (record_fault rec.now ≡ 0) × (n ≡ op_count_of rec.now) × (length (written (ops rec.now)) ≤ length out.old) }
    ensures { out.new ≡ over 0 (written (ops rec.now)) out.old }
{
    out[0] = BEGIN_ARRAY;
    if n == 0 {
        out[1] = END_ARRAY;
        return;
    }
    let from = layout::inner::text_start(n);
    let mut s = Progress { k: 0, from, at: 1 };
    while s.k < n {
        s = write_next(out, rec, n, s);
    }
}
