// The texts of a list's strings are copied one behind another. The list is known to be of the form, so nothing is refused, and one pass
// goes over it: bytes that stand for themselves are searched for the next that doesn't and copied at the same time.
ghost use Rattle.std.specs.Prelude.{◌≡◌, ◌≢◌, ℕ, ◌+◌, ◌<◌, ◌≤◌, false, T, [], length, drop, ◌==◌, slice_index, MatchOption};
ghost use Rattle.buffers.specs.InnerOver.{over};
ghost use Rattle.characters.specs.Form.{is_well_formed};
ghost use Rattle.characters.specs.Scalar.{encode_scalar};
ghost use Rattle.json_lists.specs.Form.{in_string, after_escape, after_value, at_start, items, in_form};
ghost use Rattle.json_texts.specs.InnerTexts.{texts, Ready, Moved};

use json_lists::inner::{BACKSLASH, QUOTATION_MARK};

// Each of these writes a scalar value that has so many bytes.
fn two(out: &mut [u8], at: usize, code: usize)
    requires { (0x80 ≤ code) × (code < 0x800) × (at + 2 ≤ length out.old) }
    ensures { out.new ≡ over at (encode_scalar code) out.old }
{
    out[at] = (0xC0 + code / 64) as u8;
    out[at + 1] = (0x80 + code % 64) as u8;
}

fn three(out: &mut [u8], at: usize, code: usize)
    requires { (0x800 ≤ code) × (code < 0x10000) × (at + 3 ≤ length out.old) }
    ensures { out.new ≡ over at (encode_scalar code) out.old }
{
    out[at] = (0xE0 + code / 4096) as u8;
    out[at + 1] = (0x80 + code / 64 % 64) as u8;
    out[at + 2] = (0x80 + code % 64) as u8;
}

fn four(out: &mut [u8], at: usize, code: usize)
    requires { (0x10000 ≤ code) × (code < 0x110000) × (at + 4 ≤ length out.old) }
    ensures { out.new ≡ over at (encode_scalar code) out.old }
{
    out[at] = (0xF0 + code / 262144) as u8;
    out[at + 1] = (0x80 + code / 4096 % 64) as u8;
    out[at + 2] = (0x80 + code / 64 % 64) as u8;
    out[at + 3] = (0x80 + code % 64) as u8;
}

// Writes the bytes of a scalar value, and gives the place behind them.
fn write_scalar(out: &mut [u8], at: usize, code: usize) -> usize
    requires { (code < 0x110000) × (at + length (encode_scalar code) ≤ length out.old) }
    ensures { (out.new ≡ over at (encode_scalar code) out.old) × (result ≡ at + length (encode_scalar code)) }
{
    if code < 0x80 {
        out[at] = code as u8;
        return at + 1;
    }
    if code < 0x800 {
        two(out, at, code);
        return at + 2;
    }
    if code < 0x10000 {
        three(out, at, code);
        return at + 3;
    }
    four(out, at, code);
    at + 4
}

// How far the list is read, and how far the output is filled.
#[derive(Clone, Copy)]
struct Copied {
    from: usize,
    to: usize,
}

// Copies plain ASCII of a string, eight bytes at a time, as far as it goes on.
fn copy_eights(list: &[u8], at: usize, out: &mut [u8], to: usize) -> Copied
    requires { Ready (in_string []) list.now at out.old to }
    ensures { Moved (in_string []) (in_string []) list.now at out.old to result.from result.to out.new }
{
    let mut i = at;
    let mut j = to;
    while 8 <= list.len() - i {
        if !json_strings::inner::plain_eight(list, i) {
            return Copied { from: i, to: j };
        }
        buffers::inner::copy_few(out, j, &list[i..i + 8]);
        i += 8;
        j += 8;
    }
    Copied { from: i, to: j }
}

// Copies up to seven bytes that stand for themselves, one at a time. From 80 up a byte of a string always does.
fn copy_singles(list: &[u8], at: usize, out: &mut [u8], to: usize) -> Copied
    requires { Ready (in_string []) list.now at out.old to }
    ensures { Moved (in_string []) (in_string []) list.now at out.old to result.from result.to out.new }
{
    for k in 0..7 {
        let b = list[at + k];
        if b == QUOTATION_MARK {
            return Copied {
                from: at + k,
                to: to + k,
            };
        }
        if b == BACKSLASH {
            return Copied {
                from: at + k,
                to: to + k,
            };
        }
        out[to + k] = b;
    }
    Copied {
        from: at + 7,
        to: to + 7,
    }
}

// Copies bytes that stand for themselves: plain ASCII eight at a time, then a few others.
fn copy_run(list: &[u8], at: usize, out: &mut [u8], to: usize) -> Copied
    requires { Ready (in_string []) list.now at out.old to }
    ensures { Moved (in_string []) (in_string []) list.now at out.old to result.from result.to out.new }
{
    let c = copy_eights(list, at, out, to);
    copy_singles(list, c.from, out, c.to)
}

// Writes the character that an escape names, whose backslash stands before `at`.
fn copy_escape(list: &[u8], at: usize, out: &mut [u8], to: usize) -> Copied
    requires { Ready (after_escape []) list.now at out.old to × T (is_well_formed (drop at list.now)) }
    ensures { Moved (after_escape []) (in_string []) list.now at out.old to result.from result.to
        out.new }
{
    let e = json_escapes::inner::escape(list, at).unwrap();
    let end = write_scalar(out, to, e.code);
    Copied {
        from: e.to,
        to: end,
    }
}

// Copies what stands at `at`, before the end of a string: an escape, or a byte and others behind it that stand for themselves.
fn copy_part(list: &[u8], at: usize, out: &mut [u8], to: usize) -> Copied
    requires { Ready (in_string []) list.now at out.old to × ((slice_index list.now at == 0x22) ≡ false) }
    ensures { Moved (in_string []) (in_string []) list.now at out.old to result.from result.to out.new
        × (at < result.from) }
{
    let b = list[at];
    if b == BACKSLASH {
        return copy_escape(list, at + 1, out, to);
    }
    out[to] = b;
    copy_run(list, at + 1, out, to + 1)
}

// Copies the string whose first quotation mark stands before `at`.
fn copy_string(list: &[u8], at: usize, out: &mut [u8], to: usize) -> Copied
    requires { Ready (in_string []) list.now at out.old to }
    ensures { Moved (in_string []) after_value list.now at out.old to result.from result.to out.new }
{
    let mut i = at;
    let mut j = to;
    while list[i] != QUOTATION_MARK {
        let c = copy_part(list, i, out, j);
        i = c.from;
        j = c.to;
    }
    Copied { from: i + 1, to: j }
}

// How many bytes stand before the first quotation mark.
fn next_mark(bytes: &[u8]) -> Option<usize>
    ensures { MatchOption result ((j : ℕ) → j < length bytes.now → slice_index bytes.now j ≢ 0x22)
        (λ k. (k < length bytes.now) × (slice_index bytes.now k ≡ 0x22) × ((j : ℕ) → j < k → slice_index bytes.now j ≢ 0x22)) }
{
    bytes.iter().position(|&b| b == QUOTATION_MARK)
}

// Copies the texts of all strings of a list to `at`, one behind another. Where no string goes on, a quotation mark begins one.
pub fn copy_texts(list: &[u8], out: &mut [u8], at: usize)
    requires { T (in_form list.now) × (at + length (texts (items at_start list.now)) ≤ length out.old) }
    ensures { out.new ≡ over at (texts (items at_start list.now)) out.old }
{
    let mut i = 0;
    let mut to = at;
    while let Some(k) = next_mark(&list[i..]) {
        let c = copy_string(list, i + k + 1, out, to);
        i = c.from;
        to = c.to;
    }
}
