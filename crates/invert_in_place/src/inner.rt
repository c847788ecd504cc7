// Each operation is inverted where it stands, so that the inverse's places are known from the start. That wants a text of base
// characters, and no two inserts next to each other: one delete would undo both.
ghost use Rattle.std.specs.Prelude.{◌≡◌, ◌+◌, ◌^◌, ◌<◌, ◌≤◌, T, length};
ghost use Rattle.buffers.specs.InnerOver.{over, bytes16};
ghost use Rattle.characters.specs.Form.{is_well_formed};
ghost use Rattle.characters.specs.Chars.{number_of_chars};
ghost use Rattle.characters.specs.Text.{chars as chars_of};
ghost use Rattle.edits.specs.Invert.{invert as invertOf};
ghost use Rattle.record.specs.Layout.{start_of_text, max_ops, op_count_of, kind_at, count_at, base_of, insert_kind};
ghost use Rattle.record.specs.Record.{record_fault, ops};
ghost use Rattle.emitter.specs.InnerEmit.{Writes};
ghost use Rattle.invert_in_place.specs.InnerInverting.{inserts_apart, inserted_back, restored, delete_behind, Ready, InsertAt, Undoes};

use record::inner::Kind;

// How far the record and the text were gone through: the next operation, the places of the next insert's text and of the next
// character, and the place of the next byte of text in the output.
#[derive(Clone, Copy)]
struct Inversion {
    k: usize,
    from: usize,
    at: usize,
    put: usize,
}

// Operation k of n inserts again what a delete took, text[at..to].
fn restore(text: &[u8], out: &mut [u8], n: usize, k: usize, at: usize, to: usize, put: usize)
    requires { (at ≤ to) × (to ≤ length text.now) × (n ≤ max_ops) × (k < n) × (start_of_text n ≤ length out.old) × (put ≤ 2 ^ 50) }
    ensures { out.new ≡ restored n k at to put text.now out.old }
{
    places::inner::write_op(out, n, k, Kind::Insert, to - at);
    buffers::inner::copy_short(out, put, text, at, to);
}

// Whether a delete stands behind operation k of n.
fn delete_follows(rec: &[u8], n: usize, k: usize) -> bool
    requires { (record_fault rec.now ≡ 0) × (n ≡ op_count_of rec.now) × (k < n) }
    ensures { result ≡ delete_behind rec.now n k }
{
    if k + 1 < n {
        return reader::inner::kind(rec, k + 1) == Kind::Delete;
    }
    false
}

// An insert of `count` bytes and num characters, and the delete behind it: what undoes the delete stands first.
fn undo_pair(
    rec: &[u8],
    n: usize,
    text: &[u8],
    chars: usize,
    out: &mut [u8],
    s: Inversion,
    count: usize,
    num: usize,
) -> Inversion
    requires { Ready n chars rec.now text.now s (length out.old) × InsertAt rec.now s.k s.from count num
        × T (delete_behind rec.now n s.k) }
    ensures { Undoes n rec.now text.now s out.old result out.new }
{
    let next = s.k + 1;
    let more = reader::inner::count(rec, n, next);
    let to = apply_steps::inner::end_of(text, chars, s.at, more, n - next);
    places::inner::write_op(out, n, next, Kind::Delete, num);
    restore(text, out, n, s.k, s.at, to, s.put);
    Inversion {
        k: s.k + 2,
        from: s.from + count,
        at: to,
        put: s.put + (to - s.at),
    }
}

// An insert of `count` bytes becomes a delete of its characters.
fn undo_insert(
    rec: &[u8],
    n: usize,
    text: &[u8],
    chars: usize,
    out: &mut [u8],
    s: Inversion,
    count: usize,
) -> Inversion
    requires { Ready n chars rec.now text.now s (length out.old) × (kind_at rec.now s.k ≡ insert_kind)
        × (count ≡ count_at rec.now s.k) × (count < 65536) }
    ensures { Undoes n rec.now text.now s out.old result out.new }
{
    let num = counting::inner::count_in(rec, s.from, s.from + count);
    if delete_follows(rec, n, s.k) {
        return undo_pair(rec, n, text, chars, out, s, count, num);
    }
    places::inner::write_op(out, n, s.k, Kind::Delete, num);
    Inversion {
        k: s.k + 1,
        from: s.from + count,
        at: s.at,
        put: s.put,
    }
}

// The next operation, or an insert and the delete behind it.
fn undo(rec: &[u8], n: usize, text: &[u8], chars: usize, out: &mut [u8], s: Inversion) -> Inversion
    requires { Ready n chars rec.now text.now s (length out.old) }
    ensures { Undoes n rec.now text.now s out.old result out.new }
{
    let kind = reader::inner::kind(rec, s.k);
    let count = reader::inner::count(rec, n, s.k);
    if let Kind::Insert = kind {
        return undo_insert(rec, n, text, chars, out, s, count);
    }
    let to = apply_steps::inner::end_of(text, chars, s.at, count, n - s.k);
    if let Kind::Retain = kind {
        places::inner::write_op(out, n, s.k, Kind::Retain, count);
        return Inversion {
            k: s.k + 1,
            from: s.from,
            at: to,
            put: s.put,
        };
    }
    restore(text, out, n, s.k, s.at, to, s.put);
    Inversion {
        k: s.k + 1,
        from: s.from,
        at: to,
        put: s.put + (to - s.at),
    }
}

// One of the four sizes, which has its place in the output.
fn write_size(out: &mut [u8], at: usize, v: usize)
    requires { at + 1 < length out.old }
    ensures { out.new ≡ over at (bytes16 v) out.old }
{
    out[at] = (v % 256) as u8;
    out[at + 1] = (v / 256 % 256) as u8;
}

// The inverse's record is written, all of it that has a place, and its size given.
pub fn write_in_place(rec: &[u8], count: usize, text: &[u8], out: &mut [u8]) -> usize
    requires { (record_fault rec.now ≡ 0) × (count ≡ op_count_of rec.now) × T (is_well_formed text.now)
        × (number_of_chars text.now ≡ base_of rec.now) × T (inserts_apart (ops rec.now)) × (start_of_text count ≤ length out.old) }
    ensures { (result ≡ start_of_text count + inserted_back rec.now text.now)
        × Writes count (invertOf (ops rec.now) (chars_of text.now)) out.old out.new }
{
    let start = layout::inner::text_start(count);
    let chars = reader::inner::base(rec);
    let mut s = Inversion {
        k: 0,
        from: start,
        at: 0,
        put: start,
    };
    while s.k < count {
        s = undo(rec, count, text, chars, out, s);
    }
    write_size(out, 0, count);
    write_size(out, 2, s.put - start);
    // base and target change places
    write_size(out, 4, reader::inner::target(rec));
    write_size(out, 6, chars);
    s.put
}
