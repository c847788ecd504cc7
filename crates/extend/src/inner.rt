// A record that was checked is taken up at its end, for one operation more.
//
// One operation more changes the last one or two operations only. All before them, and the text, is copied by blocks to its place in
// the result; those that change are held by an emitter as its pending group, and written behind it.
ghost use Rattle.std.specs.Prelude.{◌≡◌, ◌+◌, ◌^◌, ◌<◌, ◌≤◌, T, [], length};
ghost use Rattle.buffers.specs.InnerOver.{over};
ghost use Rattle.characters.specs.Form.{is_well_formed};
ghost use Rattle.characters.specs.Chars.{number_of_chars};
ghost use Rattle.characters.specs.Text.{chars};
ghost use Rattle.edits.specs.Op.{retain, delete, insert};
ghost use Rattle.record.specs.Kinds.{number_of};
ghost use Rattle.record.specs.Layout.{op_count_of, max_ops, max_size, start_of_text};
ghost use Rattle.record.specs.Record.{record_fault};
ghost use Rattle.places.specs.InnerOps.{one, relocated};
ghost use Rattle.emitter.specs.InnerEmit.{Under, flushed, headed};
ghost use Rattle.extend.specs.InnerExtending.{last_count, closed_of, Grown};

use emitter::inner::Emitter;
use record::inner::Kind;

// The count of the operation before operation k, where it is of this kind; else 0.
fn ending(rec: &[u8], ops: usize, k: usize, kind: Kind) -> usize
    requires { (record_fault rec.now ≡ 0) × (ops ≡ op_count_of rec.now) × (k ≤ ops) }
    ensures { (result ≡ last_count rec.now k (number_of kind)) × (result < 65536) }
{
    if k == 0 {
        return 0;
    }
    if reader::inner::kind(rec, k - 1) != kind {
        return 0;
    }
    reader::inner::count(rec, ops, k - 1)
}

// How many operations stand before one of this count, which is none where the count is 0.
fn before(k: usize, count: usize) -> usize
    requires { one count ≤ k }
    ensures { result + one count ≡ k }
{
    if count == 0 { k } else { k - 1 }
}

// The sizes once the pending group is written.
pub fn closed(f: Emitter) -> Emitter
    requires { Under (2 ^ 38) f }
    ensures { (result ≡ closed_of f) × Under (2 ^ 40) result }
{
    Emitter {
        ins: 0,
        del: 0,
        ret: 0,
        ops: f.ops
            + places::inner::one_if_any(f.ins)
            + places::inner::one_if_any(f.del)
            + places::inner::one_if_any(f.ret),
        text: f.text,
        base: f.base,
        target: f.target,
    }
}

// The sequence with k characters more retained: the retain at its end is pending.
pub fn retain_more(rec: &[u8], ops: usize, k: usize) -> Emitter
    requires { (record_fault rec.now ≡ 0) × (ops ≡ op_count_of rec.now) × (ops ≤ max_ops) × (k ≤ max_size) }
    ensures { Grown rec.now (retain k) [] result × (result.ins ≡ 0) × (result.del ≡ 0) }
{
    let ret = ending(rec, ops, ops, Kind::Retain);
    Emitter {
        ins: 0,
        del: 0,
        ret: ret + k,
        ops: before(ops, ret),
        text: reader::inner::text_bytes(rec),
        base: reader::inner::base(rec) + k,
        target: reader::inner::target(rec) + k,
    }
}

// The sequence with k characters more deleted: the delete at its end is pending.
pub fn delete_more(rec: &[u8], ops: usize, k: usize) -> Emitter
    requires { (record_fault rec.now ≡ 0) × (ops ≡ op_count_of rec.now) × (ops ≤ max_ops) × (k ≤ max_size) }
    ensures { Grown rec.now (delete k) [] result × (result.ins ≡ 0) × (result.ret ≡ 0) }
{
    let del = ending(rec, ops, ops, Kind::Delete);
    Emitter {
        ins: 0,
        del: del + k,
        ret: 0,
        ops: before(ops, del),
        text: reader::inner::text_bytes(rec),
        base: reader::inner::base(rec) + k,
        target: reader::inner::target(rec),
    }
}

// The sequence with the text inserted: a delete at the end and the insert before it are pending. (`text` is what the contract speaks of.)
pub fn insert_more(rec: &[u8], ops: usize, text: &[u8], num: usize) -> Emitter
    requires { (record_fault rec.now ≡ 0) × (ops ≡ op_count_of rec.now) × (ops ≤ max_ops) × T (is_well_formed text.now)
        × (num ≡ number_of_chars text.now) × (length text.now ≤ max_size) }
    ensures { Grown rec.now (insert (chars text.now)) text.now result × (result.ret ≡ 0) }
{
    let del = ending(rec, ops, ops, Kind::Delete);
    let y = before(ops, del);
    let ins = ending(rec, ops, y, Kind::Insert);
    Emitter {
        ins: ins + text.len(),
        del,
        ret: 0,
        ops: before(y, ins),
        text: reader::inner::text_bytes(rec) + text.len(),
        base: reader::inner::base(rec),
        target: reader::inner::target(rec) + num,
    }
}

// The first k operations and the text of a record, moved to their places in one of n operations, and more text behind it.
pub fn settle_with(
    out: &mut [u8],
    n: usize,
    rec: &[u8],
    ops: usize,
    k: usize,
    bytes: usize,
    more: &[u8],
)
    requires { (n ≤ 2 ^ 40) × (ops ≤ 2 ^ 40) × (k ≤ ops) × (bytes ≤ 2 ^ 40) × (start_of_text ops + bytes ≤ length rec.now) }
    ensures { out.new ≡ over (start_of_text n + bytes) more.now
        (relocated ops n k bytes rec.now out.old) }
{
    places::inner::relocate(out, n, rec, ops, k, bytes);
    let at = layout::inner::text_start(n) + bytes;
    buffers::inner::copy(out, at, more, 0, more.len());
}

// The pending group is written, and the sizes in front of the record.
pub fn finish(out: &mut [u8], f: Emitter, g: Emitter)
    requires { Under (2 ^ 38) f × Under (2 ^ 40) g }
    ensures { out.new ≡ headed g (flushed g.ops f out.old) }
{
    places::inner::flush(out, g.ops, f.ops, f.ins, f.del, f.ret);
    emitter::inner::write_header(out, g);
}
