// Operations at their places in a record of n, by their numbers: one is written, the up to three of a group are, and those of a record
// with more places are moved to their own. A byte that has no place in the buffer is not written, but where a contract asks for room.
ghost use Rattle.std.specs.Prelude.{◌≡◌, ◌+◌, ◌*◌, ◌^◌, ◌<◌, ◌≤◌, ◌&&◌, length, nat_le};
ghost use Rattle.record.specs.Kinds.{number_of};
ghost use Rattle.record.specs.Layout.{counts_start, start_of_text};
ghost use Rattle.places.specs.InnerOps.{one, written_op_if_any, written_op, flushed_at, relocated_ops, relocated};

use record::inner::Kind;

// How many operations a count takes: none where it is 0.
pub fn one_if_any(c: usize) -> usize
    ensures { (result ≡ one c) × (result ≤ 1) }
{
    if c == 0 { 0 } else { 1 }
}

// One operation, unless its count is 0: the number of operations afterwards. (Its bytes are written out: with `write_op` here the
// compiler no longer inlines `push`.)
fn write_op_if_any(out: &mut [u8], n: usize, ops: usize, kind: Kind, count: usize) -> usize
    requires { (n ≤ 2 ^ 41) × (ops ≤ 2 ^ 41) }
    ensures { (result ≡ ops + one count) × (result ≤ ops + 1) × (out.new ≡ written_op_if_any n ops (number_of kind) count out.old) }
{
    if count == 0 {
        return ops;
    }
    let k = layout::inner::kind_place(ops);
    let at = layout::inner::count_place(n, ops);
    if at + 1 < out.len() {
        out[k] = u8::from(kind);
        out[at] = (count % 256) as u8;
        out[at + 1] = (count / 256 % 256) as u8;
        return ops + 1;
    }
    buffers::inner::put(out, k, u8::from(kind));
    buffers::inner::put16(out, at, count);
    ops + 1
}

// Kind and count of operation k of n, which have their places in the buffer.
pub fn write_op(out: &mut [u8], n: usize, k: usize, kind: Kind, count: usize)
    requires { (n ≤ 2 ^ 41) × (k ≤ 2 ^ 41) × (counts_start n + 2 * k + 1 < length out.old) }
    ensures { out.new ≡ written_op n k (number_of kind) count out.old }
{
    let at = layout::inner::count_place(n, k);
    out[layout::inner::kind_place(k)] = u8::from(kind);
    out[at] = (count % 256) as u8;
    out[at + 1] = (count / 256 % 256) as u8;
}

// Whether a group ends with a retain, and three operations have their places.
pub fn group_fits(room: usize, n: usize, ops: usize, ret: usize) -> bool
    requires { (n ≤ 2 ^ 40) × (ops ≤ 2 ^ 40) }
    ensures { result ≡ (nat_le 1 ret && (nat_le (ops + 3) n && nat_le (counts_start n + 2 * ops + 6) room)) }
{
    if ret == 0 {
        return false;
    }
    if n <= ops + 2 {
        return false;
    }
    layout::inner::count_place(n, ops) + 6 <= room
}

// `flush` for a group that ends with a retain, where three operations have their places. No count is asked about: an operation of
// count 0 is written, too, and the next one over it.
pub fn write_group(
    out: &mut [u8],
    n: usize,
    ops: usize,
    ins: usize,
    del: usize,
    ret: usize,
) -> usize
    requires { (n ≤ 2 ^ 40) × (ops ≤ 2 ^ 40) × (0 < ret) × (ops + 2 < n) × (counts_start n + 2 * ops + 5 < length out.old) }
    ensures { (result ≡ ops + one ins + one del + one ret) × (result ≤ ops + 3)
        × (out.new ≡ flushed_at n ops ins del ret out.old) }
{
    write_op(out, n, ops, Kind::Insert, ins);
    let x = ops + one_if_any(ins);
    write_op(out, n, x, Kind::Delete, del);
    let y = x + one_if_any(del);
    write_op(out, n, y, Kind::Retain, ret);
    y + 1
}

// A group's operations, by numbers: a struct would go through memory. The number of operations afterwards.
pub fn flush(out: &mut [u8], n: usize, ops: usize, ins: usize, del: usize, ret: usize) -> usize
    requires { (n ≤ 2 ^ 40) × (ops ≤ 2 ^ 40) }
    ensures { (result ≡ ops + one ins + one del + one ret) × (result ≤ ops + 3)
        × (out.new ≡ flushed_at n ops ins del ret out.old) }
{
    if group_fits(out.len(), n, ops, ret) {
        return write_group(out, n, ops, ins, del, ret);
    }
    let x = write_op_if_any(out, n, ops, Kind::Insert, ins);
    let y = write_op_if_any(out, n, x, Kind::Delete, del);
    write_op_if_any(out, n, y, Kind::Retain, ret)
}

// From a record with places for `slots` operations the first k counts and kinds go to their places in one of n.
pub fn relocate_ops(out: &mut [u8], n: usize, stage: &[u8], slots: usize, k: usize)
    requires { (n ≤ 2 ^ 40) × (slots ≤ 2 ^ 40) × (k ≤ slots) × (start_of_text slots ≤ length stage.now) }
    ensures { out.new ≡ relocated_ops slots n k stage.now out.old }
{
    let kinds = layout::inner::kind_place(0);
    let from = layout::inner::count_place(slots, 0);
    buffers::inner::copy_short(
        out,
        layout::inner::count_place(n, 0),
        stage,
        from,
        from + 2 * k,
    );
    buffers::inner::copy_short(out, kinds, stage, kinds, kinds + k);
}

// `relocate_ops`, and the text. (The moves are written out: a call below this one would wait for its arguments, a store-forwarding stall.)
pub fn relocate(out: &mut [u8], n: usize, stage: &[u8], slots: usize, k: usize, text: usize)
    requires { (n ≤ 2 ^ 40) × (slots ≤ 2 ^ 40) × (k ≤ slots) × (start_of_text slots + text ≤ length stage.now) }
    ensures { out.new ≡ relocated slots n k text stage.now out.old }
{
    let kinds = layout::inner::kind_place(0);
    let counts = layout::inner::count_place(slots, 0);
    let from = layout::inner::text_start(slots);
    buffers::inner::copy_short(out, layout::inner::text_start(n), stage, from, from + text);
    buffers::inner::copy_short(
        out,
        layout::inner::count_place(n, 0),
        stage,
        counts,
        counts + 2 * k,
    );
    buffers::inner::copy_short(out, kinds, stage, kinds, kinds + k);
}
