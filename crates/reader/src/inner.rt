// What the crates above use to go through a record that was checked: its sizes, its operations, and the front of what lies ahead.
ghost use Rattle.std.specs.Prelude.{◌≡◌, ◌<◌, ◌≤◌, length};
ghost use Rattle.record.specs.Kinds.{number_of};
ghost use Rattle.record.specs.Layout.{retain_kind, delete_kind, op_count_of, max_ops, base_of, target_of, text_bytes_of, size_of, max_record, kind_at, count_at};
ghost use Rattle.record.specs.Record.{record_fault, ops};
ghost use Rattle.record.specs.InnerFront.{Stands, ahead, Place, Loads, Cut, Leaves};

use record::inner::{AT_END, AT_INSERT, Front, INSERT, Kind, RETAIN};

// The sizes that a checked record states.
pub fn op_count(rec: &[u8]) -> usize
    requires { record_fault rec.now ≡ 0 }
    ensures { (result ≡ op_count_of rec.now) × (result ≤ max_ops) }
{
    layout::inner::op_count(rec)
}

pub fn base(rec: &[u8]) -> usize
    requires { record_fault rec.now ≡ 0 }
    ensures { result ≡ base_of rec.now }
{
    layout::inner::base(rec)
}

pub fn target(rec: &[u8]) -> usize
    requires { record_fault rec.now ≡ 0 }
    ensures { result ≡ target_of rec.now }
{
    layout::inner::target(rec)
}

// How many bytes are inserted.
pub fn text_bytes(rec: &[u8]) -> usize
    requires { record_fault rec.now ≡ 0 }
    ensures { (result ≡ text_bytes_of rec.now) × (result < 65536) }
{
    layout::inner::text_bytes(rec)
}

// How many bytes the record has.
pub fn size(rec: &[u8]) -> usize
    requires { record_fault rec.now ≡ 0 }
    ensures { (result ≡ size_of rec.now) × (result ≤ max_record) × (result ≤ length rec.now) }
{
    let n = layout::inner::op_count(rec);
    layout::inner::text_start(n) + layout::inner::text_bytes(rec)
}

// The kind that has this number.
fn kind_of(number: u8) -> Kind
    requires { (retain_kind ≤ number) × (number ≤ delete_kind) }
    ensures { number_of result ≡ number }
{
    match number {
        RETAIN => Kind::Retain,
        INSERT => Kind::Insert,
        _ => Kind::Delete,
    }
}

// What stands at operation k: its kind, and its count of n.
pub fn kind(rec: &[u8], k: usize) -> Kind
    requires { (record_fault rec.now ≡ 0) × (k < op_count_of rec.now) }
    ensures { number_of result ≡ kind_at rec.now k }
{
    kind_of(layout::inner::kind(rec, k))
}

pub fn count(rec: &[u8], n: usize, k: usize) -> usize
    requires { (record_fault rec.now ≡ 0) × (n ≡ op_count_of rec.now) × (k < op_count_of rec.now) }
    ensures { (result ≡ count_at rec.now k) × (result < 65536) }
{
    layout::inner::count(rec, n, k)
}

// The front of a whole record of n.
pub fn first_front(rec: &[u8], n: usize) -> Front
    requires { (record_fault rec.now ≡ 0) × (n ≡ op_count_of rec.now) × (n ≤ max_ops) }
    ensures { Stands rec.now result × (ahead rec.now result ≡ ops rec.now) }
{
    load(rec, n, 0, layout::inner::text_start(n))
}

// The front at operation k of n, where the text of the operations from k on begins at `at`.
pub fn load(rec: &[u8], n: usize, k: usize, at: usize) -> Front
    requires { (n ≡ op_count_of rec.now) × Place rec.now k at }
    ensures { Loads rec.now k at result }
{
    if n <= k {
        return Front {
            kind: AT_END,
            left: 0,
            from: at,
            to: at,
            next: k,
        };
    }
    let kind = layout::inner::kind(rec, k) as usize;
    let count = layout::inner::count(rec, n, k);
    if kind == AT_INSERT {
        let to = at + count;
        let chars = counting::inner::count_in(rec, at, to);
        return Front {
            kind,
            left: chars,
            from: at,
            to,
            next: k + 1,
        };
    }
    Front {
        kind,
        left: count,
        from: at,
        to: at,
        next: k + 1,
    }
}

// The place in its text that is k characters behind the front: k bytes, where each character is one.
pub fn cut(rec: &[u8], f: Front, k: usize) -> usize
    requires { Stands rec.now f × (k ≤ f.left) }
    ensures { Cut rec.now f k result }
{
    let from = f.from;
    let to = f.to;
    if k == f.left {
        return to;
    }
    if from == to {
        return to;
    }
    if to - from == f.left {
        return from + k;
    }
    let text = &rec[from..to];
    from + utf8::inner::skip(text, 0, k)
}

// What stays in front once k characters are used up, `mid` being their place in the text.
pub fn rest(rec: &[u8], n: usize, f: Front, k: usize, mid: usize) -> Front
    requires { (n ≡ op_count_of rec.now) × Stands rec.now f × (k ≤ f.left) × Cut rec.now f k mid }
    ensures { Leaves rec.now f k result }
{
    let left = f.left;
    let to = f.to;
    let next = f.next;
    if k == left {
        return load(rec, n, next, to);
    }
    Front {
        kind: f.kind,
        left: left - k,
        from: mid,
        to,
        next,
    }
}
