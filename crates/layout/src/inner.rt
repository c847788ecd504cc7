// Where everything stands in a record: the four sizes, the kinds, the counts, the inserted text.
ghost use Rattle.std.specs.Prelude.{◌≡◌, ◌+◌, ◌*◌, ◌^◌, ◌<◌, ◌≤◌, length};
ghost use Rattle.record.specs.Layout.{op_count_of, text_bytes_of, base_of, target_of, kinds_start, counts_start, start_of_text, kind_at, count_at};

use record::inner::{HEADER, OP_BYTES};

pub fn op_count(rec: &[u8]) -> usize
    requires { 8 ≤ length rec.now }
    ensures { (result ≡ op_count_of rec.now) × (result < 65536) }
{
    buffers::inner::word(rec, 0)
}

pub fn text_bytes(rec: &[u8]) -> usize
    requires { 8 ≤ length rec.now }
    ensures { (result ≡ text_bytes_of rec.now) × (result < 65536) }
{
    buffers::inner::word(rec, 2)
}

pub fn base(rec: &[u8]) -> usize
    requires { 8 ≤ length rec.now }
    ensures { (result ≡ base_of rec.now) × (result < 65536) }
{
    buffers::inner::word(rec, 4)
}

pub fn target(rec: &[u8]) -> usize
    requires { 8 ≤ length rec.now }
    ensures { (result ≡ target_of rec.now) × (result < 65536) }
{
    buffers::inner::word(rec, 6)
}

// The places of n operations: of the kind and of the count of operation k, and where the text begins.
pub fn kind_place(k: usize) -> usize
    requires { k ≤ 2 ^ 62 }
    ensures { result ≡ kinds_start + k }
{
    HEADER + k
}

pub fn count_place(n: usize, k: usize) -> usize
    requires { (n ≤ 2 ^ 62) × (k ≤ 2 ^ 62) }
    ensures { result ≡ counts_start n + 2 * k }
{
    HEADER + n + 2 * k
}

pub fn text_start(n: usize) -> usize
    requires { n ≤ 2 ^ 62 }
    ensures { result ≡ start_of_text n }
{
    HEADER + OP_BYTES * n
}

pub fn kind(rec: &[u8], k: usize) -> u8
    requires { (start_of_text (op_count_of rec.now) ≤ length rec.now) × (k < op_count_of rec.now) }
    ensures { result ≡ kind_at rec.now k }
{
    rec[kind_place(k)]
}

// The count of operation k of n.
pub fn count(rec: &[u8], n: usize, k: usize) -> usize
    requires { (n ≡ op_count_of rec.now) × (start_of_text (op_count_of rec.now) ≤ length rec.now) × (k < op_count_of rec.now) }
    ensures { (result ≡ count_at rec.now k) × (result < 65536) }
{
    buffers::inner::word(rec, count_place(n, k))
}
