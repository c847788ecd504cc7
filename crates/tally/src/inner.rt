// The passes of the check over the kinds and the counts of many entries, in 16 and 8 bits. They are branch-free, so that the compiler
// vectorises them: the narrower their numbers, the more entries are done at once. Others are gone through by `entries`.
ghost use Rattle.std.specs.Prelude.{◌≡◌, ◌+◌, ◌-◌, ◌<◌, ◌≤◌, length};
ghost use Rattle.record.specs.Layout.{op_count_of, start_of_text, max_ops};
ghost use Rattle.entries.specs.InnerTally.{HasEntries, entry, Tallied, sum_from, clash_at};
ghost use Rattle.tally.specs.InnerParts.{parted_by, Parted, Whole};
ghost use Rattle.tally.specs.InnerSums.{entries_of};

use entries::inner::{Tally, pick};
use record::inner::{DELETE, INSERT, RETAIN};

// What the kinds and the counts come to: the bytes inserted, whether all neighbours may stand so, the characters of
// the text before the edit, and those of them that stay.
#[derive(Clone, Copy)]
pub struct Sums {
    pub inserts: usize,
    pub ordered: bool,
    pub base: usize,
    pub kept: usize,
}

// All counts, or 65,536 where the entries are so few that one pass in 32 bits was measured to be faster.
fn all_counts(rec: &[u8], n: usize) -> u32
    requires { HasEntries rec.now n }
    ensures { Whole rec.now n result }
{
    if n < 32 {
        return TOO_MANY;
    }
    let mut all: u32 = 0;
    for k in 0..n {
        all += layout::inner::count(rec, n, k) as u32;
    }
    all
}

// How many counts are 0, and the counts of each kind.
#[derive(Clone, Copy)]
struct Parts {
    empty: u16,
    inserts: u16,
    kept: u16,
    deleted: u16,
}

// One entry more.
fn add_part(p: Parts, kind: u8, count: usize) -> Parts
    requires { (p.empty ≤ max_ops) × (p.inserts + p.kept + p.deleted + count < 65536) }
    ensures { result ≡ parted_by p (entry kind count) }
{
    let c = count as u32;
    Parts {
        empty: p.empty + pick(c == 0, 1) as u16,
        inserts: p.inserts + pick(kind == INSERT, c) as u16,
        kept: p.kept + pick(kind == RETAIN, c) as u16,
        deleted: p.deleted + pick(kind == DELETE, c) as u16,
    }
}

// Where all counts together are under 65,536, 16 bits are enough for each part of them.
fn sum_parts(rec: &[u8], n: usize, all: u32) -> Parts
    requires { HasEntries rec.now n × (all < 65536) × Whole rec.now n all }
    ensures { Parted rec.now n result }
{
    let mut p = Parts {
        empty: 0,
        inserts: 0,
        kept: 0,
        deleted: 0,
    };
    for k in 0..n {
        let kind = layout::inner::kind(rec, k);
        let count = layout::inner::count(rec, n, k);
        p = add_part(p, kind, count);
    }
    p
}

// So many neighbours are counted in 8 bits: 7 times the 32 that are done at once.
const NEIGHBOURS: usize = 224;

// All counts together for which 16 bits are enough.
const MOST_COUNTS: u32 = 65535;

const TOO_MANY: u32 = MOST_COUNTS + 1;

// How many neighbours may not stand so, of the entries from..to and each one before.
fn clashes_in(rec: &[u8], from: usize, to: usize) -> u8
    requires { (1 ≤ from) × (to ≤ op_count_of rec.now) × (to ≤ from + 224) × (start_of_text (op_count_of rec.now) ≤ length rec.now) }
    ensures { (result ≡ sum_from (clash_at rec.now) (from - 1) (to - from)) × (result ≤ to - from) }
{
    let mut clashes: u8 = 0;
    for k in from..to {
        let last = layout::inner::kind(rec, k - 1);
        let kind = layout::inner::kind(rec, k);
        clashes += pick(!entries::inner::may_follow(last, kind), 1) as u8;
    }
    clashes
}

// How many neighbours of all entries may not stand so.
fn clashes(rec: &[u8], n: usize) -> u32
    requires { HasEntries rec.now n }
    ensures { (result ≡ sum_from (clash_at rec.now) 0 (n - 1)) × (result ≤ n) }
{
    let mut clashes: u32 = 0;
    let mut from = 1;
    while from + NEIGHBOURS < n {
        clashes += clashes_in(rec, from, from + NEIGHBOURS) as u32;
        from += NEIGHBOURS;
    }
    clashes + clashes_in(rec, from, n) as u32
}

// What can't be has a count of 0, or one that is of no kind.
fn tally_all(rec: &[u8], n: usize) -> Tally
    requires { HasEntries rec.now n }
    ensures { Tallied rec.now n result }
{
    if n < 8 {
        return entries::inner::tally_short(rec, n);
    }
    let all = all_counts(rec, n);
    if MOST_COUNTS < all {
        return entries::inner::tally_wide(rec, n);
    }
    let p = sum_parts(rec, n, all);
    let inserts = p.inserts as u32;
    let kept = p.kept as u32;
    let others = all - inserts - kept - p.deleted as u32;
    Tally {
        invalid: p.empty as u32 + others,
        inserts: inserts,
        all: all,
        kept: kept,
        clashes: clashes(rec, n),
    }
}

// What the tally of n entries comes to: nothing where a kind or a count can't be. (The record is what the contract speaks of.)
fn sums_of(rec: &[u8], n: usize, t: Tally) -> Option<Sums>
    requires { HasEntries rec.now n × Tallied rec.now n t }
    ensures { result ≡ entries_of rec.now }
{
    if t.invalid != 0 {
        return None;
    }
    Some(Sums {
        inserts: t.inserts as usize,
        ordered: t.clashes == 0,
        base: (t.all - t.inserts) as usize,
        kept: t.kept as usize,
    })
}

// The sums of the entries, unless a kind or a count can't be.
pub fn sum_up(rec: &[u8], n: usize) -> Option<Sums>
    requires { HasEntries rec.now n }
    ensures { result ≡ entries_of rec.now }
{
    let t = tally_all(rec, n);
    sums_of(rec, n, t)
}

// `sum_up`, entry by entry. (A second caller of `sum_up` would have the compiler no longer inline it into the check, which every call
// begins with.)
pub fn sum_up_by_entry(rec: &[u8], n: usize) -> Option<Sums>
    requires { HasEntries rec.now n }
    ensures { result ≡ entries_of rec.now }
{
    let t = entries::inner::tally_wide(rec, n);
    sums_of(rec, n, t)
}
