// The passes of the check that sum up a record's kinds and counts entry by entry. The one over any entries is branch-free, so that the
// compiler vectorises it; the one over a few goes by their kinds.
ghost use Rattle.std.specs.Prelude.{◌≡◌, ◌^◌, ◌<◌, ◌≤◌, not};
ghost use Rattle.record.specs.Record.{sound_entry};
ghost use Rattle.entries.specs.InnerTally.{HasEntries, picked, entry, can_follow, tallied, Tallied};

use record::inner::{DELETE, INSERT, RETAIN};

// n where it counts, else 0.
pub fn pick(counts: bool, n: u32) -> u32
    ensures { (result ≡ picked counts n) × (result ≤ n) }
{
    if counts { n } else { 0 }
}

fn is_sound(kind: u8, count: u32) -> bool
    ensures { result ≡ sound_entry (entry kind count) }
{
    if kind == 0 {
        return false;
    }
    if DELETE < kind {
        return false;
    }
    0 < count
}

pub fn may_follow(last: u8, kind: u8) -> bool
    ensures { result ≡ can_follow last kind }
{
    if last == kind {
        return false;
    }
    if last == DELETE {
        return kind != INSERT;
    }
    true
}

// What can't be (0 where all can), the bytes inserted, all counts, those of retains, and how many neighbours may not
// stand so.
#[derive(Clone, Copy)]
pub struct Tally {
    pub invalid: u32,
    pub inserts: u32,
    pub all: u32,
    pub kept: u32,
    pub clashes: u32,
}

// One entry more.
fn add_entry(t: Tally, kind: u8, count: usize, clashes: bool) -> Tally
    requires { (t.invalid ≤ 2 ^ 31) × (t.all ≤ 2 ^ 31) × (t.inserts ≤ t.all) × (t.kept ≤ t.all) × (t.clashes ≤ 2 ^ 31)
        × (count < 65536) }
    ensures { result ≡ tallied t (entry kind count) clashes }
{
    let c = count as u32;
    Tally {
        invalid: t.invalid + pick(!is_sound(kind, c), 1),
        inserts: t.inserts + pick(kind == INSERT, c),
        all: t.all + c,
        kept: t.kept + pick(kind == RETAIN, c),
        clashes: t.clashes + pick(clashes, 1),
    }
}

// Any entries, in one pass: in 32 bits, that are enough for all sums.
pub fn tally_wide(rec: &[u8], n: usize) -> Tally
    requires { HasEntries rec.now n }
    ensures { Tallied rec.now n result }
{
    let mut t = Tally {
        invalid: 0,
        inserts: 0,
        all: 0,
        kept: 0,
        clashes: 0,
    };
    if n == 0 {
        return t;
    }
    let first = layout::inner::kind(rec, 0);
    let one = layout::inner::count(rec, n, 0);
    t = add_entry(t, first, one, false);
    for k in 1..n {
        let last = layout::inner::kind(rec, k - 1);
        let kind = layout::inner::kind(rec, k);
        let count = layout::inner::count(rec, n, k);
        t = add_entry(t, kind, count, !may_follow(last, kind));
    }
    t
}

// One entry more, by its kind.
fn add_entry_by_kind(t: Tally, last: u8, kind: u8, count: u32) -> Tally
    requires { (t.invalid ≤ 2 ^ 31) × (t.all ≤ 2 ^ 31) × (t.inserts ≤ t.all) × (t.kept ≤ t.all) × (t.clashes ≤ 2 ^ 31)
        × (count < 65536) }
    ensures { result ≡ tallied t (entry kind count) (not (can_follow last kind)) }
{
    let invalid = t.invalid + pick(count == 0, 1);
    let all = t.all + count;
    if kind == RETAIN {
        return Tally {
            invalid,
            inserts: t.inserts,
            all,
            kept: t.kept + count,
            clashes: t.clashes + pick(!may_follow(last, RETAIN), 1),
        };
    }
    if kind == INSERT {
        return Tally {
            invalid,
            inserts: t.inserts + count,
            all,
            kept: t.kept,
            clashes: t.clashes + pick(!may_follow(last, INSERT), 1),
        };
    }
    if kind == DELETE {
        return Tally {
            invalid,
            inserts: t.inserts,
            all,
            kept: t.kept,
            clashes: t.clashes + pick(!may_follow(last, DELETE), 1),
        };
    }
    Tally {
        invalid: t.invalid + 1,
        inserts: t.inserts,
        all,
        kept: t.kept,
        clashes: t.clashes + pick(!may_follow(last, kind), 1),
    }
}

// A few entries, one after another: with branches that is the fewest instructions for those of a keystroke. Kind 0 stands
// before the first: only what can't be may not follow it.
pub fn tally_short(rec: &[u8], n: usize) -> Tally
    requires { HasEntries rec.now n }
    ensures { Tallied rec.now n result }
{
    let mut t = Tally {
        invalid: 0,
        inserts: 0,
        all: 0,
        kept: 0,
        clashes: 0,
    };
    let mut last: u8 = 0;
    for k in 0..n {
        let kind = layout::inner::kind(rec, k);
        let count = layout::inner::count(rec, n, k) as u32;
        t = add_entry_by_kind(t, last, kind, count);
        last = kind;
    }
    t
}
