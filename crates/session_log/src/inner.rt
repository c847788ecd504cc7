// A log gone through once.
ghost use Rattle.std.specs.Prelude.{◌≡◌, ◌≤◌, length, if◌then◌else◌, nat_eq};
ghost use Rattle.record.specs.Layout.{max_size};
ghost use Rattle.session_log.specs.InnerScan.{Scans};
ghost use Rattle.session_log.specs.Log.{count_of, start_of, max_revisions};
ghost use Rattle.session_log.specs.InnerSteps.{Steps};

use record::inner::MAX_SIZE;

// The limit of document 01's refusal 6: at most so many revisions.
pub const MAX_REVISIONS: usize = 256;

// Where the records begin, behind the number of revisions and the starting length.
pub const LOG_HEADER: usize = 4;

// The number of revisions, the starting length and the size of the contents; where revision r ends, and the length after it
// (where there is no revision r, the last two are 0).
#[derive(Clone, Copy)]
pub struct Scan {
    pub count: usize,
    pub start: usize,
    pub size: usize,
    pub at: usize,
    pub len: usize,
}

// On the way: where a revision ends, and the length after it.
#[derive(Clone, Copy)]
pub(crate) struct Spot {
    pub at: usize,
    pub len: usize,
}

// One pass over the log, which gives nothing where it can't be read; revision r is looked for on the way.
pub fn read(log: &[u8], r: u64) -> Option<Scan>
    ensures { Scans log.now r result }
{
    if log.len() < LOG_HEADER {
        return None;
    }
    let count = buffers::inner::word(log, 0);
    if MAX_REVISIONS < count {
        return None;
    }
    let start = buffers::inner::word(log, 2);
    if MAX_SIZE < start {
        return None;
    }
    go_through(log, count, start, r)
}

fn go_through(log: &[u8], count: usize, start: usize, r: u64) -> Option<Scan>
    requires { (4 ≤ length log.now) × (count ≡ count_of log.now) × (count ≤ max_revisions) × (start ≡ start_of log.now)
        × (start ≤ max_size) }
    ensures { Scans log.now r result }
{
    let mut here = Spot {
        at: LOG_HEADER,
        len: start,
    };
    let mut mark = Spot { at: 0, len: 0 };
    for k in 0..count {
        mark = marked(k, r, here, mark);
        here = next_revision(log, here)?;
    }
    mark = marked(count, r, here, mark);
    Some(Scan {
        count,
        start,
        size: here.at,
        at: mark.at,
        len: mark.len,
    })
}

// Revision r is the one to be remembered. (By its numbers: a struct chosen whole is read before its parts are stored.)
fn marked(k: usize, r: u64, here: Spot, kept: Spot) -> Spot
    ensures { result ≡ (if nat_eq k r then here else kept) }
{
    if k as u64 == r {
        return Spot {
            at: here.at,
            len: here.len,
        };
    }
    Spot {
        at: kept.at,
        len: kept.len,
    }
}

// The spot behind the record that stands here, unless the log can't be read.
fn next_revision(log: &[u8], here: Spot) -> Option<Spot>
    requires { here.at ≤ length log.now }
    ensures { Steps log.now here result }
{
    let at = here.at;
    let rec = &log[at..];
    let Ok(size) = operation::check(rec) else {
        return None;
    };
    if reader::inner::base(rec) != here.len {
        return None;
    }
    Some(Spot {
        at: at + size,
        len: reader::inner::target(rec),
    })
}
