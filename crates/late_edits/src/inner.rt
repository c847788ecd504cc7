// An edit that was written against an older revision is rebased in buffers that are as short as will do, and appended.
ghost use Rattle.std.specs.Prelude.{◌≡◌, ◌-◌, ◌^◌, ◌≤◌, length};
ghost use Rattle.record.specs.Layout.{start_of_text, max_ops, max_record};
ghost use Rattle.session_log.specs.Log.{count_of};
ghost use Rattle.append.specs.InnerAccepting.{Admitted, Tries, Accepts, MovedPast};

use answers::Refusal;
use counterparts::inner::Stop;
use record::inner::{HEADER, MAX_OPS, MAX_RECORD, OP_BYTES};
use session_log::inner::Scan;

// The buffers of two lengths, in bytes: for the edit, for its counterparts, and the stages, by the operations that they have places for.
const SMALL_EDIT: usize = 256;

const SMALL_PARTS: usize = 512;

const SMALL_OPS: usize = 32;

const SMALL_STAGE: usize = HEADER + OP_BYTES * SMALL_OPS;

pub const MEDIUM_EDIT: usize = 1024;

const MEDIUM_PARTS: usize = 8192;

const MEDIUM_OPS: usize = 128;

const MEDIUM_STAGE: usize = HEADER + OP_BYTES * MEDIUM_OPS;

// A stage in which every record within the limits has its places.
const LARGE_STAGE: usize = HEADER + OP_BYTES * MAX_OPS;

// The edit is rebased in buffers of any length, by one run, which keeps the counterparts, too.
fn try_in(
    edit: &[u8],
    r: u64,
    log: &mut [u8],
    s: Scan,
    n: usize,
    out: &mut [u8],
    cur: &mut [u8],
    next: &mut [u8],
    side: &mut [u8],
    parts: &mut [u8],
    slots: usize,
) -> Result<(usize, usize), Stop>
    requires { Admitted edit.now r log.old s × (n ≡ count_of log.old - r) × (length next.old ≡ start_of_text slots)
        × (length side.old ≡ start_of_text slots) × (slots ≤ max_ops) }
    ensures { Tries edit.now r log.old out.old result log.new out.new }
{
    let size = reader::inner::size(edit);
    if cur.len() < size {
        return Err(Stop::Short);
    }
    append::inner::load_edit(cur, edit);
    let bytes = rebase::inner::rebase(log, s.at, n, edit, cur, next, side, parts, slots)?;
    append::inner::deliver(edit, r, log, s, out, cur, parts, bytes)
}

// The run once more, now that all is decided: the counterparts go to the output.
fn write_again(
    edit: &[u8],
    r: u64,
    log: &mut [u8],
    s: Scan,
    n: usize,
    out: &mut [u8],
    cur: &mut [u8],
    next: &mut [u8],
    side: &mut [u8],
    bytes: usize,
) -> Result<(usize, usize), Refusal>
    requires { Admitted edit.now r log.old s × (n ≡ count_of log.old - r) × (max_record ≤ length cur.old)
        × (length next.old ≡ start_of_text max_ops) × (length side.old ≡ start_of_text max_ops)
        × MovedPast edit.now r log.old bytes cur.old }
    ensures { Accepts edit.now r log.old out.old result log.new out.new }
{
    let size = reader::inner::size(cur);
    if !append::inner::has_room(log, s.size, size, out, bytes) {
        return Err(Refusal::Room);
    }
    append::inner::load_edit(cur, edit);
    let _ = rebase::inner::rebase(log, s.at, n, edit, cur, next, side, out, MAX_OPS);
    append::inner::append(log, s, cur, size);
    Ok((size, bytes))
}

// The edit is rebased in buffers in which every record has a place: the first run keeps no counterparts.
fn in_full_buffers(
    edit: &[u8],
    r: u64,
    log: &mut [u8],
    s: Scan,
    n: usize,
    out: &mut [u8],
    cur: &mut [u8],
    next: &mut [u8],
    side: &mut [u8],
) -> Result<(usize, usize), Refusal>
    requires { Admitted edit.now r log.old s × (n ≡ count_of log.old - r) × (max_record ≤ length cur.old)
        × (length next.old ≡ start_of_text max_ops) × (length side.old ≡ start_of_text max_ops) }
    ensures { Accepts edit.now r log.old out.old result log.new out.new }
{
    let mut none = [0u8; 0];
    append::inner::load_edit(cur, edit);
    match rebase::inner::rebase(log, s.at, n, edit, cur, next, side, &mut none, MAX_OPS) {
        Err(Stop::Refused(x)) => Err(x),
        Ok(bytes) => write_again(edit, r, log, s, n, out, cur, next, side, bytes),
        // never: every record has a place
        Err(Stop::Short) => Err(Refusal::Room),
    }
}

pub fn in_large_buffers(
    edit: &[u8],
    r: u64,
    log: &mut [u8],
    s: Scan,
    n: usize,
    out: &mut [u8],
) -> Result<(usize, usize), Refusal>
    requires { Admitted edit.now r log.old s × (n ≡ count_of log.old - r) }
    ensures { Accepts edit.now r log.old out.old result log.new out.new }
{
    let mut cur = [0u8; MAX_RECORD];
    let mut next = [0u8; LARGE_STAGE];
    let mut side = [0u8; LARGE_STAGE];
    in_full_buffers(edit, r, log, s, n, out, &mut cur, &mut next, &mut side)
}

// The edit is rebased in buffers of these lengths, in bytes; the stages have places for `slots` operations.
fn in_short_buffers<const EDIT: usize, const STAGE: usize, const PARTS: usize>(
    edit: &[u8],
    r: u64,
    log: &mut [u8],
    s: Scan,
    n: usize,
    out: &mut [u8],
    slots: usize,
) -> Result<(usize, usize), Stop>
    requires { Admitted edit.now r log.old s × (n ≡ count_of log.old - r) × (STAGE ≡ start_of_text slots) × (slots ≤ max_ops)
        × (EDIT ≤ 2 ^ 40) × (PARTS ≤ 2 ^ 40) }
    ensures { Tries edit.now r log.old out.old result log.new out.new }
{
    let mut cur = [0u8; EDIT];
    let mut next = [0u8; STAGE];
    let mut side = [0u8; STAGE];
    let mut parts = [0u8; PARTS];
    try_in(
        edit, r, log, s, n, out, &mut cur, &mut next, &mut side, &mut parts, slots,
    )
}

pub fn in_medium_buffers(
    edit: &[u8],
    r: u64,
    log: &mut [u8],
    s: Scan,
    n: usize,
    out: &mut [u8],
) -> Result<(usize, usize), Refusal>
    requires { Admitted edit.now r log.old s × (n ≡ count_of log.old - r) }
    ensures { Accepts edit.now r log.old out.old result log.new out.new }
{
    // the answer is taken apart because one that is handed on whole is copied
    match in_short_buffers::<MEDIUM_EDIT, MEDIUM_STAGE, MEDIUM_PARTS>(
        edit, r, log, s, n, out, MEDIUM_OPS,
    ) {
        Ok((k, l)) => Ok((k, l)),
        Err(Stop::Refused(x)) => Err(x),
        Err(Stop::Short) => in_large_buffers(edit, r, log, s, n, out),
    }
}

pub fn in_small_buffers(
    edit: &[u8],
    r: u64,
    log: &mut [u8],
    s: Scan,
    n: usize,
    out: &mut [u8],
) -> Result<(usize, usize), Refusal>
    requires { Admitted edit.now r log.old s × (n ≡ count_of log.old - r) }
    ensures { Accepts edit.now r log.old out.old result log.new out.new }
{
    // the answer is taken apart because one that is handed on whole is copied
    match in_short_buffers::<SMALL_EDIT, SMALL_STAGE, SMALL_PARTS>(
        edit, r, log, s, n, out, SMALL_OPS,
    ) {
        Ok((k, l)) => Ok((k, l)),
        Err(Stop::Refused(x)) => Err(x),
        Err(Stop::Short) => in_medium_buffers(edit, r, log, s, n, out),
    }
}
