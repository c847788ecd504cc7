// The partial results of composing a log's revisions, each in the buffer of the one before.
ghost use Rattle.std.specs.Prelude.{◌≡◌, ◌≤◌, T, length};
ghost use Rattle.edits.specs.Compose.{compose as composeOf};
ghost use Rattle.record.specs.Layout.{max_record, max_size, base_of, target_of};
ghost use Rattle.record.specs.Record.{ops, record_fault};
ghost use Rattle.session_log.specs.Log.{count_of, start_of, readable};
ghost use Rattle.session.specs.Rows.{retain_whole as still_of};
ghost use Rattle.partial.specs.InnerSumming.{Holds, Makes, Sums};

use answers::Refusal;
use session_log::inner::LOG_HEADER;

// The sequence that retains the starting length is written: the number of bytes of its record.
fn retain_all(start: usize, cur: &mut [u8]) -> usize
    requires { (start ≤ max_size) × (max_record ≤ length cur.old) }
    ensures { Holds (still_of start) result cur.new }
{
    let n = places::inner::one_if_any(start);
    let e = emitter::inner::new_emitter();
    let f = emitter::inner::retain(e, start);
    let g = emitter::inner::finish(cur, n, f);
    emitter::inner::write_header(cur, g);
    emitter::inner::size(g)
}

// One revision more: the result takes the place of what the revision is composed with.
fn compose_next(rec: &[u8], cur: &mut [u8], next: &mut [u8]) -> Result<usize, Refusal>
    requires { (record_fault cur.old ≡ 0) × (record_fault rec.now ≡ 0) × (target_of cur.old ≡ base_of rec.now)
        × (max_record ≤ length cur.old) × (max_record ≤ length next.old) }
    ensures { Makes (composeOf (ops cur.old) (ops rec.now)) result cur.new }
{
    let k = compose::inner::composed(cur, rec, next)?;
    buffers::inner::copy(cur, 0, next, 0, k);
    Ok(k)
}

// All revisions of a log that can be read: the number of bytes of the last result.
pub fn sum_up(
    log: &[u8],
    count: usize,
    start: usize,
    cur: &mut [u8],
    next: &mut [u8],
) -> Result<usize, Refusal>
    requires { T (readable log.now) × (count ≡ count_of log.now) × (start ≡ start_of log.now) × (start ≤ max_size)
        × (max_record ≤ length cur.old) × (max_record ≤ length next.old) }
    ensures { Sums log.now result cur.new }
{
    let mut size = retain_all(start, cur);
    let mut at = LOG_HEADER;
    for _k in 0..count {
        let rec = &log[at..];
        size = compose_next(rec, cur, next)?;
        at += reader::inner::size(rec);
    }
    Ok(size)
}
