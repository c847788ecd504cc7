// What `accept` does once an edit is admitted: its record goes behind the contents of the log, and the counterparts to the output.
ghost use Rattle.std.specs.Prelude.{◌≡◌, ◌+◌, ◌^◌, ◌≤◌, length, take};
ghost use Rattle.record.specs.Record.{ops, record_fault};
ghost use Rattle.record.specs.Layout.{size_of};
ghost use Rattle.session_log.specs.Log.{count_of, size_of_log, max_revisions};
ghost use Rattle.session.specs.Session.{append as appended};
ghost use Rattle.counterparts.specs.InnerRunning.{Holds};
ghost use Rattle.append.specs.InnerAccepting.{Rooms, Admitted, Accepts, MovedPast, Stored, Tries};

use answers::Refusal;
use counterparts::inner::Stop;
use session_log::inner::Scan;

// Whether the log, of which `used` bytes are taken, has room for `size` more, and the output for the counterparts.
pub fn has_room(log: &[u8], used: usize, size: usize, out: &[u8], bytes: usize) -> bool
    requires { used ≤ length log.now }
    ensures { Rooms log.now used size out.now bytes result }
{
    if log.len() - used < size {
        return false;
    }
    bytes <= out.len()
}

// A record of `size` bytes behind the log's contents, and one revision more.
pub fn append(log: &mut [u8], s: Scan, rec: &[u8], size: usize)
    requires { (s.count ≡ count_of log.old) × (s.count ≤ max_revisions) × (s.size ≡ size_of_log log.old) × (s.size ≤ 2 ^ 50)
        × (size ≤ length rec.now) × (s.size + size ≤ length log.old) }
    ensures { log.new ≡ appended log.old (take size rec.now) }
{
    buffers::inner::copy(log, s.size, rec, 0, size);
    buffers::inner::put16(log, 0, s.count + 1);
}

// Against the newest revision the edit is appended as it is.
pub fn append_unmoved(
    edit: &[u8],
    r: u64,
    log: &mut [u8],
    s: Scan,
    out: &mut [u8],
) -> Result<(usize, usize), Refusal>
    requires { Admitted edit.now r log.old s × (r ≡ count_of log.old) }
    ensures { Accepts edit.now r log.old out.old result log.new out.new }
{
    let size = reader::inner::size(edit);
    if !has_room(log, s.size, size, out, 0) {
        return Err(Refusal::Room);
    }
    append(log, s, edit, size);
    Ok((size, 0))
}

// The edit's record at the front of a buffer.
pub fn load_edit(cur: &mut [u8], edit: &[u8])
    requires { (record_fault edit.now ≡ 0) × (size_of edit.now ≤ length cur.old) }
    ensures { Holds (ops edit.now) cur.new × (size_of edit.now ≤ length cur.new) }
{
    let size = reader::inner::size(edit);
    buffers::inner::copy(cur, 0, edit, 0, size);
}

// What came out of the run goes into the log, the counterparts to the output, unless it was made in buffers that were too short.
pub fn deliver(
    edit: &[u8],
    r: u64,
    log: &mut [u8],
    s: Scan,
    out: &mut [u8],
    cur: &[u8],
    parts: &[u8],
    bytes: usize,
) -> Result<(usize, usize), Stop>
    requires { Admitted edit.now r log.old s × MovedPast edit.now r log.old bytes cur.now
        × Stored edit.now r log.old bytes parts.now }
    ensures { Tries edit.now r log.old out.old result log.new out.new }
{
    let size = reader::inner::size(cur);
    if !has_room(log, s.size, size, out, bytes) {
        return Err(Stop::Refused(Refusal::Room));
    }
    if parts.len() < bytes {
        return Err(Stop::Short);
    }
    buffers::inner::copy(out, 0, parts, 0, bytes);
    append(log, s, cur, size);
    Ok((size, bytes))
}
