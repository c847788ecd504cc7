// An edit is moved past revisions. It stands in a buffer; what it and a revision become is written to two stages without text, by one
// run over both, and goes from there to its place, with the text, which is always the edit's own and the revision's own.
ghost use Rattle.std.specs.Prelude.{◌≡◌, ◌^◌, ◌≤◌, length, drop};
ghost use Rattle.record.specs.Layout.{start_of_text, base_of};
ghost use Rattle.record.specs.Record.{ops, record_fault};
ghost use Rattle.session_log.specs.Log.{edits_in, max_revisions};
ghost use Rattle.counterparts.specs.InnerRunning.{RecordsFollow, Holds, Runs};

use answers::Refusal;
use counterparts::inner::{Progress, Stop};

// Past n revisions, whose records begin at `from`: the first whose transform passes a limit ends the run. The edit stands in `cur`, too,
// which is written. The counterparts go to `parts`, one behind the other, as long as there is room.
pub fn rebase(
    log: &[u8],
    from: usize,
    n: usize,
    edit: &[u8],
    cur: &mut [u8],
    next: &mut [u8],
    side: &mut [u8],
    parts: &mut [u8],
    slots: usize,
) -> Result<usize, Stop>
    requires { (from ≤ length log.now) × (n ≤ max_revisions) × RecordsFollow n (base_of edit.now) (drop from log.now)
        × (record_fault edit.now ≡ 0) × Holds (ops edit.now) cur.old × (length next.old ≡ start_of_text slots)
        × (length side.old ≡ start_of_text slots) × (slots ≤ 2 ^ 40) }
    ensures { Runs slots (length cur.old) (ops edit.now) (edits_in n (drop from log.now)) result
        cur.new parts.old parts.new }
{
    let ne = reader::inner::op_count(edit);
    let mut spot = Progress { at: from, bytes: 0 };
    let mut left = n;
    'run: loop {
        if left == 0 {
            break 'run Ok(spot.bytes);
        }
        let at = spot.at;
        let rec = &log[at..];
        let na = reader::inner::op_count(cur);
        let nb = reader::inner::op_count(rec);
        let mut b = steps::inner::begin_both(cur, na, rec, nb);
        let p = loop {
            if !steps::inner::both_go_on(b) {
                let c = rebase_steps::inner::finish_both(next, side, slots, b);
                let p = steps::inner::sizes(cur, rec, c);
                if !counterparts::inner::keep_limits(p) {
                    break 'run Err(Stop::Refused(Refusal::Limit));
                }
                if !counterparts::inner::have_places(p, slots, cur.len()) {
                    break 'run Err(Stop::Short);
                }
                break p;
            }
            b = rebase_steps::inner::step(cur, na, rec, nb, next, side, slots, b);
        };
        spot = counterparts::inner::replace_edit(
            edit, ne, cur, rec, nb, next, side, parts, slots, p, spot,
        );
        left -= 1;
    }
}
