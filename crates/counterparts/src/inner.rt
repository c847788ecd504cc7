// An edit was transformed past one revision, and each side stands in a stage without its text. Here it is tested whether both sides keep
// the limits and have places. Then the edit's side takes the edit's place in its buffer, and the revision's side, its counterpart, goes
// behind the counterparts before it. Each gets its text, which is always the edit's own or the revision's own.
ghost use Rattle.std.specs.Prelude.{◌≡◌, ◌+◌, ◌^◌, ◌≤◌, ◌&&◌, length, nat_le};
ghost use Rattle.characters.specs.Order.{order};
ghost use Rattle.edits.specs.Transform.{transform as transformOf};
ghost use Rattle.record.specs.Layout.{start_of_text, op_count_of, max_ops};
ghost use Rattle.record.specs.Record.{ops, record_fault};
ghost use Rattle.emitter.specs.InnerEmit.{within_limits, Under, size_in};
ghost use Rattle.counterparts.specs.InnerRunning.{StoresCounterpart, SameText, Ready, ReplacesEdit};

use answers::Refusal;
use emitter::inner::Emitter;
use steps::inner::Pair;

// Why a run ended early: a refusal, or buffers that are too short for what is written.
#[derive(Clone, Copy, Debug, PartialEq, Eq)]
pub enum Stop {
    Refused(Refusal),
    Short,
}

pub fn keep_limits(p: Pair) -> bool
    ensures { result ≡ (within_limits p.e && within_limits p.f) }
{
    let e = p.e;
    let f = p.f;
    if !emitter::inner::keeps_limits(e) {
        return false;
    }
    emitter::inner::keeps_limits(f)
}

// Whether both sides have places in their stages, and the edit's has room in its buffer.
pub fn have_places(p: Pair, slots: usize, room: usize) -> bool
    requires { Under (2 ^ 40) p.e }
    ensures { result ≡ (nat_le p.e.ops slots && (nat_le p.f.ops slots && nat_le (size_in p.e) room)) }
{
    let e = p.e;
    let f = p.f;
    if slots < e.ops {
        return false;
    }
    if slots < f.ops {
        return false;
    }
    emitter::inner::size(e) <= room
}

// How far a run has come: where the next revision begins, and how many bytes the counterparts have.
#[derive(Clone, Copy)]
pub struct Progress {
    pub at: usize,
    pub bytes: usize,
}

// A counterpart goes behind those before it, if there is room.
fn store_counterpart(
    parts: &mut [u8],
    from: usize,
    to: usize,
    side: &[u8],
    slots: usize,
    f: Emitter,
    rec: &[u8],
    nb: usize,
)
    requires { (to ≡ from + size_in f) × (slots ≤ 2 ^ 40) × (nb ≤ 2 ^ 40) × (f.ops ≤ slots) × (start_of_text slots ≤ length side.now)
        × (start_of_text nb + f.text ≤ length rec.now) × Under (2 ^ 40) f }
    ensures { StoresCounterpart slots f side.now nb rec.now from to parts.old
        parts.new }
{
    if to <= parts.len() {
        steps::inner::place_with_text(&mut parts[from..], side, slots, f, rec, nb);
    }
}

// Past the revision at the spot: what the edit becomes takes its place.
pub fn replace_edit(
    edit: &[u8],
    ne: usize,
    cur: &mut [u8],
    rec: &[u8],
    nb: usize,
    next: &[u8],
    side: &[u8],
    parts: &mut [u8],
    slots: usize,
    p: Pair,
    spot: Progress,
) -> Progress
    requires { (slots ≤ 2 ^ 40) × (ne ≡ op_count_of edit.now) × (ne ≤ max_ops) × (nb ≡ op_count_of rec.now) × (nb ≤ max_ops)
        × (record_fault edit.now ≡ 0) × (record_fault rec.now ≡ 0) × SameText (ops cur.old) (ops edit.now)
        × (length next.now ≡ start_of_text slots) × (length side.now ≡ start_of_text slots)
        × Ready slots (transformOf order (ops cur.old) (ops rec.now)) p (length cur.old) next.now side.now × (spot.at ≤ 2 ^ 63)
        × (spot.bytes ≤ 2 ^ 40) }
    ensures { ReplacesEdit (transformOf order (ops cur.old) (ops rec.now)) rec.now spot result
        cur.new parts.old parts.new }
{
    let e = p.e;
    let f = p.f;
    let from = spot.bytes;
    let at = spot.at + reader::inner::size(rec);
    let bytes = from + emitter::inner::size(f);
    steps::inner::place_with_text(cur, next, slots, e, edit, ne);
    store_counterpart(parts, from, bytes, side, slots, f, rec, nb);
    Progress { at, bytes }
}
