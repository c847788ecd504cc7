// One step over the front operations of an edit and of a revision: what either becomes past the other.
ghost use Rattle.std.specs.Prelude.{◌≡◌, ◌^◌, ◌<◌, ◌≤◌, true, length};
ghost use Rattle.characters.specs.Order.{order};
ghost use Rattle.edits.specs.Transform.{transform_turn};
ghost use Rattle.record.specs.InnerFront.{Cut};
ghost use Rattle.emitter.specs.InnerEmit.{Under};
ghost use Rattle.steps.specs.InnerBoth.{Fed, ReadyBoth, FirstBoth, SecondBoth, Meets, TogetherBoth, WentBoth, Ends};
ghost use Rattle.steps.specs.InnerSteps.{Operands, live_is, Chooses};

use record::inner::{AT_INSERT, AT_RETAIN};
use steps::inner::{Both, Counts, Pair, Turn};

// The edit's operation goes by itself: the counterpart retains what it gives.
fn step_edit(cur: &[u8], na: usize, next: &mut [u8], slots: usize, b: Both) -> Both
    requires { Fed na slots cur.now b.x b next.old }
    ensures { FirstBoth slots cur.now b next.old result next.new }
{
    let x = b.x;
    let y = b.y;
    let d = b.e;
    let h = b.f;
    let k = x.left;
    let to = x.to;
    let e = emitter::inner::push_without_text(next, slots, d, cur, x, k, to);
    let f = emitter::inner::retain(h, steps::inner::gives(x));
    let g = reader::inner::rest(cur, na, x, k, to);
    Both { x: g, y, e, f }
}

// The revision's.
fn step_revision(rec: &[u8], nb: usize, side: &mut [u8], slots: usize, b: Both) -> Both
    requires { Fed nb slots rec.now b.y b side.old }
    ensures { SecondBoth slots rec.now b side.old result side.new }
{
    let x = b.x;
    let y = b.y;
    let d = b.e;
    let h = b.f;
    let k = y.left;
    let to = y.to;
    let e = emitter::inner::retain(d, steps::inner::gives(y));
    let f = emitter::inner::push_without_text(side, slots, h, rec, y, k, to);
    let g = reader::inner::rest(rec, nb, y, k, to);
    Both { x, y: g, e, f }
}

// What stays of k characters of both. Equal inserts are both kept; what either deletes, the other has no more.
fn emit_both(
    cur: &[u8],
    rec: &[u8],
    next: &mut [u8],
    side: &mut [u8],
    slots: usize,
    b: Both,
    k: usize,
) -> Pair
    requires { ReadyBoth slots slots cur.now rec.now b next.old side.old × (0 < k) × (k ≤ b.x.left) × (k ≤ b.y.left)
        × Cut cur.now b.x k b.x.to × Cut rec.now b.y k b.y.to
        × Chooses (transform_turn order) cur.now rec.now b.x b.y Turn.Together }
    ensures { Meets slots slots cur.now rec.now b k next.old side.old result
        next.new side.new }
{
    let x = b.x;
    let y = b.y;
    let e = b.e;
    let f = b.f;
    let i = x.to;
    let j = y.to;
    if y.kind == AT_INSERT {
        let d = emitter::inner::push_without_text(next, slots, e, rec, y, k, j);
        let h = emitter::inner::push_without_text(side, slots, f, cur, x, k, i);
        let d = emitter::inner::retain(d, k);
        let h = emitter::inner::retain(h, k);
        return Pair { e: d, f: h };
    }
    if y.kind == AT_RETAIN {
        let d = emitter::inner::push_without_text(next, slots, e, cur, x, k, i);
        if x.kind == AT_RETAIN {
            let h = emitter::inner::push_without_text(side, slots, f, rec, y, k, j);
            return Pair { e: d, f: h };
        }
        return Pair { e: d, f };
    }
    if x.kind == AT_RETAIN {
        let h = emitter::inner::push_without_text(side, slots, f, rec, y, k, j);
        return Pair { e, f: h };
    }
    Pair { e, f }
}

// As many characters of both.
fn step_both(
    cur: &[u8],
    na: usize,
    rec: &[u8],
    nb: usize,
    next: &mut [u8],
    side: &mut [u8],
    slots: usize,
    b: Both,
) -> Both
    requires { Operands na nb cur.now rec.now × ReadyBoth slots slots cur.now rec.now b next.old side.old
        × Chooses (transform_turn order) cur.now rec.now b.x b.y Turn.Together }
    ensures { TogetherBoth slots slots cur.now rec.now b next.old side.old result
        next.new side.new }
{
    let x = b.x;
    let y = b.y;
    let k = buffers::inner::lesser(x.left, y.left);
    let p = emit_both(cur, rec, next, side, slots, b, k);
    let e = p.e;
    let f = p.f;
    let g = reader::inner::rest(cur, na, x, k, x.to);
    let h = reader::inner::rest(rec, nb, y, k, y.to);
    Both { x: g, y: h, e, f }
}

// A step over the front records.
pub fn step(
    cur: &[u8],
    na: usize,
    rec: &[u8],
    nb: usize,
    next: &mut [u8],
    side: &mut [u8],
    slots: usize,
    b: Both,
) -> Both
    requires { Operands na nb cur.now rec.now × ReadyBoth slots slots cur.now rec.now b next.old side.old
        × (live_is b.x b.y ≡ true) }
    ensures { WentBoth slots slots cur.now rec.now b next.old side.old result
        next.new side.new }
{
    let x = b.x;
    let y = b.y;
    match steps::inner::whose(cur, rec, x, y) {
        Turn::First => step_edit(cur, na, next, slots, b),
        Turn::Second => step_revision(rec, nb, side, slots, b),
        Turn::Together => step_both(cur, na, rec, nb, next, side, slots, b),
    }
}

// Behind the last step.
pub fn finish_both(next: &mut [u8], side: &mut [u8], slots: usize, b: Both) -> Counts
    requires { (slots ≤ 2 ^ 40) × Under (2 ^ 38) b.e × Under (2 ^ 38) b.f }
    ensures { Ends slots b next.old side.old result next.new side.new }
{
    let d = b.e;
    let h = b.f;
    let e = emitter::inner::finish(next, slots, d);
    let f = emitter::inner::finish(side, slots, h);
    Counts {
        left: e.ops,
        right: f.ops,
        target: e.target,
    }
}
