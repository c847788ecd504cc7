// The way of compose or transform over the two front records: how it begins, and whether it goes on.
ghost use Rattle.std.specs.Prelude.{◌≡◌, ◌+◌, ◌^◌, ◌<◌, ◌≤◌, true, length, take, drop};
ghost use Rattle.buffers.specs.InnerOver.{over};
ghost use Rattle.characters.specs.Order.{byte_order, order};
ghost use Rattle.edits.specs.Transform.{transform_turn, transform as transformOf};
ghost use Rattle.record.specs.InnerFront.{front_text, Stands};
ghost use Rattle.record.specs.Layout.{base_of, start_of_text};
ghost use Rattle.record.specs.Record.{ops, record_fault};
ghost use Rattle.places.specs.InnerOps.{relocated_ops};
ghost use Rattle.emitter.specs.InnerEmit.{Under, headed};
ghost use Rattle.steps.specs.InnerSteps.{Operands, live_is, Chooses, Begun};
ghost use Rattle.steps.specs.InnerSides.{gives_of};
ghost use Rattle.steps.specs.InnerBoth.{BegunBoth, Counted, SizedBoth};

use emitter::inner::Emitter;
use record::inner::{AT_DELETE, AT_END, AT_INSERT, Front};
use std::cmp::Ordering;

// Of two inserts that meet, the lesser by byte order goes first.
pub fn rank(a: &[u8], b: &[u8], x: Front, y: Front) -> Ordering
    requires { Stands a.now x × Stands b.now y }
    ensures { result ≡ byte_order (front_text a.now x) (front_text b.now y) }
{
    let xf = x.from;
    let xt = x.to;
    let yf = y.from;
    let yt = y.to;
    utf8::inner::compare(&a[xf..xt], &b[yf..yt])
}

// Whose turn it is, as one value: `rebase` asks for it, the steps here ask for the kinds.
pub fn whose(a: &[u8], b: &[u8], x: Front, y: Front) -> Turn
    requires { Stands a.now x × Stands b.now y × (live_is x y ≡ true) }
    ensures { Chooses (transform_turn order) a.now b.now x y result }
{
    if x.kind == AT_END {
        return Turn::Second;
    }
    if y.kind == AT_END {
        return Turn::First;
    }
    if x.kind == AT_INSERT {
        if y.kind == AT_INSERT {
            return match rank(a, b, x, y) {
                Ordering::Less => Turn::First,
                Ordering::Equal => Turn::Together,
                Ordering::Greater => Turn::Second,
            };
        }
        return Turn::First;
    }
    if y.kind == AT_INSERT {
        return Turn::Second;
    }
    Turn::Together
}

// How many characters a front's operation gives.
pub fn gives(f: Front) -> usize
    requires { f.left < 65536 }
    ensures { (result ≡ gives_of f) × (result < 65536) }
{
    if f.kind == AT_DELETE {
        return 0;
    }
    f.left
}

// What was emitted of both sides.
#[derive(Clone, Copy)]
pub struct Pair {
    pub e: Emitter,
    pub f: Emitter,
}

// On the way: the two fronts, and what was emitted of either side.
#[derive(Clone, Copy)]
pub struct Both {
    pub x: Front,
    pub y: Front,
    pub e: Emitter,
    pub f: Emitter,
}

// How many records either side has, and the target, which is one for both.
#[derive(Clone, Copy)]
pub struct Counts {
    pub left: usize,
    pub right: usize,
    pub target: usize,
}

// The sizes of both sides: either has the text of its operand and begins where the other operand ends.
pub fn sizes(a: &[u8], b: &[u8], c: Counts) -> Pair
    requires { (record_fault a.now ≡ 0) × (record_fault b.now ≡ 0) × (base_of a.now ≡ base_of b.now)
        × Counted (transformOf order (ops a.now) (ops b.now)) c }
    ensures { SizedBoth (transformOf order (ops a.now) (ops b.now)) result }
{
    let e = Emitter {
        ins: 0,
        del: 0,
        ret: 0,
        ops: c.left,
        text: reader::inner::text_bytes(a),
        base: reader::inner::target(b),
        target: c.target,
    };
    let f = Emitter {
        ins: 0,
        del: 0,
        ret: 0,
        ops: c.right,
        text: reader::inner::text_bytes(b),
        base: reader::inner::target(a),
        target: c.target,
    };
    Pair { e, f }
}

// What was staged, as a record of its own: the text is that of a record of n operations.
pub fn place_with_text(out: &mut [u8], stage: &[u8], slots: usize, e: Emitter, rec: &[u8], n: usize)
    requires { (slots ≤ 2 ^ 40) × (n ≤ 2 ^ 40) × (e.ops ≤ slots) × (start_of_text slots ≤ length stage.now)
        × (start_of_text n + e.text ≤ length rec.now) × Under (2 ^ 40) e }
    ensures { out.new ≡ headed e
        (relocated_ops slots e.ops e.ops stage.now
        (over (start_of_text e.ops) (take e.text (drop (start_of_text n) rec.now)) out.old)) }
{
    let from = layout::inner::text_start(n);
    buffers::inner::copy_short(
        out,
        layout::inner::text_start(e.ops),
        rec,
        from,
        from + e.text,
    );
    places::inner::relocate_ops(out, e.ops, stage, slots, e.ops);
    emitter::inner::write_header(out, e);
}

// A step uses the first front, the second, or as many characters of both.
#[derive(Clone, Copy)]
pub enum Turn {
    First,
    Second,
    Together,
}

// On the way: the two fronts, and what was emitted.
#[derive(Clone, Copy)]
pub struct State {
    pub x: Front,
    pub y: Front,
    pub e: Emitter,
}

// The fronts of two whole records; nothing was emitted.
pub fn begin(a: &[u8], na: usize, b: &[u8], nb: usize) -> State
    requires { Operands na nb a.now b.now }
    ensures { Begun a.now b.now result }
{
    let x = reader::inner::first_front(a, na);
    let y = reader::inner::first_front(b, nb);
    let e = emitter::inner::new_emitter();
    State { x, y, e }
}

// Whether anything is left of either record.
pub fn live(x: Front, y: Front) -> bool
    ensures { result ≡ live_is x y }
{
    if x.kind == AT_END {
        return y.kind != AT_END;
    }
    true
}

pub fn goes_on(s: State) -> bool
    ensures { result ≡ live_is s.x s.y }
{
    let x = s.x;
    let y = s.y;
    live(x, y)
}

// The same where both sides are emitted: nothing was emitted of either.
pub fn begin_both(a: &[u8], na: usize, b: &[u8], nb: usize) -> Both
    requires { Operands na nb a.now b.now }
    ensures { BegunBoth a.now b.now result }
{
    let s = begin(a, na, b, nb);
    let f = emitter::inner::new_emitter();
    let x = s.x;
    let y = s.y;
    let e = s.e;
    Both { x, y, e, f }
}

pub fn both_go_on(s: Both) -> bool
    ensures { result ≡ live_is s.x s.y }
{
    live(s.x, s.y)
}
