// Transform over the fronts of two records that were checked: what either becomes past the other, by one run over both.
ghost use Rattle.std.specs.Prelude.{◌≡◌, ◌+◌, ◌^◌, ◌≤◌, min, length};
ghost use Rattle.characters.specs.Order.{order};
ghost use Rattle.edits.specs.Transform.{transform as transformOf};
ghost use Rattle.record.specs.Layout.{max_ops, start_of_text, base_of};
ghost use Rattle.record.specs.Record.{record_fault, ops};
ghost use Rattle.emitter.specs.InnerEmit.{Under, limits_then_room_both};
ghost use Rattle.steps.specs.InnerBoth.{MarkedBoth};
ghost use Rattle.steps.specs.InnerSteps.{Operands};
ghost use Rattle.transform.specs.InnerPairs.{Transforms};

use answers::Refusal;
use emitter::inner::Emitter;
use record::inner::{HEADER, MAX_OPS, OP_BYTES};
use steps::inner::Counts;

// All of both sides but the text, to stages with places for `slots` records and none for text.
fn transform_into(
    a: &[u8],
    na: usize,
    b: &[u8],
    nb: usize,
    stage_a: &mut [u8],
    stage_b: &mut [u8],
    slots: usize,
) -> Counts
    requires { Operands na nb a.now b.now × (slots ≤ 2 ^ 40) × (length stage_a.old ≤ start_of_text slots)
        × (length stage_b.old ≤ start_of_text slots) }
    ensures { MarkedBoth slots (transformOf order (ops a.now) (ops b.now)) result stage_a.new
        stage_b.new }
{
    let mut s = steps::inner::begin_both(a, na, b, nb);
    while steps::inner::both_go_on(s) {
        s = transform_steps::inner::step(a, na, b, nb, stage_a, slots, stage_b, slots, s);
    }
    let d = s.e;
    let h = s.f;
    let e = emitter::inner::finish(stage_a, slots, d);
    let f = emitter::inner::finish(stage_b, slots, h);
    Counts {
        left: e.ops,
        right: f.ops,
        target: e.target,
    }
}

// 9 where either side passes a limit, then 10 where either output is too short.
fn limits_then_room(
    e: Emitter,
    f: Emitter,
    room_a: usize,
    room_b: usize,
) -> Result<(usize, usize), Refusal>
    requires { Under (2 ^ 40) e × Under (2 ^ 40) f }
    ensures { result ≡ limits_then_room_both e f room_a room_b }
{
    if !emitter::inner::keeps_limits(e) {
        return Err(Refusal::Limit);
    }
    if !emitter::inner::keeps_limits(f) {
        return Err(Refusal::Limit);
    }
    let p = emitter::inner::size(e);
    let q = emitter::inner::size(f);
    if room_a < p {
        return Err(Refusal::Room);
    }
    if room_b < q {
        return Err(Refusal::Room);
    }
    Ok((p, q))
}

// Of two records whose lengths agree: both sides are written to stages, judged, and moved to the outputs. A side has no more records
// than both operands together, and more than 1,024 are refused.
fn staged(
    a: &[u8],
    na: usize,
    b: &[u8],
    nb: usize,
    stage_a: &mut [u8],
    stage_b: &mut [u8],
    slots: usize,
    out_a: &mut [u8],
    out_b: &mut [u8],
) -> Result<(usize, usize), Refusal>
    requires { Operands na nb a.now b.now × (slots ≤ max_ops) × (min (na + nb) max_ops ≤ slots)
        × (length stage_a.old ≡ start_of_text slots) × (length stage_b.old ≡ start_of_text slots) × (base_of a.now ≡ base_of b.now) }
    ensures { Transforms a.now b.now out_a.old out_b.old result out_a.new
        out_b.new }
{
    let c = transform_into(a, na, b, nb, stage_a, stage_b, slots);
    let p = steps::inner::sizes(a, b, c);
    let e = p.e;
    let f = p.f;
    let (k, l) = limits_then_room(e, f, out_a.len(), out_b.len())?;
    // made anew: with the slices handed on as they came the loop would read them from memory
    steps::inner::place_with_text(out_a, stage_a, slots, e, &a[..], na);
    steps::inner::place_with_text(out_b, stage_b, slots, f, &b[..], nb);
    Ok((k, l))
}

// The operations that a stage has places for, and its bytes.
const SMALL_OPS: usize = 40;

const SMALL_STAGE: usize = HEADER + OP_BYTES * SMALL_OPS;

const MEDIUM_OPS: usize = 338;

const MEDIUM_STAGE: usize = HEADER + OP_BYTES * MEDIUM_OPS;

const LARGE_STAGE: usize = HEADER + OP_BYTES * MAX_OPS;

// `staged`, in two stages with places for so many operations, which have so many bytes: what is cleared is paid for. (The answer is taken
// apart because one that is handed on whole is copied, and the copy waits for the bytes.)
fn in_stages<const SLOTS: usize, const BYTES: usize>(
    a: &[u8],
    na: usize,
    b: &[u8],
    nb: usize,
    out_a: &mut [u8],
    out_b: &mut [u8],
) -> Result<(usize, usize), Refusal>
    requires { Operands na nb a.now b.now × (SLOTS ≤ max_ops) × (min (na + nb) max_ops ≤ SLOTS) × (BYTES ≡ start_of_text SLOTS)
        × (base_of a.now ≡ base_of b.now) }
    ensures { Transforms a.now b.now out_a.old out_b.old result out_a.new
        out_b.new }
{
    let mut stage_a = [0u8; BYTES];
    let mut stage_b = [0u8; BYTES];
    let (k, l) = staged(
        a,
        na,
        b,
        nb,
        &mut stage_a,
        &mut stage_b,
        SLOTS,
        out_a,
        out_b,
    )?;
    Ok((k, l))
}

// Of two records that were checked.
pub fn transformed(
    a: &[u8],
    b: &[u8],
    out_a: &mut [u8],
    out_b: &mut [u8],
) -> Result<(usize, usize), Refusal>
    requires { (record_fault a.now ≡ 0) × (record_fault b.now ≡ 0) }
    ensures { Transforms a.now b.now out_a.old out_b.old result out_a.new
        out_b.new }
{
    let base_a = reader::inner::base(a);
    let base_b = reader::inner::base(b);
    if base_a != base_b {
        return Err(Refusal::IncompatibleLengths);
    }
    let na = reader::inner::op_count(a);
    let nb = reader::inner::op_count(b);
    if MEDIUM_OPS < na + nb {
        return in_stages::<MAX_OPS, LARGE_STAGE>(a, na, b, nb, out_a, out_b);
    }
    if SMALL_OPS < na + nb {
        return in_stages::<MEDIUM_OPS, MEDIUM_STAGE>(a, na, b, nb, out_a, out_b);
    }
    in_stages::<SMALL_OPS, SMALL_STAGE>(a, na, b, nb, out_a, out_b)
}
