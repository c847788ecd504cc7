// Compose over the fronts of two records that were checked.
ghost use Rattle.std.specs.Prelude.{◌≡◌, ◌*◌, ◌^◌, ◌≤◌};
ghost use Rattle.edits.specs.Compose.{compose as composeOf};
ghost use Rattle.answers.specs.InnerGiven.{Gives};
ghost use Rattle.record.specs.Layout.{base_of, target_of, max_ops};
ghost use Rattle.record.specs.Record.{ops, record_fault};
ghost use Rattle.steps.specs.InnerSteps.{Operands};
ghost use Rattle.operational_transform.specs.Calls.{compose_call};
ghost use Rattle.emitter.specs.InnerEmit.{Done, Writes, Under, Staged};
ghost use Rattle.compose.specs.InnerSized.{between};

use answers::Refusal;
use emitter::inner::Emitter;
use record::inner::MAX_OPS;

// A step is one piece of code for each pair of kinds: once they are known, nothing asks for them again. Each piece has one caller,
// so that the state stays in registers.

// The stages in bytes.
const SMALL_STAGE: usize = 128;

const MEDIUM_STAGE: usize = 1024;

const LARGE_STAGE: usize = 8192;

// How many records and bytes of text a result has. Its base is the first's and its target the second's: no sum of them is kept.
#[derive(Clone, Copy)]
pub struct Sizes {
    pub ops: usize,
    pub text: usize,
}

// All of compose, for a result of n records.
fn compose_into(a: &[u8], na: usize, b: &[u8], nb: usize, out: &mut [u8], n: usize) -> Sizes
    requires { Operands na nb a.now b.now × (n ≤ 2 ^ 40) × (target_of a.now ≡ base_of b.now) }
    ensures { Done n (composeOf (ops a.now) (ops b.now)) out.old
        (between a.now b.now result) out.new }
{
    let mut s = steps::inner::begin(a, na, b, nb);
    while steps::inner::goes_on(s) {
        s = compose_steps::inner::step(a, na, b, nb, out, n, s);
    }
    let last = s.e;
    let e = emitter::inner::finish(out, n, last);
    Sizes {
        ops: e.ops,
        text: e.text,
    }
}

// All sizes of the result.
fn sized(a: &[u8], b: &[u8], z: Sizes) -> Emitter
    requires { (record_fault a.now ≡ 0) × (record_fault b.now ≡ 0) }
    ensures { result ≡ between a.now b.now z }
{
    Emitter {
        ins: 0,
        del: 0,
        ret: 0,
        ops: z.ops,
        text: z.text,
        base: reader::inner::base(a),
        target: reader::inner::target(b),
    }
}

// The record of a result of n records.
fn write(a: &[u8], na: usize, b: &[u8], nb: usize, out: &mut [u8], n: usize)
    requires { Operands na nb a.now b.now × (n ≤ 2 ^ 40) × (target_of a.now ≡ base_of b.now) }
    ensures { Writes n (composeOf (ops a.now) (ops b.now)) out.old out.new }
{
    let z = compose_into(a, na, b, nb, out, n);
    let e = sized(a, b, z);
    emitter::inner::write_header(out, e);
}

// From a stage, if all of the result has a place there; else by a run of its own.
fn place(
    a: &[u8],
    na: usize,
    b: &[u8],
    nb: usize,
    stage: &[u8],
    slots: usize,
    e: Emitter,
    out: &mut [u8],
)
    requires { Operands na nb a.now b.now × (slots ≤ 2 * max_ops) × (target_of a.now ≡ base_of b.now) × Under (2 ^ 40) e
        × Staged slots (composeOf (ops a.now) (ops b.now)) e stage.now }
    ensures { Writes e.ops (composeOf (ops a.now) (ops b.now)) out.old out.new }
{
    if !emitter::inner::fits_stage(e, slots, stage.len()) {
        write(a, na, b, nb, out, e.ops);
        return;
    }
    places::inner::relocate(out, e.ops, stage, slots, e.ops, e.text);
    emitter::inner::write_header(out, e);
}

// Of two records whose lengths agree: written to a stage, judged, and moved to the output.
fn staged(
    a: &[u8],
    na: usize,
    b: &[u8],
    nb: usize,
    stage: &mut [u8],
    slots: usize,
    out: &mut [u8],
) -> Result<usize, Refusal>
    requires { Operands na nb a.now b.now × (slots ≤ 2 * max_ops) × (target_of a.now ≡ base_of b.now) }
    ensures { Gives (compose_call a.now b.now out.old) result out.new }
{
    // made anew, since a slice that is handed on as it came is copied, and the copy waits for its bytes
    let z = compose_into(&a[..], na, &b[..], nb, stage, slots);
    let e = sized(a, b, z);
    let k = emitter::inner::limits_then_room(e, out.len())?;
    place(a, na, b, nb, stage, slots, e, out);
    Ok(k)
}

// `staged`, in a stage of so many bytes: what is cleared is paid for. (The answer is taken apart because one that is handed on whole is
// copied, and the copy waits for the bytes.)
fn in_stage<const BYTES: usize>(
    a: &[u8],
    na: usize,
    b: &[u8],
    nb: usize,
    slots: usize,
    out: &mut [u8],
) -> Result<usize, Refusal>
    requires { (BYTES ≤ 2 ^ 20) × Operands na nb a.now b.now × (slots ≤ 2 * max_ops) × (target_of a.now ≡ base_of b.now) }
    ensures { Gives (compose_call a.now b.now out.old) result out.new }
{
    let mut stage = [0u8; BYTES];
    let k = staged(a, na, b, nb, &mut stage, slots, out)?;
    Ok(k)
}

// Of two records that were checked.
pub fn composed(a: &[u8], b: &[u8], out: &mut [u8]) -> Result<usize, Refusal>
    requires { (record_fault a.now ≡ 0) × (record_fault b.now ≡ 0) }
    ensures { Gives (compose_call a.now b.now out.old) result out.new }
{
    let target = reader::inner::target(a);
    let base = reader::inner::base(b);
    if target != base {
        return Err(Refusal::IncompatibleLengths);
    }
    let na = reader::inner::op_count(a);
    let nb = reader::inner::op_count(b);
    // a result of more than 1,024 is refused
    if MAX_OPS < na + nb {
        return in_stage::<LARGE_STAGE>(a, na, b, nb, MAX_OPS, out);
    }
    let most = layout::inner::text_start(na + nb)
        + reader::inner::text_bytes(a)
        + reader::inner::text_bytes(b);
    if MEDIUM_STAGE < most {
        return in_stage::<LARGE_STAGE>(a, na, b, nb, na + nb, out);
    }
    if SMALL_STAGE < most {
        return in_stage::<MEDIUM_STAGE>(a, na, b, nb, na + nb, out);
    }
    in_stage::<SMALL_STAGE>(a, na, b, nb, na + nb, out)
}
