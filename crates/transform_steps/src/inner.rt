// One step of transform over the front operations of two records that were checked: what either becomes past the other.
ghost use Rattle.std.specs.Prelude.{◌≡◌, ◌<◌, ◌≤◌, true, false, ◌==◌};
ghost use Rattle.characters.specs.Order.{order};
ghost use Rattle.edits.specs.Transform.{transform_turn};
ghost use Rattle.record.specs.Layout.{insert_kind};
ghost use Rattle.record.specs.InnerFront.{Cut};
ghost use Rattle.steps.specs.InnerBoth.{Fed, ReadyBoth, FirstBoth, SecondBoth, Meets, TogetherBoth, WentBoth};
ghost use Rattle.steps.specs.InnerSteps.{Operands, Chooses, live_is};

use record::inner::{AT_END, AT_INSERT, AT_RETAIN};
use steps::inner::{Both, Pair, Turn};

// The first's operation goes by itself: the other side retains what it gives.
fn step_first(a: &[u8], na: usize, out: &mut [u8], m: usize, s: Both) -> Both
    requires { Fed na m a.now s.x s out.old }
    ensures { FirstBoth m a.now s out.old result out.new }
{
    let x = s.x;
    let y = s.y;
    let d = s.e;
    let h = s.f;
    let k = x.left;
    let to = x.to;
    let e = emitter::inner::push_without_text(out, m, d, a, x, k, to);
    let f = emitter::inner::retain(h, steps::inner::gives(x));
    let g = reader::inner::rest(a, na, x, k, to);
    Both { x: g, y, e, f }
}

// The second's operation goes by itself: the other side retains what it gives.
fn step_second(b: &[u8], nb: usize, out: &mut [u8], n: usize, s: Both) -> Both
    requires { Fed nb n b.now s.y s out.old }
    ensures { SecondBoth n b.now s out.old result out.new }
{
    let x = s.x;
    let y = s.y;
    let d = s.e;
    let h = s.f;
    let k = y.left;
    let to = y.to;
    let e = emitter::inner::retain(d, steps::inner::gives(y));
    let f = emitter::inner::push_without_text(out, n, h, b, y, k, to);
    let g = reader::inner::rest(b, nb, y, k, to);
    Both { x, y: g, e, f }
}

// The same for an insert where the other has none. It is a copy of its own, as the one for the lesser of two inserts is: a function with
// one caller is taken into the loop, where the kind is known and the state stays in registers.
fn insert_first(a: &[u8], na: usize, out: &mut [u8], m: usize, s: Both) -> Both
    requires { Fed na m a.now s.x s out.old }
    ensures { FirstBoth m a.now s out.old result out.new }
{
    let x = s.x;
    let y = s.y;
    let d = s.e;
    let h = s.f;
    let k = x.left;
    let to = x.to;
    let e = emitter::inner::push_without_text(out, m, d, a, x, k, to);
    let f = emitter::inner::retain(h, steps::inner::gives(x));
    let g = reader::inner::rest(a, na, x, k, to);
    Both { x: g, y, e, f }
}

fn insert_second(b: &[u8], nb: usize, out: &mut [u8], n: usize, s: Both) -> Both
    requires { Fed nb n b.now s.y s out.old }
    ensures { SecondBoth n b.now s out.old result out.new }
{
    let x = s.x;
    let y = s.y;
    let d = s.e;
    let h = s.f;
    let k = y.left;
    let to = y.to;
    let e = emitter::inner::retain(d, steps::inner::gives(y));
    let f = emitter::inner::push_without_text(out, n, h, b, y, k, to);
    let g = reader::inner::rest(b, nb, y, k, to);
    Both { x, y: g, e, f }
}

// What stays of k characters of both, which insert nothing: what either deletes, the other has no more.
fn emit_both(
    a: &[u8],
    b: &[u8],
    out_a: &mut [u8],
    m: usize,
    out_b: &mut [u8],
    n: usize,
    s: Both,
    k: usize,
) -> Pair
    requires { ReadyBoth m n a.now b.now s out_a.old out_b.old × (0 < k) × (k ≤ s.x.left) × (k ≤ s.y.left)
        × Cut a.now s.x k s.x.to × Cut b.now s.y k s.y.to
        × Chooses (transform_turn order) a.now b.now s.x s.y Turn.Together × ((s.y.kind == insert_kind) ≡ false) }
    ensures { Meets m n a.now b.now s k out_a.old out_b.old result out_a.new
        out_b.new }
{
    let x = s.x;
    let y = s.y;
    let e = s.e;
    let f = s.f;
    let i = x.to;
    let j = y.to;
    if y.kind == AT_RETAIN {
        let d = emitter::inner::push_without_text(out_a, m, e, a, x, k, i);
        if x.kind == AT_RETAIN {
            let h = emitter::inner::push_without_text(out_b, n, f, b, y, k, j);
            return Pair { e: d, f: h };
        }
        return Pair { e: d, f };
    }
    if x.kind == AT_RETAIN {
        let h = emitter::inner::push_without_text(out_b, n, f, b, y, k, j);
        return Pair { e, f: h };
    }
    Pair { e, f }
}

// As many characters of both, where neither inserts.
fn step_both(
    a: &[u8],
    na: usize,
    b: &[u8],
    nb: usize,
    out_a: &mut [u8],
    m: usize,
    out_b: &mut [u8],
    n: usize,
    s: Both,
) -> Both
    requires { Operands na nb a.now b.now × ReadyBoth m n a.now b.now s out_a.old out_b.old
        × Chooses (transform_turn order) a.now b.now s.x s.y Turn.Together × ((s.y.kind == insert_kind) ≡ false) }
    ensures { TogetherBoth m n a.now b.now s out_a.old out_b.old result
        out_a.new out_b.new }
{
    let x = s.x;
    let y = s.y;
    let k = buffers::inner::lesser(x.left, y.left);
    let p = emit_both(a, b, out_a, m, out_b, n, s, k);
    let e = p.e;
    let f = p.f;
    let g = reader::inner::rest(a, na, x, k, x.to);
    let h = reader::inner::rest(b, nb, y, k, y.to);
    Both { x: g, y: h, e, f }
}

// One step.
pub fn step(
    a: &[u8],
    na: usize,
    b: &[u8],
    nb: usize,
    out_a: &mut [u8],
    m: usize,
    out_b: &mut [u8],
    n: usize,
    s: Both,
) -> Both
    requires { Operands na nb a.now b.now × ReadyBoth m n a.now b.now s out_a.old out_b.old
        × (live_is s.x s.y ≡ true) }
    ensures { WentBoth m n a.now b.now s out_a.old out_b.old result out_a.new
        out_b.new }
{
    let x = s.x;
    let y = s.y;
    if x.kind == AT_INSERT {
        if y.kind == AT_INSERT {
            return ties::inner::inserts(a, na, b, nb, out_a, m, out_b, n, s);
        }
        return insert_first(a, na, out_a, m, s);
    }
    if y.kind == AT_INSERT {
        return insert_second(b, nb, out_b, n, s);
    }
    if x.kind == AT_END {
        return step_second(b, nb, out_b, n, s);
    }
    if y.kind == AT_END {
        return step_first(a, na, out_a, m, s);
    }
    step_both(a, na, b, nb, out_a, m, out_b, n, s)
}
