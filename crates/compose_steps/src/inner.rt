// One step of compose over the front operations of two records that were checked.
ghost use Rattle.std.specs.Prelude.{◌≡◌, ◌^◌, ◌<◌, ◌≤◌, true, [], ◌∷◌};
ghost use Rattle.edits.specs.Compose.{compose_turn, made};
ghost use Rattle.edits.specs.Op.{cut};
ghost use Rattle.record.specs.Layout.{op_count_of, delete_kind, insert_kind, retain_kind};
ghost use Rattle.record.specs.InnerFront.{Stands, front_op, Cut};
ghost use Rattle.emitter.specs.InnerEmit.{Under, Adds};
ghost use Rattle.steps.specs.declared.inner.Turn.TheVariants.{First, Second, Together};
ghost use Rattle.steps.specs.InnerSteps.{Operands, Ready, Chooses, Went, live_is};

use emitter::inner::Emitter;
use record::inner::{AT_DELETE, AT_END, AT_INSERT, AT_RETAIN, Front};
use steps::inner::State;

// A delete of the first goes before all else.
fn delete_first(a: &[u8], na: usize, b: &[u8], out: &mut [u8], n: usize, s: State) -> State
    requires { (na ≡ op_count_of a.now) × Ready n a.now b.now s × Chooses compose_turn a.now b.now s.x s.y First }
    ensures { Went compose_turn made n a.now b.now s out.old result out.new }
{
    let x = s.x;
    let y = s.y;
    let e = s.e;
    let k = x.left;
    let i = x.to;
    let f = emitter::inner::push(out, n, e, a, x, k, i);
    let g = reader::inner::rest(a, na, x, k, i);
    State { x: g, y, e: f }
}

// The first k characters of an insert of the second, or of the first, whose text ends at `mid`: `push` for what inserts few bytes.
fn text_of_second(
    out: &mut [u8],
    n: usize,
    e: Emitter,
    b: &[u8],
    f: Front,
    k: usize,
    mid: usize,
) -> Emitter
    requires { (n ≤ 2 ^ 40) × Stands b.now f × (f.kind ≡ insert_kind) × (0 < k) × (k ≤ f.left) × Cut b.now f k mid
        × Under (2 ^ 40) e }
    ensures { Adds n (cut k (front_op b.now f) ∷ []) e out.old result out.new }
{
    let from = f.from;
    emitter::inner::flush_if_closed(out, n, e);
    buffers::inner::copy_short(out, layout::inner::text_start(n) + e.text, b, from, mid);
    emitter::inner::inserted(e, mid - from, k)
}

fn text_of_first(
    out: &mut [u8],
    n: usize,
    e: Emitter,
    a: &[u8],
    f: Front,
    k: usize,
    mid: usize,
) -> Emitter
    requires { (n ≤ 2 ^ 40) × Stands a.now f × (f.kind ≡ insert_kind) × (0 < k) × (k ≤ f.left) × Cut a.now f k mid
        × Under (2 ^ 40) e }
    ensures { Adds n (cut k (front_op a.now f) ∷ []) e out.old result out.new }
{
    let from = f.from;
    emitter::inner::flush_if_closed(out, n, e);
    buffers::inner::copy_short(out, layout::inner::text_start(n) + e.text, a, from, mid);
    emitter::inner::inserted(e, mid - from, k)
}

// An insert of the second.
fn insert_second(a: &[u8], b: &[u8], nb: usize, out: &mut [u8], n: usize, s: State) -> State
    requires { (nb ≡ op_count_of b.now) × Ready n a.now b.now s × Chooses compose_turn a.now b.now s.x s.y Second
        × (s.y.kind ≡ insert_kind) }
    ensures { Went compose_turn made n a.now b.now s out.old result out.new }
{
    let x = s.x;
    let y = s.y;
    let e = s.e;
    let k = y.left;
    let j = y.to;
    let f = text_of_second(out, n, e, b, y, k, j);
    let h = reader::inner::rest(b, nb, y, k, j);
    State { x, y: h, e: f }
}

// What is left of the second, where the first has ended.
fn only_second(a: &[u8], b: &[u8], nb: usize, out: &mut [u8], n: usize, s: State) -> State
    requires { (nb ≡ op_count_of b.now) × Ready n a.now b.now s × Chooses compose_turn a.now b.now s.x s.y Second }
    ensures { Went compose_turn made n a.now b.now s out.old result out.new }
{
    let x = s.x;
    let y = s.y;
    let e = s.e;
    let k = y.left;
    let j = y.to;
    let f = emitter::inner::push(out, n, e, b, y, k, j);
    let h = reader::inner::rest(b, nb, y, k, j);
    State { x, y: h, e: f }
}

// What is left of the first, where the second has ended.
fn only_first(a: &[u8], na: usize, b: &[u8], out: &mut [u8], n: usize, s: State) -> State
    requires { (na ≡ op_count_of a.now) × Ready n a.now b.now s × Chooses compose_turn a.now b.now s.x s.y First }
    ensures { Went compose_turn made n a.now b.now s out.old result out.new }
{
    let x = s.x;
    let y = s.y;
    let e = s.e;
    let k = x.left;
    let i = x.to;
    let f = emitter::inner::push(out, n, e, a, x, k, i);
    let g = reader::inner::rest(a, na, x, k, i);
    State { x: g, y, e: f }
}

// As many characters of both: what the first retains, the second retains or deletes.
fn retained(a: &[u8], na: usize, b: &[u8], nb: usize, out: &mut [u8], n: usize, s: State) -> State
    requires { Operands na nb a.now b.now × Ready n a.now b.now s
        × Chooses compose_turn a.now b.now s.x s.y Together × (s.x.kind ≡ retain_kind) }
    ensures { Went compose_turn made n a.now b.now s out.old result out.new }
{
    let x = s.x;
    let y = s.y;
    let e = s.e;
    let i = x.to;
    let j = y.to;
    let k = buffers::inner::lesser(x.left, y.left);
    let f = emitter::inner::push(out, n, e, b, y, k, j);
    let g = reader::inner::rest(a, na, x, k, i);
    let h = reader::inner::rest(b, nb, y, k, j);
    State { x: g, y: h, e: f }
}

// What the first inserts, the second retains or deletes.
fn insert_retain(
    a: &[u8],
    na: usize,
    b: &[u8],
    nb: usize,
    out: &mut [u8],
    n: usize,
    s: State,
) -> State
    requires { Operands na nb a.now b.now × Ready n a.now b.now s
        × Chooses compose_turn a.now b.now s.x s.y Together × (s.x.kind ≡ insert_kind) × (s.y.kind ≡ retain_kind) }
    ensures { Went compose_turn made n a.now b.now s out.old result out.new }
{
    let x = s.x;
    let y = s.y;
    let e = s.e;
    let j = y.to;
    let k = buffers::inner::lesser(x.left, y.left);
    let mid = reader::inner::cut(a, x, k);
    let f = text_of_first(out, n, e, a, x, k, mid);
    let g = reader::inner::rest(a, na, x, k, mid);
    let h = reader::inner::rest(b, nb, y, k, j);
    State { x: g, y: h, e: f }
}

fn insert_delete(
    a: &[u8],
    na: usize,
    b: &[u8],
    nb: usize,
    out: &mut [u8],
    n: usize,
    s: State,
) -> State
    requires { Operands na nb a.now b.now × Ready n a.now b.now s
        × Chooses compose_turn a.now b.now s.x s.y Together × (s.x.kind ≡ insert_kind) × (s.y.kind ≡ delete_kind) }
    ensures { Went compose_turn made n a.now b.now s out.old result out.new }
{
    let x = s.x;
    let y = s.y;
    let e = s.e;
    let j = y.to;
    let k = buffers::inner::lesser(x.left, y.left);
    let mid = reader::inner::cut(a, x, k);
    let g = reader::inner::rest(a, na, x, k, mid);
    let h = reader::inner::rest(b, nb, y, k, j);
    State { x: g, y: h, e }
}

fn step_both(a: &[u8], na: usize, b: &[u8], nb: usize, out: &mut [u8], n: usize, s: State) -> State
    requires { Operands na nb a.now b.now × Ready n a.now b.now s × Chooses compose_turn a.now b.now s.x s.y Together }
    ensures { Went compose_turn made n a.now b.now s out.old result out.new }
{
    let x = s.x;
    let y = s.y;
    if x.kind == AT_INSERT {
        if y.kind == AT_RETAIN {
            return insert_retain(a, na, b, nb, out, n, s);
        }
        return insert_delete(a, na, b, nb, out, n, s);
    }
    retained(a, na, b, nb, out, n, s)
}

// One step. A delete of the first goes before an insert of the second.
pub fn step(a: &[u8], na: usize, b: &[u8], nb: usize, out: &mut [u8], n: usize, s: State) -> State
    requires { Operands na nb a.now b.now × Ready n a.now b.now s × (live_is s.x s.y ≡ true) }
    ensures { Went compose_turn made n a.now b.now s out.old result out.new }
{
    let x = s.x;
    let y = s.y;
    if x.kind == AT_DELETE {
        return delete_first(a, na, b, out, n, s);
    }
    if y.kind == AT_INSERT {
        return insert_second(a, b, nb, out, n, s);
    }
    if x.kind == AT_END {
        return only_second(a, b, nb, out, n, s);
    }
    if y.kind == AT_END {
        return only_first(a, na, b, out, n, s);
    }
    step_both(a, na, b, nb, out, n, s)
}
