// What the crates above do with buffers of bytes: numbers of 16 bits read and written, and bytes copied. A byte that has no place in
// a buffer is not written.
ghost use Rattle.std.specs.Prelude.{◌≡◌, ◌<◌, ◌+◌, ◌^◌, ◌≤◌, ◌-◌, min, length, take, drop, [], ◌∷◌, ◌++◌};
ghost use Rattle.buffers.specs.Words.{word_at};
ghost use Rattle.buffers.specs.InnerOver.{over, bytes16};

// Low byte first.
pub fn word(rec: &[u8], at: usize) -> usize
    requires { at + 1 < length rec.now }
    ensures { (result ≡ word_at rec.now at) × (result < 65536) }
{
    usize::from(u16::from_le_bytes([rec[at], rec[at + 1]]))
}

pub fn put(out: &mut [u8], at: usize, v: u8)
    ensures { out.new ≡ over at (v ∷ []) out.old }
{
    if at < out.len() {
        out[at] = v;
    }
}

pub fn put16(out: &mut [u8], at: usize, v: usize)
    requires { at ≤ 2 ^ 50 }
    ensures { out.new ≡ over at (bytes16 v) out.old }
{
    let [low, high] = ((v % 65536) as u16).to_le_bytes();
    put(out, at, low);
    put(out, at + 1, high);
}

// As many of the bytes src[from..to] as have a place; FEW where they are mostly few.
fn copy_fitting<const FEW: bool>(out: &mut [u8], at: usize, src: &[u8], from: usize, to: usize)
    requires { (at ≤ 2 ^ 50) × (from ≤ to) × (to ≤ length src.now) }
    ensures { out.new ≡ over at (take (to - from) (drop from src.now)) out.old }
{
    if out.len() <= at {
        return;
    }
    let len = (to - from).min(out.len() - at);
    let fitting = &src[from..from + len];
    if FEW {
        copy_few(out, at, fitting);
    } else {
        copy_into(out, at, fitting);
    }
}

// As many of the bytes src[from..to] as have a place.
pub fn copy(out: &mut [u8], at: usize, src: &[u8], from: usize, to: usize)
    requires { (at ≤ 2 ^ 50) × (from ≤ to) × (to ≤ length src.now) }
    ensures { out.new ≡ over at (take (to - from) (drop from src.now)) out.old }
{
    copy_fitting::<false>(out, at, src, from, to);
}

// `copy` for what is mostly short. (In the emitter `copy` is inlined into loops, and has to be short itself.)
pub fn copy_short(out: &mut [u8], at: usize, src: &[u8], from: usize, to: usize)
    requires { (at ≤ 2 ^ 50) × (from ≤ to) × (to ≤ length src.now) }
    ensures { out.new ≡ over at (take (to - from) (drop from src.now)) out.old }
{
    copy_fitting::<true>(out, at, src, from, to);
}

pub fn lesser(a: usize, b: usize) -> usize
    ensures { result ≡ min a b }
{
    a.min(b)
}

// By a loop: `copy_from_slice` of a length that isn't known is a call of memmove, which the library for C asks nobody for.
pub fn copy_into(dst: &mut [u8], at: usize, src: &[u8])
    requires { at + length src.now ≤ length dst.old }
    ensures { dst.new ≡ take at dst.old ++ src.now ++ drop (at + length src.now)
        dst.old }
{
    for j in 0..src.len() {
        dst[at + j] = src[j];
    }
}

// N bytes, read before any is written: one move, where N is 1, 2, 4 or 8.
pub fn copy_array<const N: usize>(dst: &mut [u8], at: usize, src: &[u8], from: usize)
    requires { (at + N ≤ length dst.old) × (from + N ≤ length src.now) }
    ensures { dst.new ≡ take at dst.old ++ take N (drop from src.now) ++ drop (at + N)
        dst.old }
{
    let bytes = *src[from..from + N].as_array::<N>().unwrap();
    dst[at..at + N].copy_from_slice(&bytes);
}

// `copy_into` for what is mostly short: up to eight bytes are copied by two moves, which may overlap.
pub fn copy_few(dst: &mut [u8], at: usize, src: &[u8])
    requires { at + length src.now ≤ length dst.old }
    ensures { dst.new ≡ take at dst.old ++ src.now ++ drop (at + length src.now)
        dst.old }
{
    let n = src.len();
    if 8 < n {
        copy_into(dst, at, src);
        return;
    }
    if 4 <= n {
        copy_array::<4>(dst, at, src, 0);
        copy_array::<4>(dst, at + (n - 4), src, n - 4);
        return;
    }
    if 2 <= n {
        copy_array::<2>(dst, at, src, 0);
        copy_array::<2>(dst, at + (n - 2), src, n - 2);
        return;
    }
    if n == 1 {
        copy_array::<1>(dst, at, src, 0);
    }
}
