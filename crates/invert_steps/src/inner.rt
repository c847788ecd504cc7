// A record that was checked is gone through operation by operation, the text along with it, and what undoes each is emitted.
//
// This way stands beside the one in place (crate invert_in_place), which is `invert`'s. The compiler inlines the way in place into
// `invert` only as long as nothing else calls it, and without that every `invert` is 2 to 3 ns slower: whatever else needs an inverse
// takes this way. The way in place also asks that no two inserts are neighbours, which M-110 allows; this way doesn't ask it.
ghost use Rattle.std.specs.Prelude.{◌≡◌, ◌+◌, ◌^◌, ◌<◌, ◌≤◌, T, [], ◌∷◌, length, drop};
ghost use Rattle.characters.specs.Form.{is_well_formed};
ghost use Rattle.characters.specs.Chars.{number_of_chars};
ghost use Rattle.characters.specs.InnerPlaces.{Passes};
ghost use Rattle.characters.specs.Text.{chars as chars_of};
ghost use Rattle.edits.specs.Invert.{invert as invertOf};
ghost use Rattle.record.specs.Layout.{op_count_of, base_of, start_of_text};
ghost use Rattle.record.specs.Record.{ops, record_fault};
ghost use Rattle.emitter.specs.InnerEmit.{Under, Adds, Writes};
ghost use Rattle.invert_in_place.specs.InnerInverting.{inserted_back};
ghost use Rattle.invert_steps.specs.InnerEmitting.{taken, undone};

use emitter::inner::Emitter;
use record::inner::{AT_END, AT_INSERT, AT_RETAIN, Front};

// The place in the text behind what the operation takes from it.
fn after_taken(text: &[u8], at: usize, f: Front) -> usize
    requires { (at ≤ length text.now) × T (is_well_formed (drop at text.now)) }
    ensures { Passes text.now at (taken f) result }
{
    if f.kind == AT_INSERT {
        return at;
    }
    utf8::inner::skip(text, at, f.left)
}

// What undoes the operation, which takes text[at..to], is emitted.
fn emit_inverse(
    text: &[u8],
    out: &mut [u8],
    n: usize,
    e: Emitter,
    f: Front,
    at: usize,
    to: usize,
) -> Emitter
    requires { (n ≤ 2 ^ 40) × Under (2 ^ 40) e × (f.left < 65536) × Passes text.now at (taken f) to
        × (taken f ≤ length (chars_of (drop at text.now))) }
    ensures { Adds n (undone f (chars_of (drop at text.now)) ∷ []) e out.old result out.new }
{
    if f.kind == AT_RETAIN {
        return emitter::inner::retain(e, f.left);
    }
    if f.kind == AT_INSERT {
        return emitter::inner::delete(out, n, e, f.left);
    }
    emitter::inner::insert(out, n, e, text, at, to, f.left)
}

// The inverse's record is written with places for `count` operations, all of it that has a place in the output, and the size of such a
// record given. Where no two inserts are neighbours the inverse has just so many operations.
pub fn write_emitted(rec: &[u8], count: usize, text: &[u8], out: &mut [u8]) -> usize
    requires { (record_fault rec.now ≡ 0) × (count ≡ op_count_of rec.now) × T (is_well_formed text.now)
        × (number_of_chars text.now ≡ base_of rec.now) }
    ensures { (result ≡ start_of_text count + inserted_back rec.now text.now)
        × Writes count (invertOf (ops rec.now) (chars_of text.now)) out.old out.new }
{
    let mut e = emitter::inner::new_emitter();
    let mut f = reader::inner::first_front(rec, count);
    let mut at = 0;
    while f.kind != AT_END {
        let to = after_taken(text, at, f);
        e = emit_inverse(text, out, count, e, f, at, to);
        f = reader::inner::load(rec, count, f.next, f.to);
        at = to;
    }
    let whole = emitter::inner::finish(out, count, e);
    emitter::inner::write_header(out, whole);
    layout::inner::text_start(count) + whole.text
}
