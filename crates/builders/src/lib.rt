// The Rust's `retain`, `delete` and `insert`, on records.
#![tactic(auto)]

ghost use Rattle.std.specs.Prelude.{◌≡◌, ◌≤◌, T, length};
ghost use Rattle.characters.specs.Form.{is_well_formed};
ghost use Rattle.characters.specs.Chars.{number_of_chars};
ghost use Rattle.characters.specs.Text.{chars};
ghost use Rattle.edits.specs.Op.{retain, delete, insert};
ghost use Rattle.edits.specs.Build.{extend};
ghost use Rattle.answers.specs.InnerGiven.{Gives};
ghost use Rattle.answers.specs.Answer.{answer_of};
ghost use Rattle.record.specs.Layout.{max_size};
ghost use Rattle.record.specs.Record.{record_fault, ops};
ghost use Rattle.operational_transform.specs.Calls.{deliver, retain_call, delete_call, insert_call};

use answers::Refusal;
use record::inner::MAX_SIZE;

// The limit of a count, for counts of 64 bits.
const LIMIT: u64 = MAX_SIZE as u64;

// The answer of `retain` for a record that was checked and a count within the limits.
fn retained(rec: &[u8], k: usize, out: &mut [u8]) -> Result<usize, Refusal>
    requires { (record_fault rec.now ≡ 0) × (k ≤ max_size) }
    ensures { Gives (deliver 0 (extend (ops rec.now) (retain k)) out.old) result out.new }
{
    let ops = reader::inner::op_count(rec);
    let f = extend::inner::retain_more(rec, ops, k);
    let g = extend::inner::closed(f);
    let b = emitter::inner::limits_then_room(g, out.len())?;
    let bytes = reader::inner::text_bytes(rec);
    places::inner::relocate(out, g.ops, rec, ops, f.ops, bytes);
    extend::inner::finish(out, f, g);
    Ok(b)
}

fn deleted(rec: &[u8], k: usize, out: &mut [u8]) -> Result<usize, Refusal>
    requires { (record_fault rec.now ≡ 0) × (k ≤ max_size) }
    ensures { Gives (deliver 0 (extend (ops rec.now) (delete k)) out.old) result out.new }
{
    let ops = reader::inner::op_count(rec);
    let f = extend::inner::delete_more(rec, ops, k);
    let g = extend::inner::closed(f);
    let b = emitter::inner::limits_then_room(g, out.len())?;
    let bytes = reader::inner::text_bytes(rec);
    places::inner::relocate(out, g.ops, rec, ops, f.ops, bytes);
    extend::inner::finish(out, f, g);
    Ok(b)
}

fn inserted(rec: &[u8], text: &[u8], num: usize, out: &mut [u8]) -> Result<usize, Refusal>
    requires { (record_fault rec.now ≡ 0) × T (is_well_formed text.now) × (num ≡ number_of_chars text.now) × (length text.now ≤ max_size) }
    ensures { Gives (deliver 0 (extend (ops rec.now) (insert (chars text.now))) out.old) result
        out.new }
{
    let ops = reader::inner::op_count(rec);
    let f = extend::inner::insert_more(rec, ops, text, num);
    let g = extend::inner::closed(f);
    let room = out.len();
    let b = emitter::inner::limits_then_room(g, room)?;
    let bytes = reader::inner::text_bytes(rec);
    extend::inner::settle_with(out, g.ops, rec, ops, f.ops, bytes, text);
    extend::inner::finish(out, f, g);
    Ok(b)
}

// The record with a retain of n characters behind it. What counts more than a limit lets no result within the limits.
pub fn retain(rec: &[u8], n: u64, out: &mut [u8]) -> Result<usize, Refusal>
    ensures { (answer_of result ≡ (retain_call rec.now n out.old).answer)
        × (out.new ≡ (retain_call rec.now n out.old).out) }
{
    operation::check(rec)?;
    if LIMIT < n {
        return Err(Refusal::Limit);
    }
    retained(rec, n as usize, out)
}

// The record with a delete of n characters behind it.
pub fn delete(rec: &[u8], n: u64, out: &mut [u8]) -> Result<usize, Refusal>
    ensures { (answer_of result ≡ (delete_call rec.now n out.old).answer)
        × (out.new ≡ (delete_call rec.now n out.old).out) }
{
    operation::check(rec)?;
    if LIMIT < n {
        return Err(Refusal::Limit);
    }
    deleted(rec, n as usize, out)
}

// The record with the text inserted: behind its last operation, or before it where that is a delete.
pub fn insert(rec: &[u8], text: &[u8], out: &mut [u8]) -> Result<usize, Refusal>
    ensures { (answer_of result ≡ (insert_call rec.now text.now out.old).answer)
        × (out.new ≡ (insert_call rec.now text.now out.old).out) }
{
    operation::check(rec)?;
    let Some(num) = utf8::inner::typed_form(text) else {
        return Err(Refusal::Utf8);
    };
    if MAX_SIZE < text.len() {
        return Err(Refusal::Limit);
    }
    inserted(rec, text, num, out)
}
