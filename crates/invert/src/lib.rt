// The Rust's `invert`, on records.
#![tactic(auto)]

ghost use Rattle.std.specs.Prelude.{◌≡◌, T};
ghost use Rattle.characters.specs.Form.{is_well_formed};
ghost use Rattle.characters.specs.Chars.{number_of_chars};
ghost use Rattle.characters.specs.Text.{chars as chars_of};
ghost use Rattle.edits.specs.Invert.{invert as invertOf};
ghost use Rattle.answers.specs.Answer.{answer_of};
ghost use Rattle.answers.specs.InnerGiven.{Gives};
ghost use Rattle.record.specs.Layout.{base_of};
ghost use Rattle.record.specs.Record.{ops, record_fault};
ghost use Rattle.operational_transform.specs.Calls.{deliver, invert_call};

use answers::Refusal;

pub mod inner;

// The answer of `invert` for a record and a text of base characters.
fn inverted(rec: &[u8], text: &[u8], out: &mut [u8]) -> Result<usize, Refusal>
    requires { (record_fault rec.now ≡ 0) × T (is_well_formed text.now) × (number_of_chars text.now ≡ base_of rec.now) }
    ensures { Gives (deliver 0 (invertOf (ops rec.now) (chars_of text.now)) out.old) result
        out.new }
{
    let count = reader::inner::op_count(rec);
    inner::decide(rec, count, text, out.len())?;
    Ok(invert_in_place::inner::write_in_place(rec, count, text, out))
}

// The sequence that undoes the record's on the text that it is applied to.
pub fn invert(rec: &[u8], text: &[u8], out: &mut [u8]) -> Result<usize, Refusal>
    ensures { (answer_of result ≡ (invert_call rec.now text.now out.old).answer)
        × (out.new ≡ (invert_call rec.now text.now out.old).out) }
{
    operation::check(rec)?;
    let Some(chars) = utf8::inner::form_of(text) else {
        return Err(Refusal::Utf8);
    };
    let base = reader::inner::base(rec);
    if chars != base {
        return Err(Refusal::IncompatibleLengths);
    }
    inverted(rec, text, out)
}
