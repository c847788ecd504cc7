// Playing an edit: what a sequence makes of a text.
#![tactic(auto)]

ghost use Rattle.std.specs.Prelude.{◌≡◌, T};
ghost use Rattle.characters.specs.Form.{is_well_formed};
ghost use Rattle.characters.specs.Chars.{number_of_chars};
ghost use Rattle.answers.specs.Answer.{answer_of};
ghost use Rattle.record.specs.Layout.{base_of};
ghost use Rattle.record.specs.Record.{record_fault};
ghost use Rattle.operational_transform.specs.Calls.{apply_call};

use answers::Refusal;

// The text after the edit: retain copies, delete skips, insert writes.
pub fn apply(rec: &[u8], text: &[u8], out: &mut [u8]) -> Result<usize, Refusal>
    ensures { (answer_of result ≡ (apply_call rec.now text.now out.old).answer)
        × (out.new ≡ (apply_call rec.now text.now out.old).out) }
{
    operation::check(rec)?;
    let Some(chars) = utf8::inner::form_of(text) else {
        return Err(Refusal::Utf8);
    };
    let base = reader::inner::base(rec);
    if chars != base {
        return Err(Refusal::IncompatibleLengths);
    }
    write(rec, text, out)
}

// The text after the edit has no more bytes than the text before and what is inserted. Where there may be too little room
// a first run yields the size and writes nothing.
fn write(rec: &[u8], text: &[u8], out: &mut [u8]) -> Result<usize, Refusal>
    requires { (record_fault rec.now ≡ 0) × T (is_well_formed text.now) × (number_of_chars text.now ≡ base_of rec.now) }
    ensures { (answer_of result ≡ (apply_call rec.now text.now out.old).answer)
        × (out.new ≡ (apply_call rec.now text.now out.old).out) }
{
    let inserted = reader::inner::text_bytes(rec);
    if text.len() + inserted <= out.len() {
        return Ok(apply_steps::inner::apply_into(out, rec, text));
    }
    let size = apply_steps::inner::apply_into(&mut out[..0], rec, text);
    if out.len() < size {
        return Err(Refusal::Room);
    }
    Ok(apply_steps::inner::apply_into(out, rec, text))
}
