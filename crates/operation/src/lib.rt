// A sequence of operations as a byte record: checked, and asked for its lengths, its effect and its text.
#![tactic(auto)]

ghost use Rattle.std.specs.Prelude.{◌≡◌};
ghost use Rattle.answers.specs.Answer.{answer_of, noop_of};
ghost use Rattle.record.specs.Calls.{check_call, base_call, target_call, noop_call, text_call};

use answers::Refusal;
use record::inner::{INSERT, RETAIN};

pub mod inner;

// How many bytes the record has, or the lowest of the refusals 1 to 5 that is found in it. (`&rec[..]`: a slice that is handed on as it
// came is copied sixteen bytes at a time, and the copy waits for the two words that were just stored.)
pub fn check(rec: &[u8]) -> Result<usize, Refusal>
    ensures { answer_of result ≡ check_call rec.now }
{
    let t = inner::check_entries(&rec[..])?;
    let inserted = inserts::inner::inserted_chars(rec, t.ops, t.text, t.ordered);
    inner::check_sums(rec, t, inserted)
}

// How many characters the text before the edit has.
pub fn base_len(rec: &[u8]) -> Result<usize, Refusal>
    ensures { answer_of result ≡ base_call rec.now }
{
    check(rec)?;
    Ok(layout::inner::base(rec))
}

// How many characters the text after the edit has.
pub fn target_len(rec: &[u8]) -> Result<usize, Refusal>
    ensures { answer_of result ≡ target_call rec.now }
{
    check(rec)?;
    Ok(layout::inner::target(rec))
}

// Whether the edit changes no text: no operations, or one retain.
pub fn is_noop(rec: &[u8]) -> Result<bool, Refusal>
    ensures { noop_of result ≡ noop_call rec.now }
{
    check(rec)?;
    let n = layout::inner::op_count(rec);
    if n == 0 {
        return Ok(true);
    }
    if 1 < n {
        return Ok(false);
    }
    Ok(layout::inner::kind(rec, 0) == RETAIN)
}

// The text of operation k: a part of the record, empty where there is none.
pub fn insert_text(rec: &[u8], k: usize) -> &[u8]
    ensures { result.now ≡ text_call rec.now k }
{
    let Ok(_) = check(rec) else {
        return &rec[0..0];
    };
    let n = layout::inner::op_count(rec);
    if n <= k {
        return &rec[0..0];
    }
    let kind = layout::inner::kind(rec, k);
    if kind != INSERT {
        return &rec[0..0];
    }
    let from = inserts::inner::text_at(rec, n, k);
    let to = from + layout::inner::count(rec, n, k);
    &rec[from..to]
}
