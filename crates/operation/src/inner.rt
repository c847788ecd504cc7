// The parts of the check, so that another crate can go over the entries or the inserted texts in its own way between them; and what the
// crates above ask of a record that was checked.
ghost use Rattle.std.specs.Prelude.{◌≡◌, ◌<◌, ◌≤◌};
ghost use Rattle.answers.specs.Answer.{answer_of};
ghost use Rattle.record.specs.Layout.{op_count_of, max_record};
ghost use Rattle.record.specs.Record.{is_within_limits, record_fault};
ghost use Rattle.record.specs.Calls.{check_call, start_of_insert};
ghost use Rattle.inserts.specs.InnerTexts.{inserted_of};
ghost use Rattle.operation.specs.InnerEntered.{entered_of};

use answers::Refusal;
use record::inner::{HEADER, MAX_OPS, MAX_SIZE};

// Refusal 1 is not found.
pub fn in_limits(rec: &[u8]) -> bool
    ensures { result ≡ is_within_limits rec.now }
{
    if rec.len() < HEADER {
        return false;
    }
    let n = layout::inner::op_count(rec);
    if MAX_OPS < n {
        return false;
    }
    let text = layout::inner::text_bytes(rec);
    if MAX_SIZE < text {
        return false;
    }
    if MAX_SIZE < layout::inner::base(rec) {
        return false;
    }
    if MAX_SIZE < layout::inner::target(rec) {
        return false;
    }
    layout::inner::text_start(n) + text <= rec.len()
}

// How many operations and bytes of text a record has, and what its kinds and counts come to: whether all neighbours may stand so, the
// characters of the text before the edit, and those of them that stay.
#[derive(Clone, Copy)]
pub struct Totals {
    pub ops: usize,
    pub text: usize,
    pub ordered: bool,
    pub base: usize,
    pub kept: usize,
}

// The check, but for the inserted texts and what comes after them: the totals, or refusal 1 or 2. (Only `check` calls it, so that it is
// inlined there.)
pub fn check_entries(rec: &[u8]) -> Result<Totals, Refusal>
    ensures { result ≡ entered_of rec.now }
{
    if !in_limits(rec) {
        return Err(Refusal::Size);
    }
    let n = layout::inner::op_count(rec);
    let text = layout::inner::text_bytes(rec);
    let Some(sums) = tally::inner::sum_up(rec, n) else {
        return Err(Refusal::Entry);
    };
    if sums.inserts != text {
        return Err(Refusal::Entry);
    }
    Ok(Totals {
        ops: n,
        text,
        ordered: sums.ordered,
        base: sums.base,
        kept: sums.kept,
    })
}

// What the check comes to, by what was found of the inserted texts.
pub fn check_sums(rec: &[u8], t: Totals, inserted: Option<usize>) -> Result<usize, Refusal>
    requires { (Ok t ≡ entered_of rec.now) × (inserted ≡ inserted_of rec.now) }
    ensures { answer_of result ≡ check_call rec.now }
{
    let Some(chars) = inserted else {
        return Err(Refusal::Utf8);
    };
    if !t.ordered {
        return Err(Refusal::Neighbours);
    }
    if t.base != layout::inner::base(rec) {
        return Err(Refusal::Sums);
    }
    let target = t.kept + chars;
    if target != layout::inner::target(rec) {
        return Err(Refusal::Sums);
    }
    Ok(layout::inner::text_start(t.ops) + t.text)
}

// Where the text of operation k of n begins, were it an insert.
pub fn text_from(rec: &[u8], n: usize, k: usize) -> usize
    requires { (record_fault rec.now ≡ 0) × (n ≡ op_count_of rec.now) × (k < op_count_of rec.now) }
    ensures { (result ≡ start_of_insert rec.now k) × (result ≤ max_record) }
{
    inserts::inner::text_at(rec, n, k)
}
