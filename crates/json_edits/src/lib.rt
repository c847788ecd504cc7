// Edits as JSON lists (RFC 8259), as a browser sends and takes them: a positive whole number retains, a negative one deletes, a string
// inserts.
#![tactic(auto)]

ghost use Rattle.std.specs.Prelude.{◌≡◌, ◌≤◌, length};
ghost use Rattle.answers.specs.Answer.{answer_of};
ghost use Rattle.answers.specs.InnerGiven.{Gives};
ghost use Rattle.record.specs.Layout.{start_of_text, max_ops};
ghost use Rattle.emitter.specs.InnerEmit.{Writes};
ghost use Rattle.json_lists.specs.Form.{at_start, items};
ghost use Rattle.json_lists.specs.Calls.{ops_of, from_json_call, to_json_call};
ghost use Rattle.json_edits.specs.InnerStages.{Placeable, Enough};

use answers::Refusal;
use emitter::inner::Emitter;
use record::inner::{HEADER, MAX_OPS, OP_BYTES};

// The record of a list, whose operations stand in a stage with places for `slots` of them: its text, its operations and its sizes.
fn place(list: &[u8], stage: &[u8], slots: usize, e: Emitter, out: &mut [u8])
    requires { Placeable list.now stage.now slots e out.old }
    ensures { Writes e.ops (ops_of (items at_start list.now)) out.old out.new }
{
    let n = e.ops;
    json_texts::inner::copy_texts(list, out, layout::inner::text_start(n));
    places::inner::relocate_ops(out, n, stage, slots, n);
    emitter::inner::write_header(out, e);
}

// A list is read into a stage, judged, and its record written. It has no more operations than bytes, and more than 1,024 are refused.
fn staged(list: &[u8], stage: &mut [u8], slots: usize, out: &mut [u8]) -> Result<usize, Refusal>
    requires { (slots ≤ max_ops) × (length stage.old ≡ start_of_text slots) × Enough slots list.now }
    ensures { Gives (from_json_call list.now out.old) result out.new }
{
    let Some(e) = json_read::inner::read_list(list, stage, slots) else {
        return Err(Refusal::Json);
    };
    let k = emitter::inner::limits_then_room(e, out.len())?;
    place(list, stage, slots, e, out);
    Ok(k)
}

// `staged`, in a stage with places for so many operations, which has so many bytes.
fn in_stage<const SLOTS: usize, const BYTES: usize>(
    list: &[u8],
    out: &mut [u8],
) -> Result<usize, Refusal>
    requires { (SLOTS ≤ max_ops) × (BYTES ≡ start_of_text SLOTS) × Enough SLOTS list.now }
    ensures { Gives (from_json_call list.now out.old) result out.new }
{
    let mut stage = [0u8; BYTES];
    staged(list, &mut stage, SLOTS, out)
}

// The operations that the small stage has places for; the large one has them for as many as a record may have.
const SMALL_OPS: usize = 128;

const SMALL_STAGE: usize = HEADER + OP_BYTES * SMALL_OPS;

const LARGE_STAGE: usize = HEADER + OP_BYTES * MAX_OPS;

// The record that a list gives through the builders, one value after another; 11 where the bytes are no list of the form.
pub fn from_json(list: &[u8], out: &mut [u8]) -> Result<usize, Refusal>
    ensures { (answer_of result ≡ (from_json_call list.now out.old).answer)
        × (out.new ≡ (from_json_call list.now out.old).out) }
{
    if SMALL_OPS < list.len() {
        return in_stage::<MAX_OPS, LARGE_STAGE>(list, out);
    }
    in_stage::<SMALL_OPS, SMALL_STAGE>(list, out)
}

// The answer of `to_json`.
fn write_measured(rec: &[u8], out: &mut [u8]) -> Result<usize, Refusal>
    ensures { Gives (to_json_call rec.now out.old) result out.new }
{
    let list = json_measure::inner::measure(rec)?;
    if out.len() < list.bytes {
        return Err(Refusal::Room);
    }
    json_write::inner::write_list(out, rec, list.ops);
    Ok(list.bytes)
}

// The list of a record; its own refusal where it has one, and 10 where the list has no room.
pub fn to_json(rec: &[u8], out: &mut [u8]) -> Result<usize, Refusal>
    ensures { (answer_of result ≡ (to_json_call rec.now out.old).answer)
        × (out.new ≡ (to_json_call rec.now out.old).out) }
{
    write_measured(rec, out)
}
