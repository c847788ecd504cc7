// What invert and undo share: whether a limit or the room refuses the inverse of a record that was checked on a text of its base.
ghost use Rattle.std.specs.Prelude.{◌≡◌, ◌+◌, ◌≤◌, ◌&&◌, T, length, nat_le};
ghost use Rattle.characters.specs.Form.{is_well_formed};
ghost use Rattle.characters.specs.Chars.{number_of_chars};
ghost use Rattle.record.specs.Layout.{op_count_of, max_ops, base_of, start_of_text, max_size};
ghost use Rattle.record.specs.Record.{record_fault};
ghost use Rattle.invert_in_place.specs.InnerInverting.{inserted_back};
ghost use Rattle.invert.specs.InnerDeciding.{decided_of};

use answers::Refusal;
use record::inner::MAX_SIZE;

// How many bytes the inverse inserts: those that the edit deletes, which are the text's and the inserted ones less those of the text
// after the edit. A run of apply on an output of no bytes yields the size of that.
fn deleted_bytes(rec: &[u8], text: &[u8]) -> usize
    requires { (record_fault rec.now ≡ 0) × T (is_well_formed text.now) × (number_of_chars text.now ≡ base_of rec.now) }
    ensures { (result ≡ inserted_back rec.now text.now) × (result ≤ length text.now) }
{
    let mut none = [0u8; 0];
    let played = apply_steps::inner::apply_into(&mut none, rec, text);
    text.len() + reader::inner::text_bytes(rec) - played
}

// Whether nothing can be refused: the inverse has as many operations as the record, and no more text than the text.
fn surely_fits(count: usize, text: &[u8], room: usize) -> bool
    requires { count ≤ max_ops }
    ensures { result ≡ (nat_le (length text.now) max_size && nat_le (start_of_text count + length text.now) room) }
{
    if MAX_SIZE < text.len() {
        return false;
    }
    layout::inner::text_start(count) + text.len() <= room
}

// Whether the inverse is written: nothing refuses it, or 9 does, or then 10.
pub fn decide(rec: &[u8], count: usize, text: &[u8], room: usize) -> Result<(), Refusal>
    requires { (record_fault rec.now ≡ 0) × (count ≡ op_count_of rec.now) × (count ≤ max_ops) × T (is_well_formed text.now)
        × (number_of_chars text.now ≡ base_of rec.now) }
    ensures { result ≡ decided_of (inserted_back rec.now text.now) count room }
{
    if surely_fits(count, text, room) {
        return Ok(());
    }
    let size = deleted_bytes(rec, text);
    if MAX_SIZE < size {
        return Err(Refusal::Limit);
    }
    if room < layout::inner::text_start(count) + size {
        return Err(Refusal::Room);
    }
    Ok(())
}
