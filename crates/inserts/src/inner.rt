// The inserted texts of a record, at the end of which they stand one behind the other: whether each is well-formed, how many
// characters they have together, and where each begins.
ghost use Rattle.std.specs.Prelude.{◌≡◌, ◌<◌, drop};
ghost use Rattle.edits.specs.Built.{chained};
ghost use Rattle.record.specs.Record.{entries, byte_ops};
ghost use Rattle.record.specs.Layout.{op_count_of, start_of_text, text_bytes_of};
ghost use Rattle.inserts.specs.InnerTexts.{starts_with_char, Sound, inserted_of, Reached};

use record::inner::INSERT;

// Whether no insert begins with a continuation. Where all neighbours may stand so, none stands directly behind another.
pub fn start_well(rec: &[u8], n: usize, ordered: bool) -> bool
    requires { (n ≡ op_count_of rec.now) × (ordered ≡ chained (byte_ops rec.now)) × Sound rec.now }
    ensures { result ≡ starts_with_char (entries rec.now) (drop (start_of_text n) rec.now) }
{
    let behind = entries::inner::pick(ordered, 1) as usize;
    let mut at = layout::inner::text_start(n);
    let mut k = 0;
    while k < n {
        let kind = layout::inner::kind(rec, k);
        if kind == INSERT {
            let count = layout::inner::count(rec, n, k);
            if utf8::inner::continues(rec[at]) {
                return false;
            }
            at += count;
            k += behind;
        }
        k += 1;
    }
    true
}

// How many characters are inserted, unless an insert isn't well-formed. All inserts are checked at once: where the whole is well-formed,
// each is that begins with no continuation.
pub fn inserted_chars(rec: &[u8], n: usize, text: usize, ordered: bool) -> Option<usize>
    requires { (n ≡ op_count_of rec.now) × (text ≡ text_bytes_of rec.now) × (ordered ≡ chained (byte_ops rec.now)) × Sound rec.now }
    ensures { result ≡ inserted_of rec.now }
{
    if text == 0 {
        return Some(0);
    }
    let from = layout::inner::text_start(n);
    let to = from + text;
    let all = &rec[from..to];
    let Some(chars) = utf8::inner::typed_form(all) else {
        return None;
    };
    if chars < text {
        if !start_well(rec, n, ordered) {
            return None;
        }
    }
    Some(chars)
}

// Where the text of operation k begins, were it an insert.
pub fn text_at(rec: &[u8], n: usize, k: usize) -> usize
    requires { (n ≡ op_count_of rec.now) × (k < n) × Sound rec.now }
    ensures { Reached rec.now k result }
{
    let mut at = layout::inner::text_start(n);
    for i in 0..k {
        if layout::inner::kind(rec, i) == INSERT {
            at += layout::inner::count(rec, n, i);
        }
    }
    at
}
