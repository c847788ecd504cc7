// The first revisions of a log are played on a text, oldest first, each from the first scratch buffer into the second and back.
ghost use Rattle.std.specs.Prelude.{◌≡◌, ◌≤◌, T, length, take};
ghost use Rattle.characters.specs.Form.{is_well_formed};
ghost use Rattle.characters.specs.Chars.{number_of_chars};
ghost use Rattle.record.specs.Layout.{base_of};
ghost use Rattle.record.specs.Record.{record_fault};
ghost use Rattle.session_log.specs.Log.{count_of, start_of, readable};
ghost use Rattle.playback_steps.specs.InnerStages.{Ends, Advances, Holds};

use session_log::inner::LOG_HEADER;

// The text goes to the front of `a`, unless it is too long.
fn store_text(a: &mut [u8], text: &[u8]) -> bool
    ensures { Holds text.now a.old a.new result }
{
    if a.len() < text.len() {
        return false;
    }
    buffers::inner::copy_into(a, 0, text);
    true
}

// The text a[..n] becomes the text after the edit: how many bytes it has, unless one of the two buffers is too short.
fn advance(rec: &[u8], n: usize, a: &mut [u8], b: &mut [u8]) -> Option<usize>
    requires { (record_fault rec.now ≡ 0) × (n ≤ length a.old) × T (is_well_formed (take n a.old))
        × (number_of_chars (take n a.old) ≡ base_of rec.now) }
    ensures { Advances rec.now (take n a.old) (length a.old) (length b.old)
        a.new result }
{
    let m = apply_steps::inner::apply_into(b, rec, &a[..n]);
    if b.len() < m {
        return None;
    }
    if !store_text(a, &b[..m]) {
        return None;
    }
    Some(m)
}

// The first j revisions, played on the text a[..n]: how many bytes the text at the front of `a` has then, and where the next revision
// begins. Nothing where one of the two buffers is too short.
fn play_revisions(
    log: &[u8],
    j: usize,
    n: usize,
    a: &mut [u8],
    b: &mut [u8],
) -> Option<(usize, usize)>
    requires { T (readable log.now) × (j ≤ count_of log.now) × (n ≤ length a.old) × (n ≤ length b.old)
        × T (is_well_formed (take n a.old)) × (number_of_chars (take n a.old) ≡ start_of log.now) }
    ensures { Ends log.now j (take n a.old) (length a.old) (length b.old)
        a.new result }
{
    let mut len = n;
    let mut at = LOG_HEADER;
    for _k in 0..j {
        let rec = &log[at..];
        len = advance(rec, len, a, b)?;
        at += reader::inner::size(rec);
    }
    Some((len, at))
}

// `play_revisions` on a text that stands elsewhere. The scratch buffers each have to hold every text on the way.
pub fn play_first(
    log: &[u8],
    j: usize,
    text: &[u8],
    a: &mut [u8],
    b: &mut [u8],
) -> Option<(usize, usize)>
    requires { T (readable log.now) × (j ≤ count_of log.now) × T (is_well_formed text.now)
        × (number_of_chars text.now ≡ start_of log.now) }
    ensures { Ends log.now j text.now (length a.old) (length b.old) a.new result }
{
    if b.len() < text.len() {
        return None;
    }
    if !store_text(a, text) {
        return None;
    }
    play_revisions(log, j, text.len(), a, b)
}
