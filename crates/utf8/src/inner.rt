// What the crates above need of text in bytes.
ghost use Rattle.std.specs.Prelude.{◌≡◌, ◌+◌, ◌<◌, ◌≤◌, T, length, drop};
ghost use Rattle.characters.specs.Chars.{is_continuation, take_chars};
ghost use Rattle.characters.specs.InnerPassed.{form_of};
ghost use Rattle.characters.specs.Form.{is_well_formed};
ghost use Rattle.characters.specs.Order.{byte_order};
ghost use Rattle.utf8.specs.InnerChars.{CharAt};

use std::cmp::Ordering;

pub fn continues(b: u8) -> bool
    ensures { result ≡ is_continuation b }
{
    counting::inner::is_cont(b)
}

pub fn form_of(text: &[u8]) -> Option<usize>
    ensures { result ≡ form_of text.now }
{
    crate::form_from(text, 0)
}

// `form_of` for texts that are short and ASCII for the most part, as typed ones are.
pub fn typed_form(text: &[u8]) -> Option<usize>
    ensures { result ≡ form_of text.now }
{
    let i = ascii::inner::short_run(text);
    if i == text.len() {
        return Some(i);
    }
    form_of(text)
}

// How many bytes stand behind the first of the character at `at`: none where it is ASCII, or where no well-formed character begins.
pub fn continuations(text: &[u8], at: usize) -> usize
    requires { at < length text.now }
    ensures { CharAt text.now at result }
{
    let Some((more, lo, hi)) = crate::lead_of(text[at]) else {
        return 0;
    };
    if !crate::due(text, at + 1, more, lo, hi) {
        return 0;
    }
    more
}

// The place k characters after `at`, or the end where they run out: by the first bytes, as the text is well-formed.
pub fn skip(bytes: &[u8], at: usize, k: usize) -> usize
    requires { (at ≤ length bytes.now) × T (is_well_formed (drop at bytes.now)) }
    ensures { result ≡ at + length (take_chars k (drop at bytes.now)) }
{
    let mut i = at;
    for _passed in 0..k {
        if i == bytes.len() {
            return i;
        }
        i += crate::width(bytes[i]);
    }
    i
}

#[tactic(auto, using(crate::proofs::Orders::cmp_order))]
pub fn compare(a: &[u8], b: &[u8]) -> Ordering
    ensures { result ≡ byte_order a.now b.now }
{
    a.cmp(b)
}
