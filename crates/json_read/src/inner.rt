// A list is read value by value: each goes to an emitter as the builders take it. Once a limit is passed nothing more is emitted, since
// the record is refused whatever follows; the rest is only scanned, since bytes outside the form are refused before that.
ghost use Rattle.std.specs.Prelude.{◌≡◌, ◌^◌, ◌<◌, ◌≤◌, ◌&&◌, length, drop};
ghost use Rattle.characters.specs.Form.{is_well_formed};
ghost use Rattle.edits.specs.Op.{retain, delete};
ghost use Rattle.record.specs.Layout.{start_of_text};
ghost use Rattle.json_lists.specs.Form.{after_comma, at_start, at_end, reached, is_end};
ghost use Rattle.json_values.specs.InnerValues.{NoSpace};
ghost use Rattle.json_read.specs.InnerReading.{Holds, Feeds, FeedsRetain, FeedsText, Sized, FeedsValue, over_text};
ghost use Rattle.json_read.specs.InnerReading.{FollowsAt, ValuesRead, OpeningAt, FinishedBy, ListRead};

use emitter::inner::Emitter;
use json_lists::inner::{BEGIN_ARRAY, COMMA, END_ARRAY};
use json_values::inner::Value;
use record::inner::MAX_SIZE;

fn add_retain(e: Emitter, k: usize) -> Emitter
    requires { (k ≤ 65536) × Holds e }
    ensures { FeedsRetain k e result }
{
    if !emitter::inner::keeps_limits(e) {
        return e;
    }
    emitter::inner::retain(e, k)
}

fn add_delete(out: &mut [u8], n: usize, e: Emitter, k: usize) -> Emitter
    requires { (k ≤ 65536) × (n ≤ 2 ^ 40) × Holds e }
    ensures { Feeds n (delete k) e out.old result out.new }
{
    if !emitter::inner::keeps_limits(e) {
        return e;
    }
    emitter::inner::delete(out, n, e, k)
}

// An emitter that has passed a limit.
fn with_text_over(e: Emitter) -> Emitter
    ensures { result ≡ over_text e }
{
    Emitter {
        text: MAX_SIZE + 1,
        ..e
    }
}

// A text of so many bytes and characters. The bytes themselves have no place in the buffer.
fn add_insert(out: &mut [u8], n: usize, e: Emitter, bytes: usize, chars: usize) -> Emitter
    requires { (chars ≤ bytes) × (n ≤ 2 ^ 40) × (length out.old ≤ start_of_text n) × Holds e }
    ensures { FeedsText n bytes chars e out.old result out.new }
{
    if bytes == 0 {
        return e;
    }
    if !emitter::inner::keeps_limits(e) {
        return e;
    }
    if MAX_SIZE < bytes {
        return with_text_over(e);
    }
    emitter::inner::flush_if_closed(out, n, e);
    emitter::inner::inserted(e, bytes, chars)
}

// What a value says goes to the emitter.
fn add_value(out: &mut [u8], n: usize, e: Emitter, v: Value) -> Emitter
    requires { Sized v × (n ≤ 2 ^ 40) × (length out.old ≤ start_of_text n) × Holds e }
    ensures { FeedsValue n v e out.old result out.new }
{
    match v {
        Value::Retain(k) => add_retain(e, k),
        Value::Delete(k) => add_delete(out, n, e, k),
        Value::Insert { bytes, chars } => add_insert(out, n, e, bytes, chars),
    }
}

// What comes next in a list: a value, with its place, or the end of the list, with the place behind its bracket.
#[derive(Clone, Copy, Debug, PartialEq, Eq)]
pub enum Next {
    Value(usize),
    End(usize),
}

// What follows a value: a comma and the next value, or the end.
fn after_value(list: &[u8], at: usize) -> Option<Next>
    requires { at ≤ length list.now }
    ensures { FollowsAt list.now at result }
{
    let i = json_values::inner::after_spaces(list, at);
    match *list.get(i)? {
        COMMA => Some(Next::Value(json_values::inner::after_spaces(list, i + 1))),
        END_ARRAY => Some(Next::End(i + 1)),
        _ => None,
    }
}

// The place behind a list's values and the bracket that ends it, and what was emitted.
#[derive(Clone, Copy)]
pub struct Values {
    pub at: usize,
    pub e: Emitter,
}

// The values from `at` on, where nothing else stands before the end.
fn read_values(list: &[u8], at: usize, out: &mut [u8], n: usize) -> Option<Values>
    requires { (at ≤ length list.now) × NoSpace list.now at × (n ≤ 2 ^ 40) × (length out.old ≤ start_of_text n) }
    ensures { ValuesRead n list.now after_comma (drop at list.now) out.old result out.new }
{
    let mut e = emitter::inner::new_emitter();
    let mut i = at;
    loop {
        let x = json_values::inner::scan_value(list, i)?;
        e = add_value(out, n, e, x.value);
        match after_value(list, x.to)? {
            Next::Value(to) => {
                i = to;
            }
            Next::End(to) => return Some(Values { at: to, e }),
        }
    }
}

// What a list begins with: its bracket and the first value, or both brackets.
fn begins_with(list: &[u8]) -> Option<Next>
    ensures { OpeningAt list.now result }
{
    let i = json_values::inner::after_spaces(list, 0);
    if *list.get(i)? != BEGIN_ARRAY {
        return None;
    }
    let to = json_values::inner::after_spaces(list, i + 1);
    if *list.get(to)? == END_ARRAY {
        return Some(Next::End(to + 1));
    }
    Some(Next::Value(to))
}

// The values of the whole list.
fn read_array(list: &[u8], out: &mut [u8], n: usize) -> Option<Values>
    requires { (n ≤ 2 ^ 40) × (length out.old ≤ start_of_text n) }
    ensures { ValuesRead n list.now at_start list.now out.old result out.new }
{
    match begins_with(list)? {
        Next::Value(at) => read_values(list, at, out, n),
        Next::End(at) => Some(Values {
            at,
            e: emitter::inner::new_emitter(),
        }),
    }
}

// Whether nothing but white space stands from `at` on, behind the list's bracket.
fn ends(list: &[u8], at: usize) -> bool
    requires { at ≤ length list.now }
    ensures { result ≡ (is_well_formed (drop at list.now) && is_end (reached at_end (drop at list.now))) }
{
    list.len() <= json_values::inner::after_spaces(list, at)
}

// The pending group is written, unless a limit was passed.
fn finish(out: &mut [u8], n: usize, e: Emitter) -> Emitter
    requires { (n ≤ 2 ^ 40) × Holds e }
    ensures { FinishedBy n e out.old result out.new }
{
    if !emitter::inner::keeps_limits(e) {
        return e;
    }
    emitter::inner::finish(out, n, e)
}

// A list, read into a buffer with places for n operations and none for text: the sizes of the record of its values, of which all but the
// text is written; or none, where the bytes are no list of the form.
pub fn read_list(list: &[u8], out: &mut [u8], n: usize) -> Option<Emitter>
    requires { (n ≤ 2 ^ 40) × (length out.old ≤ start_of_text n) }
    ensures { ListRead n list.now out.old result out.new }
{
    let v = read_array(list, out, n)?;
    if !ends(list, v.at) {
        return None;
    }
    Some(finish(out, n, v.e))
}
