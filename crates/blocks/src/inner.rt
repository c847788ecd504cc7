// A text gone through by blocks of sixteen bytes (`block16` says why that works), its end by its last sixteen bytes.
ghost use Rattle.std.specs.Prelude.{◌≡◌, ◌+◌, ◌-◌, ◌≤◌, length};
ghost use Rattle.characters.specs.InnerBlock.{pending_of, before, OnlyIf, Window, StandWell};
ghost use Rattle.characters.specs.InnerPassed.{Passed};
ghost use Rattle.characters.specs.InnerAscii.{Runs};

// How far a text was gone through, and how many continuations were passed.
#[derive(Clone, Copy)]
pub struct Spot {
    pub at: usize,
    pub conts: usize,
}

// Whether blocks may begin at the end of a character: three bytes stand before it, nineteen in all, and nothing is pending.
fn begins(text: &[u8], at: usize) -> bool
    requires { at ≤ length text.now }
    ensures { OnlyIf result ((3 ≤ at) × (19 ≤ length text.now) × (before pending_of text.now at ≡ 0)) }
{
    if at < 3 {
        return false;
    }
    if text.len() < 19 {
        return false;
    }
    block16::inner::pending(text, at) == 0
}

// How far blocks go on well, from `from` on, as long as sixteen bytes are left.
fn pass(text: &[u8], from: usize, passed: usize) -> Spot
    requires { Window text.now from passed }
    ensures { Window text.now result.at result.conts }
{
    let mut i = from;
    let mut conts = passed;
    while 16 <= text.len() - i {
        if ascii::inner::are_ascii::<2>(text, i) {
            if block16::inner::pending(text, i) != 0 {
                return Spot { at: i, conts };
            }
            i += 16;
            if ascii::inner::ahead(text, i) {
                i = ascii::inner::bulk(text, i + 64);
            }
        } else {
            let s = block16::inner::check16(text, i);
            if s.bad != 0 {
                return Spot { at: i, conts };
            }
            i += 16;
            conts += s.conts as usize;
        }
    }
    Spot { at: i, conts }
}

// The place where the last whole character before w ended.
fn back(text: &[u8], w: Spot) -> Spot
    requires { Window text.now w.at w.conts }
    ensures { Passed text.now result.at result.conts }
{
    let n = block16::inner::pending(text, w.at) as usize;
    if n == 0 {
        return w;
    }
    Spot {
        at: w.at - n,
        conts: w.conts - (n - 1),
    }
}

// Whether only ASCII is left, told by the last eight bytes, and nothing is pending.
fn ends_ascii(text: &[u8], at: usize) -> bool
    requires { (3 ≤ at) × (at ≤ length text.now) × (8 ≤ length text.now) }
    ensures { OnlyIf result (Runs text.now at (length text.now) × (before pending_of text.now at ≡ 0)) }
{
    if 8 < text.len() - at {
        return false;
    }
    if !ascii::inner::are_ascii::<1>(text, text.len() - 8) {
        return false;
    }
    block16::inner::pending(text, at) == 0
}

// Whether the last sixteen bytes go on well, and nothing is pending behind them.
fn ends_well(text: &[u8]) -> bool
    requires { 19 ≤ length text.now }
    ensures { OnlyIf result (StandWell text.now (length text.now - 16) (length text.now)
        × (before pending_of text.now (length text.now) ≡ 0)) }
{
    let s = block16::inner::check16(text, text.len() - 16);
    if s.bad != 0 {
        return false;
    }
    block16::inner::pending(text, text.len()) == 0
}

// The end of the text where its last bytes tell that it ends well; else the place where the last whole character before w ended.
fn ending(text: &[u8], w: Spot) -> Spot
    requires { Window text.now w.at w.conts × (19 ≤ length text.now) }
    ensures { Passed text.now result.at result.conts }
{
    if 16 <= text.len() - w.at {
        return back(text, w);
    }
    if ends_ascii(text, w.at) {
        return Spot {
            at: text.len(),
            conts: w.conts,
        };
    }
    if ends_well(text) {
        let left = text.len() - w.at;
        return Spot {
            at: text.len(),
            conts: w.conts + (left - counting::inner::few_left(text, w.at)),
        };
    }
    back(text, w)
}

// The end of a character that is reached by blocks from the end of another, s.
pub fn through(text: &[u8], s: Spot) -> Spot
    requires { Passed text.now s.at s.conts }
    ensures { Passed text.now result.at result.conts }
{
    if !begins(text, s.at) {
        return s;
    }
    let w = pass(text, s.at, s.conts);
    ending(text, w)
}
