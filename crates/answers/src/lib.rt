// What a call gives back: its result, or a refusal with its number.
#![tactic(auto)]

ghost use Rattle.std.specs.Prelude.{◌≡◌, ◌≤◌};
ghost use Rattle.answers.specs.Answer.{number as number_of};

pub mod inner;

// Why a call is refused: document 01's numbers 1 to 10, in order, and document 02's from 11 on.
#[derive(Clone, Copy, Debug, PartialEq, Eq)]
pub enum Refusal {
    // A record's buffer is too short for it, or a size passes its limit.
    Size,
    // An unknown kind, a count of 0, or insert counts that don't add up to the text.
    Entry,
    // A text, or one insert's bytes, isn't well-formed UTF-8.
    Utf8,
    // Two neighbours of one kind, or an insert directly behind a delete.
    Neighbours,
    // The stated base or target isn't the sum.
    Sums,
    // The log can't be read.
    Log,
    // The revision named is none of the log's.
    Revision,
    // Two lengths that have to agree differ (the Rust's `OTError`).
    IncompatibleLengths,
    // A result would pass a limit.
    Limit,
    // A buffer is too short for what goes into it.
    Room,
    // Bytes that aren't a list of the form that `from_json` reads.
    Json,
}

impl Refusal {
    pub fn number(self) -> u8
        ensures { (result ≡ number_of self) × (result ≤ 11) }
    {
        match self {
            Refusal::Size => 1,
            Refusal::Entry => 2,
            Refusal::Utf8 => 3,
            Refusal::Neighbours => 4,
            Refusal::Sums => 5,
            Refusal::Log => 6,
            Refusal::Revision => 7,
            Refusal::IncompatibleLengths => 8,
            Refusal::Limit => 9,
            Refusal::Room => 10,
            Refusal::Json => 11,
        }
    }
}
