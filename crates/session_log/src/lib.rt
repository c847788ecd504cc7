// The log of a session: opened, and gone through.
#![tactic(auto)]

ghost use Rattle.std.specs.Prelude.{◌≡◌};
ghost use Rattle.answers.specs.Answer.{answer_of};
ghost use Rattle.session_log.specs.Open.{open_call};

use crate::inner::LOG_HEADER;
use answers::Refusal;
use record::inner::MAX_SIZE;

pub mod inner;

// The limit of a length, for lengths of 64 bits.
const LIMIT: u64 = MAX_SIZE as u64;

// A log with no revisions, for texts that have `start` characters at first.
pub fn open(start: u64, log: &mut [u8]) -> Result<usize, Refusal>
    ensures { (answer_of result ≡ (open_call start log.old).answer)
        × (log.new ≡ (open_call start log.old).out) }
{
    if LIMIT < start {
        return Err(Refusal::Limit);
    }
    if log.len() < LOG_HEADER {
        return Err(Refusal::Room);
    }
    buffers::inner::put16(log, 0, 0);
    buffers::inner::put16(log, 2, start as usize);
    Ok(LOG_HEADER)
}
