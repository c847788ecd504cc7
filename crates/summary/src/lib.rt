// The revisions of a log composed into one record.
#![tactic(auto)]

ghost use Rattle.std.specs.Prelude.{◌≡◌, ◌≤◌, T};
ghost use Rattle.answers.specs.Answer.{answer_of};
ghost use Rattle.answers.specs.InnerGiven.{Gives};
ghost use Rattle.record.specs.Layout.{max_size};
ghost use Rattle.session_log.specs.Log.{count_of, start_of, readable};
ghost use Rattle.session.specs.Session.{summary_call};

use answers::Refusal;
use record::inner::MAX_RECORD;

// What the revisions do together, beginning with the sequence that retains the starting length.
pub fn summary(log: &[u8], out: &mut [u8]) -> Result<usize, Refusal>
    ensures { (answer_of result ≡ (summary_call log.now out.old).answer)
        × (out.new ≡ (summary_call log.now out.old).out) }
{
    let Some(s) = session_log::inner::read(log, 0) else {
        return Err(Refusal::Log);
    };
    summed(log, s.count, s.start, out)
}

// The answer of `summary` for a log that can be read. (`deliver_short` is there for `must-fail/room_left`: with `<` in place of its `<=` the
// function is proved.)
#[tactic(auto, using(crate::proofs::Answering::summed_is, answers::proofs::Delivered::deliver_short))]
fn summed(log: &[u8], count: usize, start: usize, out: &mut [u8]) -> Result<usize, Refusal>
    requires { T (readable log.now) × (count ≡ count_of log.now) × (start ≡ start_of log.now) × (start ≤ max_size) }
    ensures { Gives (summary_call log.now out.old) result out.new }
{
    let mut cur = [0u8; MAX_RECORD];
    let mut next = [0u8; MAX_RECORD];
    let k = partial::inner::sum_up(log, count, start, &mut cur, &mut next)?;
    answers::inner::deliver(&cur[..k], out)
}
