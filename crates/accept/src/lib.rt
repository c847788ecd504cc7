// An edit is accepted into a session's log.
#![tactic(auto)]

ghost use Rattle.std.specs.Prelude.{◌≡◌, ◌-◌};
ghost use Rattle.answers.specs.Answer.{pair_of};
ghost use Rattle.record.specs.Record.{record_fault};
ghost use Rattle.session_log.specs.Log.{count_of};
ghost use Rattle.session_log.specs.InnerScan.{Found};
ghost use Rattle.session.specs.Session.{accept_call};
ghost use Rattle.append.specs.InnerAccepting.{Admitted, Accepts};

use answers::Refusal;
use late_edits::inner::MEDIUM_EDIT;
use session_log::inner::{MAX_REVISIONS, Scan};

// An edit of so many bytes at most is short, and so are so many bytes of revisions.
const SHORT_EDIT: usize = 128;

const FEW_REVISIONS: usize = 384;

// An edit that n revisions came before meanwhile is rebased past them. A short edit past few bytes of revisions nearly always
// does with short buffers, which cost little to clear.
fn choose_buffers(
    edit: &[u8],
    r: u64,
    log: &mut [u8],
    s: Scan,
    n: usize,
    out: &mut [u8],
) -> Result<(usize, usize), Refusal>
    requires { Admitted edit.now r log.old s × (n ≡ count_of log.old - r) }
    ensures { Accepts edit.now r log.old out.old result log.new out.new }
{
    let size = reader::inner::size(edit);
    if MEDIUM_EDIT < size {
        return late_edits::inner::in_large_buffers(edit, r, log, s, n, out);
    }
    if SHORT_EDIT < size {
        return late_edits::inner::in_medium_buffers(edit, r, log, s, n, out);
    }
    if s.at + FEW_REVISIONS < s.size {
        return late_edits::inner::in_medium_buffers(edit, r, log, s, n, out);
    }
    late_edits::inner::in_small_buffers(edit, r, log, s, n, out)
}

// An edit that was checked goes into a log that can be read, unless 7, 8 or 9 refuses it.
fn admit(
    edit: &[u8],
    r: u64,
    log: &mut [u8],
    s: Scan,
    out: &mut [u8],
) -> Result<(usize, usize), Refusal>
    requires { (record_fault edit.now ≡ 0) × Found log.old r s }
    ensures { Accepts edit.now r log.old out.old result log.new out.new }
{
    let count = s.count as u64;
    if count < r {
        return Err(Refusal::Revision);
    }
    let base = reader::inner::base(edit);
    if base != s.len {
        return Err(Refusal::IncompatibleLengths);
    }
    if MAX_REVISIONS <= s.count {
        return Err(Refusal::Limit);
    }
    if r == count {
        return append::inner::append_unmoved(edit, r, log, s, out);
    }
    choose_buffers(edit, r, log, s, (count - r) as usize, out)
}

fn checked(edit: &[u8], r: u64, log: &mut [u8], out: &mut [u8]) -> Result<(usize, usize), Refusal>
    requires { record_fault edit.now ≡ 0 }
    ensures { Accepts edit.now r log.old out.old result log.new out.new }
{
    let Some(s) = session_log::inner::read(log, r) else {
        return Err(Refusal::Log);
    };
    admit(edit, r, log, s, out)
}

// An edit that was written against revision r: how many bytes the log grew by, and how many the counterparts have.
pub fn accept(
    edit: &[u8],
    r: u64,
    log: &mut [u8],
    out: &mut [u8],
) -> Result<(usize, usize), Refusal>
    ensures { (pair_of result ≡ (accept_call edit.now r log.old out.old).answer)
        × (log.new ≡ (accept_call edit.now r log.old out.old).out_a)
        × (out.new ≡ (accept_call edit.now r log.old out.old).out_b) }
{
    operation::check(edit)?;
    checked(edit, r, log, out)
}
