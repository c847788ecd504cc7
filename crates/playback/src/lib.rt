// Playing a log's revisions on a text, oldest first.
#![tactic(auto)]

ghost use Rattle.std.specs.Prelude.{◌≡◌, length};
ghost use Rattle.answers.specs.Answer.{answer_of};
ghost use Rattle.session.specs.Session.{play_call};

use answers::Refusal;

// The text after all revisions. The scratch buffers each have to hold every text on the way.
pub fn play(
    log: &[u8],
    text: &[u8],
    scratch_a: &mut [u8],
    scratch_b: &mut [u8],
    out: &mut [u8],
) -> Result<usize, Refusal>
    ensures { (answer_of result ≡ (play_call log.now text.now (length scratch_a.old)
        (length scratch_b.old) out.old).answer)
        × (out.new ≡ (play_call log.now text.now (length scratch_a.old)
        (length scratch_b.old) out.old).out) }
{
    let Some(chars) = utf8::inner::form_of(text) else {
        return Err(Refusal::Utf8);
    };
    let Some(scan) = session_log::inner::read(log, 0) else {
        return Err(Refusal::Log);
    };
    if chars != scan.start {
        return Err(Refusal::IncompatibleLengths);
    }
    let Some((n, _)) = playback_steps::inner::play_first(
        log, scan.count, text, scratch_a, scratch_b,
    ) else {
        return Err(Refusal::Room);
    };
    answers::inner::deliver(&scratch_a[..n], out)
}
