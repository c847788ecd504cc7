// The program `play`: standard input is a log and then a text, and the text after all revisions goes to standard output.
#![tactic(auto)]

ghost use Rattle.std.specs.Prelude.{◌≡◌, ◌≤◌, T, length};
ghost use Rattle.answers.specs.Answer.{number};
ghost use Rattle.session_log.specs.Log.{readable, size_of_log};
ghost use Rattle.play_program.specs.Program.{program, Writes, complaint, max_input};

use answers::Refusal;

pub mod inner;

// "input over 65,536 bytes is `refused 10`": so many bytes have the scratch buffers and the output, too.
pub const MAX_INPUT: usize = 65536;

// The program's output for its input: how many bytes of it are written.
pub fn play_input(input: &[u8], out: &mut [u8; MAX_INPUT]) -> usize
    ensures { Writes (program input.now) out.old result out.new }
{
    if MAX_INPUT < input.len() {
        return complain(out, Refusal::Room);
    }
    let Some(scan) = session_log::inner::read(input, 0) else {
        return complain(out, Refusal::Log);
    };
    answer(input, scan.size, out)
}

// The log, and behind its `size` bytes the text.
fn answer(input: &[u8], size: usize, out: &mut [u8]) -> usize
    requires { (length input.now ≤ max_input) × T (readable input.now) × (size ≡ size_of_log input.now) × (size ≤ length input.now)
        × (length out.old ≡ max_input) }
    ensures { Writes (program input.now) out.old result out.new }
{
    let mut a = buffer();
    let mut b = buffer();
    match playback::play(input, &input[size..], &mut a, &mut b, out) {
        Ok(n) => n,
        Err(x) => complain(out, x),
    }
}

pub(crate) fn buffer() -> [u8; MAX_INPUT]
    ensures { max_input ≡ length result }
{
    [0; MAX_INPUT]
}

// `refused `, the number and a line end.
fn complain(out: &mut [u8], x: Refusal) -> usize
    requires { length out.old ≡ max_input }
    ensures { Writes (complaint (number x)) out.old result out.new }
{
    let k = x.number();
    buffers::inner::copy(out, 0, b"refused ", 0, 8);
    if k < 10 {
        buffers::inner::copy(out, 8, &[b'0' + k, b'\n'], 0, 2);
        10
    } else {
        buffers::inner::copy(out, 8, &[b'0' + k / 10, b'0' + k % 10, b'\n'], 0, 3);
        11
    }
}
