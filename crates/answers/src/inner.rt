// Results delivered.
ghost use Rattle.answers.specs.InnerGiven.{Gives};
ghost use Rattle.answers.specs.Output.{writing};

use crate::Refusal;

// A result goes to the front of an output, unless it has no room there: how many bytes it has.
pub fn deliver(bytes: &[u8], out: &mut [u8]) -> Result<usize, Refusal>
    ensures { Gives (writing 0 bytes.now out.old) result out.new }
{
    if out.len() < bytes.len() {
        return Err(Refusal::Room);
    }
    buffers::inner::copy_into(out, 0, bytes);
    Ok(bytes.len())
}
