// A walk from the start, with plain parameters.
ghost use Rattle.std.specs.Prelude.{◌≡◌};
ghost use Rattle.walker.specs.Walk.{found_of, step_call, position_after};

use crate::{Op, Walker};

// A new walker takes `k` steps; what its next step finds.
pub fn nth(rec: &[u8], k: usize) -> Option<Op>
    ensures { found_of result ≡ step_call rec.now (position_after rec.now k) }
{
    let mut w = Walker::new(rec);
    for _i in 0..k {
        w.next();
    }
    w.next()
}
