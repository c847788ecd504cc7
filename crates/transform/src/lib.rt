// The Rust's `transform`, on records.
#![tactic(auto)]

ghost use Rattle.std.specs.Prelude.{◌≡◌};
ghost use Rattle.answers.specs.Answer.{pair_of};
ghost use Rattle.operational_transform.specs.Calls.{transform_call};

use answers::Refusal;

pub mod inner;

// A past b, and b past a.
pub fn transform(
    a: &[u8],
    b: &[u8],
    out_a: &mut [u8],
    out_b: &mut [u8],
) -> Result<(usize, usize), Refusal>
    ensures { (pair_of result ≡ (transform_call a.now b.now out_a.old out_b.old).answer)
        × (out_a.new ≡ (transform_call a.now b.now out_a.old out_b.old).out_a)
        × (out_b.new ≡ (transform_call a.now b.now out_a.old out_b.old).out_b) }
{
    operation::check(a)?;
    operation::check(b)?;
    inner::transformed(a, b, out_a, out_b)
}
