// The lent scratch bytes. The judge works on the stack, and leaves them zero.
ghost use Rattle.std.specs.Prelude.{◌≡◌, ◌≤◌, length, replicate};
ghost use Rattle.base.specs.LentBuffer.{stored};
ghost use Rattle.plain.specs.PlainCall.{scratch_length};

use crate::limits::SCRATCH_LENGTH;

// "the bytes it wants are still left zero, those past them unchanged".
#[tactic(auto, unfolding(crate::specs::PlainCall::scratch_length))]
pub fn clear(scratch: &mut [u8])
    requires { scratch_length ≤ length scratch.old }
    ensures { scratch.new ≡ stored 0 (replicate scratch_length 0) scratch.old }
{
    scratch[..SCRATCH_LENGTH].fill(0);
}
