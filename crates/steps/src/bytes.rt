// Steps out of the bytes of a sum sheet.
ghost use Rattle.std.specs.Prelude.{◌≡◌, ◌+◌, ◌≤◌, length};
ghost use Rattle.steps.specs.Steps.{step_at};

use crate::Step;
use little_endian::word_at;

// The step whose first byte is at place i.
#[tactic(auto, unfolding(crate::specs::Steps::step_at))]
pub fn step_at(bytes: &[u8], i: usize) -> Step
    requires { i + 24 ≤ length bytes.now }
    ensures { result ≡ step_at bytes.now i }
{
    Step {
        kind: bytes[i],
        target: bytes[i + 1],
        a: bytes[i + 2],
        b: bytes[i + 3],
        c: bytes[i + 4],
        width: bytes[i + 5],
        amount: bytes[i + 6],
        sign: bytes[i + 7],
        low: word_at(bytes, i + 8),
        high: word_at(bytes, i + 16),
    }
}
