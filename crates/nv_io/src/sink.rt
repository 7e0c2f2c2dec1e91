ghost use Rattle.std.specs.Prelude.{◌≡◌, ℕ, ◌<◌, ◌≤◌, List, Result, length, take, IfOk, OnOk, OnErr};
ghost use Rattle.std.specs.Io.KnownBytes.{Appends};
ghost use Rattle.nv_io.specs.Counts.{Rose, next_count, count_after};
ghost use Rattle.nv_io.specs.State.{SinkState};
ghost use Rattle.nv_io.specs.declared.sink.SinkFailed.{SinkFailed};

use thiserror::Error;

/// A sink failed to take bytes.
#[derive(Clone, Copy, Debug, Error)]
#[error("the output could not be written")]
pub struct SinkFailed;

/// Where bytes go.
pub trait Sink {
    /// What the sink tells: the bytes that it took, and how many bytes, puts and faults there were.
    ghost state: { Self → SinkState };

    /// What a put may do: the sink before, the bytes offered, the answer, and the sink after.
    ghost put_gives: { Self → List ℕ → Result ℕ SinkFailed → Self → Type 0 };

    /// Takes bytes from the front of `bytes`, at least one, and answers how many. At `SinkFailed` it took none, and
    /// counts a fault.
    fn put(&mut self, bytes: &[u8]) -> Result<usize, SinkFailed>
        requires { 0 < length bytes.now }
        ensures step { put_gives self.old bytes.now result self.new }

        ensures some { IfOk result (λ n. 0 < n) }
        ensures within { IfOk result (λ n. n ≤ length bytes.now) }
        ensures kept { IfOk result (λ n. Appends (state self.old).taken (state self.new).taken (take n bytes.now)) }
        ensures amount { IfOk result (λ n. (state self.new).amount ≡ count_after (state self.old).amount n) }
        ensures quiet { OnOk result ((state self.new).faults ≡ (state self.old).faults) }

        ensures fault { OnErr result (Rose (state self.old).faults (state self.new).faults) }
        ensures none_taken { OnErr result ((state self.new).taken ≡ (state self.old).taken) }
        ensures none_more { OnErr result ((state self.new).amount ≡ (state self.old).amount) }

        ensures counted { (state self.new).puts ≡ next_count (state self.old).puts };
}
