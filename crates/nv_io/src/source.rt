ghost use Rattle.std.specs.Prelude.{◌≡◌, ℕ, ◌<◌, ◌≤◌, List, Result, length, take, IfOk, OnOk, OnErr};
ghost use Rattle.std.specs.Io.KnownBytes.{Consumes, IsAtEnd};
ghost use Rattle.nv_io.specs.Counts.{Rose, next_count, count_after};
ghost use Rattle.nv_io.specs.State.{SourceState};
ghost use Rattle.nv_io.specs.declared.source.SourceFailed.{SourceFailed};

use thiserror::Error;

/// A source failed to give bytes.
#[derive(Clone, Copy, Debug, Error)]
#[error("the input could not be read")]
pub struct SourceFailed;

/// Where bytes come from.
pub trait Source {
    /// What the source tells: the bytes still to come, and how many bytes, takes and faults there were.
    ghost state: { Self → SourceState };

    /// What a take may do: the source before, what `into` then holds, the answer, and the source after.
    ghost take_gives: { Self → List ℕ → Result ℕ SourceFailed → Self → Type 0 };

    /// Writes the next bytes to the front of `into`, and answers how many. It answers 0 only at the end. At
    /// `SourceFailed` the bytes still to come are as before, and it counts a fault.
    fn take(&mut self, into: &mut [u8]) -> Result<usize, SourceFailed>
        requires { 0 < length into.old }
        ensures step { take_gives self.old into.new result self.new }

        ensures within { IfOk result (λ n. n ≤ length into.new) }
        ensures given { IfOk result (λ n. Consumes (state self.old).left (state self.new).left (take n into.new)) }
        ensures amount { IfOk result (λ n. (state self.new).given ≡ count_after (state self.old).given n) }
        ensures end { IfOk result (λ n. n ≡ 0 → IsAtEnd (state self.new).left) }
        ensures quiet { OnOk result ((state self.new).faults ≡ (state self.old).faults) }

        ensures fault { OnErr result (Rose (state self.old).faults (state self.new).faults) }
        ensures none_lost { OnErr result ((state self.new).left ≡ (state self.old).left) }
        ensures none_given { OnErr result ((state self.new).given ≡ (state self.old).given) }

        ensures counted { (state self.new).takes ≡ next_count (state self.old).takes };
}
