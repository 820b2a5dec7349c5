//! What a session writes to.
//!
//! A sink tells, for proofs alone, which bytes it holds, or nothing of them, and how often it failed. It counts in 64
//! bits, so a count begins again at 0 after 2^64.
ghost use Rattle.std.specs.Prelude.{◌≡◌, ◌<◌, ◌≤◌, length, IfOk, OnOk, OnErr};
ghost use Rattle.std.specs.Io.KnownBytes.{WriteAppends};
ghost use Rattle.ot_session.specs.Serving.{next_count, Draft};

use ot_lines::Failed;

/// Bytes that go out.
pub trait Sink {
    // The bytes that it holds, where they are known; how often it failed.
    ghost draft: { Self → Draft };

    /// Writes the front of `bytes` and returns how many bytes went out, at least one.
    fn write(&mut self, bytes: &[u8]) -> Result<usize, Failed>
        requires { 0 < length bytes.now }
        ensures some { IfOk result (λ n. 1 ≤ n) }
        ensures bound { IfOk result (λ n. n ≤ length bytes.now) }
        ensures bytes { WriteAppends (draft self.old).held (draft self.new).held result bytes.now }
        ensures worked { OnOk result ((draft self.new).failures ≡ (draft self.old).failures) }
        ensures failed { OnErr result ((draft self.new).failures ≡ next_count (draft self.old).failures) };
}
