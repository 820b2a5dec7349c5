//! What lines are read from.
//!
//! A source tells, for proofs alone, which bytes it has ahead, or nothing of them, and how often each thing happened
//! to it. It counts in 64 bits, so a count begins again at 0 after 2^64.
ghost use Rattle.std.specs.Prelude.{◌≡◌, ℕ, ◌<◌, ◌≤◌, List, Option, length, IfOk, OnOk, OnErr};
ghost use Rattle.std.specs.Io.KnownBytes.{ReadConsumes};
ghost use Rattle.ot_lines.specs.Lines.{next_count, Flow};

/// A read or a write that failed. Of the reason nothing is made.
#[derive(Clone, Copy, Debug, PartialEq, Eq)]
pub struct Failed;

/// Bytes that come in.
pub trait Source {
    // The bytes still to come, where they are known; how many its last read gave; how often it was read, failed, and told
    // the end of input.
    ghost flow: { Self → Flow };

    /// Reads into the front of `buffer` and returns how many bytes came. 0 is the end of input.
    fn read(&mut self, buffer: &mut [u8]) -> Result<usize, Failed>
        requires { 0 < length buffer.old }
        ensures bound { IfOk result (λ n. n ≤ length buffer.new) }
        ensures bytes { ReadConsumes (flow self.old).ahead (flow self.new).ahead result buffer.new }
        ensures counted { (flow self.new).reads ≡ next_count (flow self.old).reads }

        // How many bytes it gave.
        ensures gave { IfOk result (λ n. (flow self.new).latest ≡ n) }
        ensures gave_none { OnErr result ((flow self.new).latest ≡ 0) }

        // How often it failed.
        ensures worked { OnOk result ((flow self.new).failures ≡ (flow self.old).failures) }
        ensures failed { OnErr result ((flow self.new).failures ≡ next_count (flow self.old).failures) }

        // How often it told the end.
        ensures ended { IfOk result (λ n. n ≡ 0 → (flow self.new).ends ≡ next_count (flow self.old).ends) }
        ensures given { IfOk result (λ n. 0 < n → (flow self.new).ends ≡ (flow self.old).ends) }
        ensures untold { OnErr result ((flow self.new).ends ≡ (flow self.old).ends) };
}
