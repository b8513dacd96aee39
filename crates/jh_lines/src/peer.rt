//! Whom a machine talks to.
ghost use Rattle.std.specs.Prelude.{◌≡◌, ◌≢◌, ◌<◌, ℕ, List, length, take, MatchResult};
ghost use Rattle.std.specs.Io.{ReadsAtMost};
ghost use Rattle.std.specs.declared.io.Error.{Error};

use std::io;

/// One that is told bytes and heard. Its ghost members say which states an event leads from and to:
/// they order all that is told and heard, which the contracts of a reader and of a writer do not.
pub trait Peer {
    /// It goes from the first state to the second by being told these bytes.
    ghost told: { Self → List ℕ → Self → Type 0 };

    /// It goes from the first state to the second where these bytes are heard from it.
    ghost heard: { Self → List ℕ → Self → Type 0 };

    /// It goes from the first state to the second where its input has ended.
    ghost ended: { Self → Self → Type 0 };

    /// It goes from the first state to the second where telling it fails with this error, when these bytes
    /// had been handed over.
    ghost tell_failed: { Self → List ℕ → Error → Self → Type 0 };

    /// It goes from the first state to the second where listening to it fails with this error.
    ghost listen_failed: { Self → Error → Self → Type 0 };

    /// Hands it all bytes, and holds none back. An `Err` has handed over some of them.
    fn tell(&mut self, bytes: &[u8]) -> io::Result<()>
        ensures { MatchResult result (λ _. told self.old bytes.now self.new)
            (λ error. (n : ℕ) × tell_failed self.old (take n bytes.now) error self.new) };

    /// Waits for some bytes, and gives those that have come; 0 says that the input has ended. An
    /// `Err` has heard nothing.
    fn listen(&mut self, buffer: &mut [u8]) -> io::Result<usize>
        requires { 0 < length buffer.old }
        ensures bound { ReadsAtMost result buffer.new }
        ensures bytes { MatchResult result
            (λ n. (n ≡ 0 → ended self.old self.new)
            × (n ≢ 0 → heard self.old (take n buffer.new) self.new))
            (λ error. listen_failed self.old error self.new) };
}
