//! A machine that answers lines.
ghost use Rattle.std.specs.Prelude.{◌≡◌, ◌++◌, ℕ, List, [], Bool, true, OnOk};

use std::alloc::AllocError;

/// Answers lines. It adds to `out` what it says, and sees neither how the lines come nor where its
/// answers go.
///
/// The type `Machine` of `jh_conversation` is no such machine: it is the state of a test, and the
/// `Conversation` around it implements this trait.
///
/// Lines that come at once with the last one that it listens to are given to it too, so it may be
/// given lines when it listens no more.
pub trait Machine {
    /// What it says before the first line.
    ghost opening: { Self → List ℕ };

    /// The machine after a line.
    ghost after_line: { Self → List ℕ → Self };

    /// What it says to a line.
    ghost answer_to: { Self → List ℕ → List ℕ };

    /// Whether it listens no more.
    ghost has_finished: { Self → Bool };

    /// Says what comes before the first line.
    fn open(&self, out: &mut Vec<u8>) -> Result<(), AllocError>
        ensures { OnOk result (out.new.items ≡ out.old.items ++ opening self.now) };

    /// Takes a line, without its line feed, and says the answer. After an error the machine is used
    /// no more.
    fn answer(&mut self, line: &[u8], out: &mut Vec<u8>) -> Result<(), AllocError>
        ensures machine { OnOk result (self.new ≡ after_line self.old line.now) }
        ensures said { OnOk result (out.new.items ≡ out.old.items ++ answer_to self.old line.now) };

    /// Whether it listens no more.
    fn is_over(&self) -> bool
        ensures { result ≡ has_finished self.now };

    /// One that listens no more says nothing to a line, and goes on to listen to none.
    ghost stays_over: { (machine : Self) (line : List ℕ) → has_finished machine ≡ true
        → (answer_to machine line ≡ []) × (has_finished (after_line machine line) ≡ true) };
}
