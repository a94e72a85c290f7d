ghost use Rattle.std.specs.Prelude.{◌≡◌, ℕ, Option, IfSome};
ghost use Rattle.exi_processing.specs.Runs.{Job};
ghost use Rattle.exi_worker.specs.declared.posting.Posting.{Posting};
ghost use Rattle.exi_worker.specs.Outcomes.{IsPostingAt};

use crate::posting::Posting;

/// What a reader asks for the outcome of the fragment to which it has come.
pub trait Desk {
    /// The job of which the postings are outcomes.
    ghost job: { Self → Job };
    /// What holds between two calls.
    ghost sound: { Self → Type 0 };
    /// It was asked for this byte, gave this posting or none, and became the second.
    ghost arrives: { Self → ℕ → Option Posting → Self → Type 0 };
    /// This posting came back to it, and it became the second.
    ghost returns: { Self → Posting → Self → Type 0 };
    /// Both hold the same objects by reference.
    ghost same: { Self → Self → Type 0 };

    /// The outcome of the fragment that begins at this byte, where the desk has it: what it gives was read by itself,
    /// under some limits.
    fn arrive(&mut self, byte: u64) -> Option<Posting>
        requires sound { sound self.old }
        ensures sound { sound self.new }
        ensures arrives { arrives self.old byte result self.new }
        ensures outcome { IfSome result (IsPostingAt (job self.old) byte) }
        ensures job { job self.new ≡ job self.old }
        ensures same { same self.old self.new };

    /// Takes a posting back that it gave.
    fn back(&mut self, posting: Posting)
        requires sound { sound self.old }
        ensures sound { sound self.new }
        ensures returns { returns self.old posting self.new }
        ensures job { job self.new ≡ job self.old }
        ensures same { same self.old self.new };

    ghost same_now: { (s : Self) → same s s };

    ghost same_then: { (a b c : Self) → same a b → same b c → same a c };
}
