ghost use Rattle.std.specs.Prelude.{◌≡◌, ◌<◌, ◌-◌, ◌^◌, ◌++◌, ◌∷◌, [], List, ℕ, length, Some, OnOk, OnErr};
ghost use Rattle.std.specs.Option.{option_copied, option_and_then};
ghost use Rattle.exi_tables.specs.Added.{Puts, number_of};
ghost use Rattle.exi_tables.specs.Partitions.{live_at};

use exi_names::Txt;
use std::alloc::{AllocError, Global};

/// A list of texts that grows at its end, and beside each text a number: that with which the text was first put.
pub trait Texts {
    ghost texts: { Self → List (List ℕ) };

    ghost known: { Self → List (List ℕ × ℕ) };

    /// No texts.
    fn new(alloc: Global) -> Self
    where
        Self: Sized,
        ensures texts { texts result ≡ [] }
        ensures known { known result ≡ [] };

    /// How many texts there are.
    fn count(&self) -> u32
        ensures { result ≡ length (texts self.now) };

    /// The text at a place.
    fn at(&self, place: u32) -> Option<&Txt>
        ensures { option_copied result ≡ live_at (texts self.now) place };

    /// The number beside a text.
    fn of(&self, text: &Txt) -> Option<u32>
        ensures { result ≡ number_of (known self.now) text.now };

    /// The number beside the text at a place.
    fn number(&self, place: u32) -> Option<u32>
        ensures { result ≡ option_and_then (number_of (known self.now))
            (live_at (texts self.now) place) };

    /// Puts a text at the end, with this number where it has none.
    ///
    /// # Errors
    ///
    /// `AllocError` where memory is refused; the list is then unchanged.
    fn push(&mut self, text: Txt, number: u32) -> Result<(), AllocError>
        requires { length (texts self.old) < 2 ^ 32 - 1 }
        ensures texts { OnOk result (texts self.new ≡ texts self.old ++ text ∷ []) }
        ensures known { OnOk result (Puts (known self.old) text number (known self.new)) }
        ensures same_texts { OnErr result (texts self.new ≡ texts self.old) }
        ensures same_known { OnErr result (known self.new ≡ known self.old) };

    /// Removes all texts, and keeps the room. It takes time in proportion to what goes.
    fn clear(&mut self)
        ensures texts { texts self.new ≡ [] }
        ensures known { known self.new ≡ [] };
}
