ghost use Rattle.std.specs.Prelude.{◌≡◌};
ghost use Rattle.exi_names.specs.Wholes.{number};

use std::marker::Model;

/// A whole number by its sign and its magnitude; there is no minus zero.
#[derive(Clone, Copy, Debug, PartialEq, Eq)]
pub struct Whole {
    /// Whether the number is negative; false where `size` is 0.
    pub minus: bool,
    /// The magnitude.
    pub size: u128,
}

impl Model for Whole {
    ghost use Rattle.std.specs.Prelude.{◌≡◌, false};
    ghost use Rattle.exi_names.specs.Wholes.{Number};

    ghost Value = { Number };

    ghost view = { λ w. record { minus = w.minus; size = w.size } };

    ghost inverse = { λ n. record { minus = n.minus; size = n.size } };

    ghost invariant = { λ w. w.size ≡ 0 → w.minus ≡ false };
}

impl Whole {
    /// The number of this magnitude, negative where `minus` is true; a zero has no sign.
    pub fn new(minus: bool, size: u128) -> Whole
        ensures { result ≡ number minus size }
    {
        Whole {
            minus: minus && size != 0,
            size,
        }
    }
}
