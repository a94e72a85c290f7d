ghost use Rattle.std.specs.Prelude.{◌≡◌, MatchResult, IsTrue};
ghost use Rattle.exi_bits.specs.declared.fault.Kind.TheVariants as kind;
ghost use Rattle.std.specs.Prelude.{None, Some};
ghost use Rattle.exi_processing.specs.Handing.{alone_of};
ghost use Rattle.exi_processing.specs.Plans.{is_event, no_element, outer_alone};

use crate::frames::Outer;
use exi_bits::{Fault, Kind};

/// Where reading is in a fragment that stands for one element, outside of that element.
#[derive(Clone, Copy, Debug, PartialEq, Eq)]
pub enum Alone {
    /// Nowhere in one.
    Nowhere,
    /// At its start.
    AtStart,
    /// Where its element is to come.
    AtFirst,
    /// Behind its element.
    AtEnd,
}

impl Alone {
    /// Where the state outside of all elements is.
    #[inline(always)]
    pub fn of(outer: Outer) -> Alone
        ensures { alone_of result ≡ outer_alone outer }
    {
        match outer {
            Outer::Book { .. } | Outer::FragmentStart | Outer::FragmentContent | Outer::Ended =>
                Alone::Nowhere,
            Outer::AloneStart => Alone::AtStart,
            Outer::AloneFirst => Alone::AtFirst,
            Outer::AloneOver => Alone::AtEnd,
        }
    }

    /// Whether SD, SE and ED are events there. Those of such a fragment are its own.
    #[inline(always)]
    pub fn is_event(self) -> bool
        ensures { result ≡ is_event (alone_of self) }
    {
        match self {
            Alone::Nowhere => true,
            Alone::AtStart | Alone::AtFirst | Alone::AtEnd => false,
        }
    }

    /// Refuses what is no element where the element of the fragment is to come.
    #[inline(always)]
    pub fn refuse(self, bit: u64) -> Result<(), Fault>
        ensures { MatchResult result
            (λ _. no_element (alone_of self) ≡ None)
            (λ f. (no_element (alone_of self) ≡ Some kind.ScRoot) × (f ≡ record { kind = kind.ScRoot; bit = bit })) }
    {
        match self {
            Alone::Nowhere | Alone::AtStart | Alone::AtEnd => Ok(()),
            Alone::AtFirst => Err(Fault {
                kind: Kind::ScRoot,
                bit,
            }),
        }
    }
}
