ghost use Rattle.std.specs.Prelude.{◌≡◌, ◌<◌, ◌≤◌, suc, pos, neg_ℤ, ◌+ℤ◌, true, false, MatchOption, int_le, int_lt, option_map};
ghost use Rattle.exi_names.specs.Forms.{int_of};
ghost use Rattle.xsd_bounds.specs.Bounds.{greater, smaller, stands_at};
ghost use Rattle.xsd_bounds.specs.Plain.{are_few, how_many, is_narrow};

use exi_names::Whole;

/// How many integers a datatype that goes by their places has at most.
const MOST: u128 = 4096;

/// The number of integers below zero that 128 bits with a sign hold, and of those that are not.
const NARROW: u128 = 1 << 127;

/// An integer from -2^128 to 2^128.
#[derive(Clone, Copy, Debug, PartialEq, Eq)]
pub enum Bound {
    /// So far below -1.
    Below(u128),
    /// This one, which is not negative.
    From(u128),
    /// 2^128.
    Past,
}

/// How many integers there are from one to the one that lies so far above it, where they are few.
fn few(above: u128) -> Option<u16>
    ensures { MatchOption result (4096 ≤ above) (λ n. (above < 4096) × (n ≡ suc above)) }
{
    if above < MOST {
        Some(above as u16 + 1)
    } else {
        None
    }
}

impl Bound {
    /// The bound at a whole number.
    pub fn of(n: Whole) -> Bound
        ensures { stands_at result ≡ int_of n }
    {
        if n.minus {
            Bound::Below(n.size - 1)
        } else {
            Bound::From(n.size)
        }
    }

    /// The bound at an integer.
    pub fn at(n: i128) -> Bound
        ensures { stands_at result ≡ n }
    {
        if n < 0 {
            Bound::Below(n.unsigned_abs() - 1)
        } else {
            Bound::From(n.unsigned_abs())
        }
    }

    /// The bound one above a whole number.
    pub fn above(n: Whole) -> Bound
        ensures { stands_at result ≡ int_of n +ℤ pos 1 }
    {
        if !n.minus {
            match n.size.checked_add(1) {
                Some(size) => Bound::From(size),
                None => Bound::Past,
            }
        } else if n.size == 1 {
            Bound::From(0)
        } else {
            Bound::Below(n.size - 2)
        }
    }

    /// The bound one below a whole number.
    pub fn below(n: Whole) -> Bound
        ensures { stands_at result ≡ int_of n +ℤ neg_ℤ (pos 1) }
    {
        if n.minus {
            Bound::Below(n.size)
        } else if n.size == 0 {
            Bound::Below(0)
        } else {
            Bound::From(n.size - 1)
        }
    }

    /// Whether it is less than another.
    pub fn is_less(self, most: Bound) -> bool
        ensures { result ≡ int_lt (stands_at self) (stands_at most) }
    {
        match (self, most) {
            (Bound::Below(least), Bound::Below(most)) => most < least,
            (Bound::Below(_), _) => true,
            (Bound::From(least), Bound::From(most)) => least < most,
            (Bound::From(_), Bound::Past) => true,
            (_, _) => false,
        }
    }

    /// Whether it is not negative.
    pub fn is_natural(self) -> bool
        ensures { result ≡ int_le (pos 0) (stands_at self) }
    {
        match self {
            Bound::Below(_) => false,
            Bound::From(_) | Bound::Past => true,
        }
    }

    /// The integer, where it has 128 bits with a sign.
    pub fn narrow(self) -> Option<i128>
        ensures { MatchOption result (is_narrow (stands_at self) ≡ false) (λ n. (n ≡ stands_at self) × (is_narrow (stands_at self) ≡ true)) }
    {
        match self {
            Bound::Below(n) if n < NARROW => Some(-1 - n as i128),
            Bound::From(n) if n < NARROW => Some(n as i128),
            _ => None,
        }
    }

    /// How many integers there are from this to another, where they are few.
    pub fn count(self, most: Bound) -> Option<u16>
        ensures { MatchOption result (are_few (stands_at self) (stands_at most) ≡ false) (λ n. (are_few (stands_at self) (stands_at most) ≡ true) × (n ≡ how_many (stands_at self) (stands_at most))) }
    {
        if most.is_less(self) {
            return Some(0);
        }
        match (self, most) {
            (Bound::Below(least), Bound::Below(most)) => few(least - most),
            (Bound::Below(least), Bound::From(most)) => few(
                least.checked_add(most)?.checked_add(1)?,
            ),
            (Bound::From(least), Bound::From(most)) => few(most - least),
            (Bound::From(least), Bound::Past) => few((u128::MAX - least).checked_add(1)?),
            (Bound::Past, Bound::Past) => Some(1),
            (_, _) => None,
        }
    }
}

/// The greater of two bounds from below, where there are such.
pub fn greater(least: Option<Bound>, found: Option<Bound>) -> Option<Bound>
    ensures { option_map stands_at result ≡ greater (option_map stands_at least) (option_map stands_at found) }
{
    match (least, found) {
        (None, found) => found,
        (Some(least), None) => Some(least),
        (Some(least), Some(found)) => {
            if least.is_less(found) {
                Some(found)
            } else {
                Some(least)
            }
        }
    }
}

/// The smaller of two bounds from above, where there are such.
pub fn smaller(most: Option<Bound>, found: Option<Bound>) -> Option<Bound>
    ensures { option_map stands_at result ≡ smaller (option_map stands_at most) (option_map stands_at found) }
{
    match (most, found) {
        (None, found) => found,
        (Some(most), None) => Some(most),
        (Some(most), Some(found)) => {
            if found.is_less(most) {
                Some(found)
            } else {
                Some(most)
            }
        }
    }
}
