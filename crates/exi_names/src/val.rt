ghost use Rattle.std.specs.Prelude.{◌≡◌, [], ◌∷◌, ◌++◌, map, OnOk, OnErr, IfOk};
ghost use Rattle.exi_names.specs.Seen.{seen, vals};

use crate::moment::Moment;
use crate::names::QName;
use crate::octets::Octets;
use crate::txt::Txt;
use crate::whole::Whole;
use std::alloc::{AllocError, Global};

/// A value of an attribute or of character content (EXI 1.0, section 7).
#[cycle(val)]
#[derive(Debug, Drop)]
pub enum Val {
    /// A string.
    Text(Txt),
    /// A boolean.
    Bool {
        /// Its truth.
        yes: bool,
        /// Whether it is spelled by a digit, `0` or `1`; only where the datatype has a pattern.
        digit: bool,
    },
    /// An integer.
    Int(Whole),
    /// A decimal.
    Dec {
        /// Whether its sign is minus, also before a zero.
        minus: bool,
        /// The part before the point.
        whole: u128,
        /// The number that the fraction's digits give when read backwards.
        back: u128,
    },
    /// A float: `mantissa` times 10 to the `exponent`. With the exponent -16384 the mantissa 1 is
    /// infinity, -1 is minus infinity, and 0 is not a number.
    Flo {
        /// The mantissa.
        mantissa: i64,
        /// The exponent of 10.
        exponent: i16,
    },
    /// A date or time.
    Mom(Moment),
    /// Octets.
    Bin {
        /// Whether the datatype is hexBinary; else it is base64Binary.
        hex: bool,
        /// The octets.
        octets: Octets,
    },
    /// A list of values.
    Items(ValList),
    /// A qualified name, as of `xsi:type`.
    Name(QName),
}

/// The most items of a value of a List datatype: our own bound, as the recommendation sets none (EXI 1.0, section 7.1.11).
pub const MOST_ITEMS: usize = 65_536;

/// A list of values.
#[cycle(val)]
#[derive(Debug, Drop)]
pub struct ValList {
    /// The values in order.
    pub items: Vec<Val>,
}

impl Val {
    /// Another value that is equal to this one.
    ///
    /// # Errors
    ///
    /// `AllocError` where memory is refused.
    #[cycle(copy)]
    pub fn copy(&self, alloc: Global) -> Result<Val, AllocError>
        ensures { IfOk result (λ v. seen v ≡ seen self.now) }
    {
        match self {
            Val::Text(text) => Ok(Val::Text(text.copy()?)),
            Val::Bool { yes, digit } => Ok(Val::Bool {
                yes: *yes,
                digit: *digit,
            }),
            Val::Int(whole) => Ok(Val::Int(*whole)),
            Val::Dec { minus, whole, back } => Ok(Val::Dec {
                minus: *minus,
                whole: *whole,
                back: *back,
            }),
            Val::Flo { mantissa, exponent } => Ok(Val::Flo {
                mantissa: *mantissa,
                exponent: *exponent,
            }),
            Val::Mom(moment) => Ok(Val::Mom(*moment)),
            Val::Bin { hex, octets } => Ok(Val::Bin {
                hex: *hex,
                octets: octets.copy()?,
            }),
            Val::Items(list) => Ok(Val::Items(list.copy(alloc)?)),
            Val::Name(name) => Ok(Val::Name(name.copy()?)),
        }
    }
}

impl ValList {
    /// No values.
    pub fn new(alloc: Global) -> ValList
        ensures { vals result ≡ [] }
    {
        ValList {
            items: Vec::new(alloc),
        }
    }

    /// Puts a value at the end.
    ///
    /// # Errors
    ///
    /// `AllocError` where memory is refused; the list is then unchanged.
    pub fn push(&mut self, value: Val) -> Result<(), AllocError>
        ensures ok { OnOk result (vals self.new ≡ vals self.old ++ seen value ∷ []) }
        ensures err { OnErr result (vals self.new ≡ vals self.old) }
    {
        self.items.push(value)?;
        Ok(())
    }

    /// The values.
    pub fn as_slice(&self) -> &[Val]
        ensures { map seen result.now ≡ vals self.now }
    {
        self.items.as_slice()
    }

    /// The values as a vector, in the same memory.
    pub fn into_vec(self) -> Vec<Val>
        ensures { map seen result.items ≡ vals self }
    {
        self.items
    }

    /// Another list of equal values.
    ///
    /// # Errors
    ///
    /// `AllocError` where memory is refused.
    #[cycle(copy)]
    pub fn copy(&self, alloc: Global) -> Result<ValList, AllocError>
        ensures { IfOk result (λ v. vals v ≡ vals self.now) }
    {
        let mut items = Vec::new(alloc);
        for value in &self.items {
            items.push(value.copy(alloc)?)?;
        }
        Ok(ValList { items })
    }
}
