use exi_names::MomentKind;

/// What the values of a built-in type are.
#[derive(Clone, Copy, Debug, PartialEq, Eq)]
pub enum Family {
    /// Those of every type: `anyType`.
    Ur,
    /// Lists of strings.
    Lists,
    /// Integers.
    Integers {
        /// The least of them, where there is one.
        least: Option<i128>,
        /// The greatest of them, where there is one.
        most: Option<i128>,
    },
    /// Strings.
    Strings,
    /// Octets, written in Base64.
    Base64,
    /// Octets, written in hexadecimal.
    Hex,
    /// Numbers with an exponent.
    Reals,
    /// Dates, times or parts of dates.
    Moments(MomentKind),
    /// Names: `QName` and `NOTATION`.
    Names,
    /// Truth values.
    Booleans,
    /// Numbers with digits behind a point.
    Decimals,
    /// What EXI has no form of its own for.
    Others,
}
