//! Whether two values, or two datatypes, are the same as data.

ghost use Rattle.std.specs.Prelude.{◌≡◌, ◌↔◌, IsTrue};
ghost use Rattle.std.specs.List.{position};
ghost use Rattle.exi_names.specs.Datatypes.{represented};
ghost use Rattle.exi_names.specs.Equality.{all_equal, equal, place_among, same_names, same_representations};
ghost use Rattle.exi_names.specs.Seen.{seen, values_of, vals};

use crate::datatype::Datatype;
use crate::names::QName;
use crate::val::{Val, ValList};

impl QName {
    /// Whether both are the same name, prefix included.
    pub fn same(&self, other: &QName) -> bool
        ensures same { IsTrue result ↔ (self.now ≡ other.now) }
        ensures test { result ≡ same_names self.now other.now }
    {
        let same_prefix = match (&self.prefix, &other.prefix) {
            (None, None) => true,
            (Some(a), Some(b)) => a.same(b),
            _ => false,
        };
        self.uri.same(&other.uri) && self.local.same(&other.local) && same_prefix
    }
}

impl Val {
    /// Whether both are the same value as data: of one kind, and the same in each part. So `1.50E1` and `15E0` are
    /// two floats, though the numbers are the same.
    #[cycle(same)]
    pub fn same(&self, other: &Val) -> bool
        ensures { result ≡ equal (seen self.now) (seen other.now) }
    {
        match (self, other) {
            (Val::Text(a), Val::Text(b)) => a.same(b),
            (Val::Bool { yes: a, digit: c }, Val::Bool { yes: b, digit: d }) => a == b && c == d,
            (Val::Int(a), Val::Int(b)) => a == b,
            (
                Val::Dec { minus, whole, back },
                Val::Dec {
                    minus: sign,
                    whole: part,
                    back: digits,
                },
            ) => minus == sign && whole == part && back == digits,
            (
                Val::Flo { mantissa, exponent },
                Val::Flo {
                    mantissa: digits,
                    exponent: power,
                },
            ) => mantissa == digits && exponent == power,
            (Val::Mom(a), Val::Mom(b)) => a == b,
            (Val::Bin { hex: a, octets: c }, Val::Bin { hex: b, octets: d }) => {
                a == b && c.as_slice() == d.as_slice()
            }
            (Val::Items(a), Val::Items(b)) => a.same(b),
            (Val::Name(a), Val::Name(b)) => a.same(b),
            _ => false,
        }
    }
}

impl ValList {
    /// Whether both hold the same values in the same order.
    #[cycle(same)]
    pub fn same(&self, other: &ValList) -> bool
        ensures { result ≡ all_equal (values_of (vals self.now)) (values_of (vals other.now)) }
    {
        if self.items.len() != other.items.len() {
            return false;
        }
        for (index, value) in self.items.iter().enumerate() {
            if !value.same(&other.items[index]) {
                return false;
            }
        }
        true
    }

    /// The least place of a value that is the same as this one, and `None` exactly where there is none. So an
    /// enumerated value is found by its place in the enumeration.
    pub fn place_of(&self, value: &Val) -> Option<usize>
        ensures { result ≡ place_among (seen value.now) (vals self.now) }
    {
        least_place(self.items.as_slice(), value)
    }
}

impl Datatype {
    /// Whether both are the same datatype, enumerated values and their order included.
    pub fn same(&self, other: &Datatype) -> bool
        ensures { result ≡ same_representations (represented self.now) (represented other.now) }
    {
        match (self, other) {
            (
                Datatype::Small { least, count },
                Datatype::Small {
                    least: first,
                    count: number,
                },
            ) => least == first && count == number,
            (Datatype::Unsigned, Datatype::Unsigned)
            | (Datatype::Integer, Datatype::Integer)
            | (Datatype::Decimal, Datatype::Decimal)
            | (Datatype::Float, Datatype::Float)
            | (Datatype::Text, Datatype::Text) => true,
            (Datatype::Boolean { pattern: a }, Datatype::Boolean { pattern: b }) => a == b,
            (Datatype::Binary { hex: a }, Datatype::Binary { hex: b }) => a == b,
            (Datatype::Moment(a), Datatype::Moment(b)) => a == b,
            (Datatype::List(a), Datatype::List(b)) => a.same(b),
            (
                Datatype::Choice { base, values },
                Datatype::Choice {
                    base: other,
                    values: others,
                },
            ) => base.same(other) && values.same(others),
            (Datatype::Chars(a), Datatype::Chars(b)) => a.text().same(b.text()),
            (Datatype::Name { prefixes: a }, Datatype::Name { prefixes: b }) => a == b,
            _ => false,
        }
    }
}

/// The least place of a value among these.
fn least_place(values: &[Val], value: &Val) -> Option<usize>
    ensures { result ≡ position (λ w. equal (seen value.now) (seen w)) values.now }
{
    values.iter().position(|other| value.same(other))
}
