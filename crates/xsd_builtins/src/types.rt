//! The table of the built-in types.

ghost use Rattle.std.specs.Prelude.{◌≡◌, length, map};
ghost use Rattle.std.specs.Str.{bytes_eq, chars};
ghost use Rattle.xsd_builtins.specs.BuiltIns.{built_in, built_in_base, built_in_bases, built_in_names, families, family_of};

use crate::family::Family;
use exi_names::{MomentKind, Txt};

/// The place of `anySimpleType`.
pub const ANY_SIMPLE: u32 = 11;

/// The place of `anyType`.
pub const ANY_TYPE: u32 = 12;

/// The names of the built-in types, in order.
#[tactic(auto, unfolding(crate::specs::BuiltIns::built_in_names))]
pub fn names() -> &'static [&'static str]
    ensures names { map (λ w. chars w.now) result.now ≡ built_in_names }
    ensures count { length result.now ≡ 46 }
{
    &[
        "ENTITIES",
        "ENTITY",
        "ID",
        "IDREF",
        "IDREFS",
        "NCName",
        "NMTOKEN",
        "NMTOKENS",
        "NOTATION",
        "Name",
        "QName",
        "anySimpleType",
        "anyType",
        "anyURI",
        "base64Binary",
        "boolean",
        "byte",
        "date",
        "dateTime",
        "decimal",
        "double",
        "duration",
        "float",
        "gDay",
        "gMonth",
        "gMonthDay",
        "gYear",
        "gYearMonth",
        "hexBinary",
        "int",
        "integer",
        "language",
        "long",
        "negativeInteger",
        "nonNegativeInteger",
        "nonPositiveInteger",
        "normalizedString",
        "positiveInteger",
        "short",
        "string",
        "time",
        "token",
        "unsignedByte",
        "unsignedInt",
        "unsignedLong",
        "unsignedShort",
    ]
}

/// Whether the text is this word.
fn is_word(text: &Txt, word: &str) -> bool
    ensures { result ≡ bytes_eq text.now (chars word.now) }
{
    text.as_str() == word
}

/// The place of the built-in type of this name, where there is one.
pub fn place_of(name: &Txt) -> Option<u32>
    ensures { result ≡ built_in name.now }
{
    let words = names();
    for (place, word) in words.iter().enumerate() {
        if is_word(name, word) {
            return Some(place as u32);
        }
    }
    None
}

/// The places of the types that those at each place are derived from.
#[tactic(auto, unfolding(crate::specs::BuiltIns::built_in_bases))]
fn bases() -> &'static [Option<u32>]
    ensures { result.now ≡ built_in_bases }
{
    &[
        Some(11),
        Some(5),
        Some(5),
        Some(5),
        Some(11),
        Some(9),
        Some(41),
        Some(11),
        Some(11),
        Some(41),
        Some(11),
        Some(12),
        None,
        Some(11),
        Some(11),
        Some(11),
        Some(38),
        Some(11),
        Some(11),
        Some(11),
        Some(11),
        Some(11),
        Some(11),
        Some(11),
        Some(11),
        Some(11),
        Some(11),
        Some(11),
        Some(11),
        Some(32),
        Some(19),
        Some(41),
        Some(30),
        Some(35),
        Some(30),
        Some(30),
        Some(39),
        Some(34),
        Some(29),
        Some(11),
        Some(11),
        Some(36),
        Some(45),
        Some(44),
        Some(34),
        Some(43),
    ]
}

/// The place of the type that the one at a place is derived from; `anyType` has none, nor has a place behind them all.
pub fn base_of(place: u32) -> Option<u32>
    ensures { result ≡ built_in_base place }
{
    match bases().get(place as usize) {
        Some(base) => *base,
        None => None,
    }
}

/// What the values of the types at each place are.
#[tactic(auto, unfolding(crate::specs::BuiltIns::families))]
fn families() -> &'static [Family]
    ensures { result.now ≡ families }
{
    &[
        Family::Lists,
        Family::Strings,
        Family::Strings,
        Family::Strings,
        Family::Lists,
        Family::Strings,
        Family::Strings,
        Family::Lists,
        Family::Names,
        Family::Strings,
        Family::Names,
        Family::Others,
        Family::Ur,
        Family::Others,
        Family::Base64,
        Family::Booleans,
        Family::Integers {
            least: Some(-128),
            most: Some(127),
        },
        Family::Moments(MomentKind::Date),
        Family::Moments(MomentKind::DateTime),
        Family::Decimals,
        Family::Reals,
        Family::Others,
        Family::Reals,
        Family::Moments(MomentKind::GDay),
        Family::Moments(MomentKind::GMonth),
        Family::Moments(MomentKind::GMonthDay),
        Family::Moments(MomentKind::GYear),
        Family::Moments(MomentKind::GYearMonth),
        Family::Hex,
        Family::Integers {
            least: Some(-2147483648),
            most: Some(2147483647),
        },
        Family::Integers {
            least: None,
            most: None,
        },
        Family::Strings,
        Family::Integers {
            least: Some(-9223372036854775808),
            most: Some(9223372036854775807),
        },
        Family::Integers {
            least: None,
            most: Some(-1),
        },
        Family::Integers {
            least: Some(0),
            most: None,
        },
        Family::Integers {
            least: None,
            most: Some(0),
        },
        Family::Strings,
        Family::Integers {
            least: Some(1),
            most: None,
        },
        Family::Integers {
            least: Some(-32768),
            most: Some(32767),
        },
        Family::Strings,
        Family::Moments(MomentKind::Time),
        Family::Strings,
        Family::Integers {
            least: Some(0),
            most: Some(255),
        },
        Family::Integers {
            least: Some(0),
            most: Some(4294967295),
        },
        Family::Integers {
            least: Some(0),
            most: Some(18446744073709551615),
        },
        Family::Integers {
            least: Some(0),
            most: Some(65535),
        },
    ]
}

/// What the values of the type at a place are.
pub fn family_of(place: u32) -> Family
    ensures { result ≡ family_of place }
{
    match families().get(place as usize) {
        Some(family) => *family,
        None => Family::Others,
    }
}
