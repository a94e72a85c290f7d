ghost use Rattle.std.specs.Prelude.{◌≡◌, ◌++◌, ◌<◌, ◌-◌, ◌^◌, IfOk, IfSome, IsTrue, OnOk, OnErr, length};
ghost use Rattle.std.specs.Option.{option_copied};
ghost use Rattle.exi_bits.specs.Written.{IsWholeBytes};
ghost use Rattle.exi_items.specs.Fronts.{HoldsFront};
ghost use Rattle.exi_names.specs.Shown.{named};
ghost use Rattle.exi_tables.specs.Growth.{NoneLonger};
ghost use Rattle.exi_tables.specs.Partitions.{IsName, least_place, locals, prefixes, uris};
ghost use Rattle.exi_text.specs.Literals.{all_xml};
ghost use Rattle.exi_typed.specs.ReadStates.{MayHaveUri};
ghost use Rattle.exi_typed.specs.Strings.{place_in};
ghost use Rattle.exi_typed.specs.Written.{
  after_local,
  after_name,
  after_uri,
  name_bits,
  prefix_bits,
  space_for,
  under_bits,
  uri_bits,
};

use crate::put::{put_indexed, put_listed, put_place};
use exi_bits::{Align, BitOut};
use exi_names::{NameId, NameRef, Txt};
use exi_tables::Tables;
use std::alloc::{AllocError, Global};

/// The least place of a URI.
fn uri_place<T: Tables>(tables: &T, text: &Txt) -> Option<u32>
    ensures place { result ≡ least_place (uris (T.held tables.now)) text.now }
    ensures within { IfSome result (λ i. i < length (uris (T.held tables.now))) }
{
    tables.uri_of(text)
}

/// The least place of a local name of a URI.
fn local_place<T: Tables>(tables: &T, uri: u32, text: &Txt) -> Option<u32>
    requires uri { uri < length (uris (T.held tables.now)) }
    ensures place { result ≡ least_place (locals (T.held tables.now) uri) text.now }
    ensures within { IfSome result (λ i. i < length (locals (T.held tables.now) uri)) }
{
    tables.local_of(uri, text)
}

/// The least place of a prefix of a URI.
pub fn prefix_place<T: Tables>(tables: &T, uri: u32, text: &Txt) -> Option<u32>
    requires uri { uri < length (uris (T.held tables.now)) }
    ensures place { result ≡ least_place (prefixes (T.held tables.now) uri) text.now }
    ensures within { IfSome result (λ i. i < length (prefixes (T.held tables.now) uri)) }
{
    tables.prefix_of(uri, text)
}

/// Writes a URI (EXI 1.0, section 7.3.2), adds it where it is missed, and gives its least place.
pub fn write_uri<T: Tables>(
    alloc: Global,
    out: &mut BitOut,
    text: &Txt,
    align: Align,
    tables: &mut T,
) -> Result<u32, AllocError>
    requires xml { IsTrue (all_xml text.now) }
    requires few { NoneLonger (2 ^ 31) (T.held tables.old) }
    requires aligned { IsWholeBytes align out.old }
    ensures ok { OnOk result (out.new ≡ out.old ++ uri_bits align (T.held tables.old) text.now) }
    ensures place { IfOk result (λ uri. uri ≡ space_for (T.held tables.old) text.now) }
    ensures within { IfOk result (λ uri. uri < length (uris (T.held tables.new))) }
    ensures tables { OnOk result (T.held tables.new ≡ after_uri (T.held tables.old) text.now) }
    ensures err { OnErr result (HoldsFront out.old (uri_bits align (T.held tables.old) text.now) out.new) }
    ensures same { OnErr result (T.held tables.new ≡ T.held tables.old) }
    ensures aligned { IsWholeBytes align out.new }
{
    let found = uri_place(tables, text);
    put_indexed(alloc, out, text, found, tables.uris(), align)?;
    match found {
        Some(place) => Ok(place),
        None => {
            let place = tables.add_uri(text.copy()?)?;
            Ok(place)
        }
    }
}

/// Writes the prefix of a name under the URI at a place, where prefixes are kept (EXI 1.0, section 7.1.7), as its
/// least place among those of the URI. A prefix that is none of them has no bits.
///
/// # Errors
///
/// Where there is no memory. The bits are then as before.
#[inline(always)]
pub fn write_prefix<T: Tables>(
    out: &mut BitOut,
    keep: bool,
    prefix: Option<&Txt>,
    align: Align,
    uri: u32,
    tables: &T,
) -> Result<(), AllocError>
    requires uri { uri < length (uris (T.held tables.now)) }
    requires aligned { IsWholeBytes align out.old }
    ensures ok { OnOk result (out.new ≡ out.old ++ prefix_bits keep align (T.held tables.now) uri (option_copied prefix.entry)) }
    ensures err { OnErr result (out.new ≡ out.old) }
    ensures aligned { IsWholeBytes align out.new }
{
    if !keep {
        return Ok(());
    }
    let Some(text) = prefix else {
        return Ok(());
    };
    let Some(place) = prefix_place(tables, uri, text) else {
        return Ok(());
    };
    put_place(
        out,
        u64::from(place),
        u64::from(tables.prefixes(uri)),
        align,
    )
}

/// Adds the bits of a local name, whose least place this is, and of a prefix.
fn put_under<T: Tables>(
    alloc: Global,
    out: &mut BitOut,
    keep: bool,
    uri: u32,
    local: &Txt,
    found: Option<u32>,
    prefix: Option<&Txt>,
    align: Align,
    tables: &T,
) -> Result<(), AllocError>
    requires xml { IsTrue (all_xml local.now) }
    requires uri { uri < length (uris (T.held tables.now)) }
    requires found { found ≡ least_place (locals (T.held tables.now) uri) local.now }
    requires within { IfSome found (λ i. i < length (locals (T.held tables.now) uri)) }
    requires aligned { IsWholeBytes align out.old }
    ensures ok { OnOk result (out.new ≡ out.old ++ under_bits keep align (T.held tables.now) uri local.now (option_copied prefix.entry)) }
    ensures err { OnErr result (HoldsFront out.old (under_bits keep align (T.held tables.now) uri local.now (option_copied prefix.entry)) out.new) }
    ensures aligned { IsWholeBytes align out.new }
{
    put_listed(alloc, out, local, found, tables.locals(uri), align)?;
    write_prefix(out, keep, prefix, align, uri, tables)
}

/// Writes the local name of the URI at a place and, where prefixes are kept, the prefix. A local name that is missed is
/// added. The characters of the local name have to be XML characters, and under [`Align::Bytes`] there have to be
/// whole bytes of bits.
///
/// # Errors
///
/// Where there is no memory. The bits then end with a front of the name's bits, maybe none, and the tables are
/// unchanged.
pub fn write_name_under<T: Tables>(
    alloc: Global,
    out: &mut BitOut,
    keep: bool,
    uri: u32,
    local: &Txt,
    prefix: Option<&Txt>,
    align: Align,
    tables: &mut T,
) -> Result<NameId, AllocError>
    requires xml { IsTrue (all_xml local.now) }
    requires uri { uri < length (uris (T.held tables.old)) }
    requires room { length (locals (T.held tables.old) uri) < 2 ^ 32 - 1 }
    requires aligned { IsWholeBytes align out.old }
    ensures ok { OnOk result (out.new ≡ out.old ++ under_bits keep align (T.held tables.old) uri local.now (option_copied prefix.entry)) }
    ensures tables { OnOk result (T.held tables.new ≡ after_local (T.held tables.old) uri local.now) }
    ensures id { IfOk result (λ id. id ≡ record { uri = uri; local = place_in (locals (T.held tables.new) uri) local.now }) }
    ensures name { IfOk result (λ id. IsName (T.held tables.new) id) }
    ensures err { OnErr result (HoldsFront out.old (under_bits keep align (T.held tables.old) uri local.now (option_copied prefix.entry)) out.new) }
    ensures same { OnErr result (T.held tables.new ≡ T.held tables.old) }
    ensures aligned { IsWholeBytes align out.new }
{
    let found = local_place(tables, uri, local);
    put_under(alloc, out, keep, uri, local, found, prefix, align, tables)?;
    match found {
        Some(place) => Ok(NameId { uri, local: place }),
        None => {
            let place = tables.add_local(uri, local.copy()?)?;
            Ok(NameId { uri, local: place })
        }
    }
}

/// Writes a qualified name: its URI, its local name and, where prefixes are kept, its prefix (EXI 1.0, section 7.1.7).
/// A URI or a local name that stands in its list is a hit at its least place, and else a miss, which is added. The name
/// is given by its least places. All characters have to be XML characters, and under [`Align::Bytes`] there have to be
/// whole bytes of bits.
///
/// # Errors
///
/// Where there is no memory. The bits then end with a front of the name's bits, maybe none, and the tables may have the
/// URI.
pub fn write_name<T: Tables>(
    alloc: Global,
    out: &mut BitOut,
    keep: bool,
    name: NameRef<'_>,
    align: Align,
    tables: &mut T,
) -> Result<NameId, AllocError>
    requires uri { IsTrue (all_xml name.uri.now) }
    requires local { IsTrue (all_xml name.local.now) }
    requires few { NoneLonger (2 ^ 31) (T.held tables.old) }
    requires aligned { IsWholeBytes align out.old }
    ensures ok { OnOk result (out.new ≡ out.old ++ name_bits keep align (T.held tables.old) (named name.entry)) }
    ensures tables { OnOk result (T.held tables.new ≡ after_name (T.held tables.old) (named name.entry)) }
    ensures id { IfOk result (λ id. id ≡ record { uri = space_for (T.held tables.old) name.entry.uri.now; local = place_in (locals (T.held tables.new) (space_for (T.held tables.old) name.entry.uri.now)) name.entry.local.now }) }
    ensures name { IfOk result (λ id. IsName (T.held tables.new) id) }
    ensures err { OnErr result (HoldsFront out.old (name_bits keep align (T.held tables.old) (named name.entry)) out.new) }
    ensures may { OnErr result (MayHaveUri (T.held tables.old) (T.held tables.new)) }
    ensures aligned { IsWholeBytes align out.new }
{
    let uri = write_uri(alloc, out, name.uri, align, tables)?;
    write_name_under(
        alloc,
        out,
        keep,
        uri,
        name.local,
        name.prefix,
        align,
        tables,
    )
}
