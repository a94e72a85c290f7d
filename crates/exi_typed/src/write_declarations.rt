ghost use Rattle.std.specs.Prelude.{◌≡◌, ◌++◌, ◌<◌, ◌-◌, ◌^◌, IfSome, IsTrue, OnOk, OnErr, length};
ghost use Rattle.exi_bits.specs.Bits.{number};
ghost use Rattle.exi_bits.specs.Written.{IsWholeBytes};
ghost use Rattle.exi_items.specs.Fronts.{HoldsFront};
ghost use Rattle.exi_tables.specs.Growth.{NoneLonger};
ghost use Rattle.exi_tables.specs.Partitions.{prefixes, uris};
ghost use Rattle.exi_text.specs.Literals.{all_xml};
ghost use Rattle.exi_typed.specs.ReadStates.{MayHaveUri};
ghost use Rattle.exi_typed.specs.Written.{
  after_declaration,
  after_prefix,
  declaration_bits,
  declared_bits,
  flag_number,
  indexed_bits,
};

use crate::put::put_indexed;
use crate::write_names::{prefix_place, write_uri};
use exi_bits::{Align, BitOut};
use exi_names::Txt;
use exi_tables::Tables;
use std::alloc::{AllocError, Global};

/// The number of a bit.
fn flag(element: bool) -> u64
    ensures flag { result ≡ flag_number element }
    ensures bit { result < 2 }
{
    if element {
        return 1;
    }
    0
}

/// Adds the bits of a declared prefix, whose least place this is, and of the element.
fn put_declared(
    alloc: Global,
    out: &mut BitOut,
    prefix: &Txt,
    found: Option<u32>,
    count: u32,
    element: bool,
    align: Align,
) -> Result<(), AllocError>
    requires xml { IsTrue (all_xml prefix.now) }
    requires within { IfSome found (λ i. i < count) }
    requires aligned { IsWholeBytes align out.old }
    ensures ok { OnOk result (out.new ≡ out.old ++ (indexed_bits align count prefix.now found ++ number 1 align (flag_number element))) }
    ensures err { OnErr result (HoldsFront out.old (indexed_bits align count prefix.now found ++ number 1 align (flag_number element)) out.new) }
    ensures aligned { IsWholeBytes align out.new }
{
    put_indexed(alloc, out, prefix, found, count, align)?;
    out.put(flag(element), 1, align)
}

/// Writes the prefix of a declaration for the URI at a place, and the bit of the element.
fn write_declared<T: Tables>(
    alloc: Global,
    out: &mut BitOut,
    uri: u32,
    prefix: &Txt,
    element: bool,
    align: Align,
    tables: &mut T,
) -> Result<(), AllocError>
    requires xml { IsTrue (all_xml prefix.now) }
    requires uri { uri < length (uris (T.held tables.old)) }
    requires room { length (prefixes (T.held tables.old) uri) < 2 ^ 32 - 1 }
    requires aligned { IsWholeBytes align out.old }
    ensures ok { OnOk result (out.new ≡ out.old ++ declared_bits align (T.held tables.old) uri prefix.now element) }
    ensures tables { OnOk result (T.held tables.new ≡ after_prefix (T.held tables.old) uri prefix.now) }
    ensures err { OnErr result (HoldsFront out.old (declared_bits align (T.held tables.old) uri prefix.now element) out.new) }
    ensures same { OnErr result (T.held tables.new ≡ T.held tables.old) }
    ensures aligned { IsWholeBytes align out.new }
{
    let found = prefix_place(tables, uri, prefix);
    put_declared(
        alloc,
        out,
        prefix,
        found,
        tables.prefixes(uri),
        element,
        align,
    )?;
    match found {
        Some(_) => Ok(()),
        None => {
            tables.add_prefix(uri, prefix.copy()?)?;
            Ok(())
        }
    }
}

/// Writes a namespace declaration: a URI, a prefix in the partition of that URI, and one bit (EXI 1.0, sections 4
/// and 7.1.7). What is missed is added. All characters have to be XML characters, and under [`Align::Bytes`] there have
/// to be whole bytes of bits.
///
/// # Errors
///
/// Where there is no memory. The bits then end with a front of the declaration's bits, maybe none, and the tables may
/// have the URI.
pub fn write_declaration<T: Tables>(
    alloc: Global,
    out: &mut BitOut,
    uri: &Txt,
    prefix: &Txt,
    element: bool,
    align: Align,
    tables: &mut T,
) -> Result<(), AllocError>
    requires uri { IsTrue (all_xml uri.now) }
    requires prefix { IsTrue (all_xml prefix.now) }
    requires few { NoneLonger (2 ^ 31) (T.held tables.old) }
    requires aligned { IsWholeBytes align out.old }
    ensures ok { OnOk result (out.new ≡ out.old ++ declaration_bits align (T.held tables.old) (record { uri = uri.now; prefix = prefix.now; element = element })) }
    ensures tables { OnOk result (T.held tables.new ≡ after_declaration (T.held tables.old) (record { uri = uri.now; prefix = prefix.now; element = element })) }
    ensures err { OnErr result (HoldsFront out.old (declaration_bits align (T.held tables.old) (record { uri = uri.now; prefix = prefix.now; element = element })) out.new) }
    ensures may { OnErr result (MayHaveUri (T.held tables.old) (T.held tables.new)) }
    ensures aligned { IsWholeBytes align out.new }
{
    let uri = write_uri(alloc, out, uri, align, tables)?;
    write_declared(alloc, out, uri, prefix, element, align, tables)
}
