ghost use Rattle.std.specs.Prelude.{◌≡◌, ◌<◌, ◌++◌, ◌&&◌, ◌^◌, ◌-◌, [], ◌∷◌, None, Some, IfOk, IfSome, OnOk, IsTrue, if◌then◌else◌, length, true};
ghost use Rattle.exi_bits.specs.Written.{IsWholeBytes};
ghost use Rattle.exi_gram.specs.Switches.{align_of, prefixes};
ghost use Rattle.exi_names.specs.Shown.{named};
ghost use Rattle.exi_tables.specs.Growth.{NoneLonger};
ghost use Rattle.exi_tables.specs.Partitions as tables;
ghost use Rattle.exi_tables.specs.Partitions.{IsName, least_place, uris};
ghost use Rattle.exi_typed.specs.Written.{
  after_declaration,
  after_name,
  after_string,
  declaration_bits,
  literal_bits,
  name_bits,
  prefix_bits,
  string_bits,
  under_bits,
  after_local,
};
ghost use Rattle.exi_typed.specs.WrittenLaws.{name_units, named_for};
ghost use Rattle.exi_toll.specs.Charges.{charge};
ghost use Rattle.exi_writing.specs.Pieces.{can_be_spelled, can_know, can_know_under, can_name, named_under};

use crate::spelled::{can_be_spelled, can_name, can_tell};
use exi_bits::BitOut;
use exi_gram::Options;
use exi_names::{NameId, NameRef, Txt};
use exi_processing::keeps_prefixes;
use exi_tables::Tables;
use exi_toll::Toll;
use exi_typed::{
    write_declaration, write_literal, write_name, write_name_under, write_prefix, write_string,
};
use std::alloc::{AllocError, Global};

/// Charges the characters of a name's URI, local name and prefix, where it has one, each in its turn.
#[inline(always)]
pub fn pay_name(toll: &mut Toll, name: NameRef<'_>)
    ensures { toll.new ≡ charge (name_units (named name.entry)) toll.old }
{
    toll.text(name.uri.count());
    toll.text(name.local.count());
    if let Some(prefix) = name.prefix {
        toll.text(prefix.count());
    }
}

/// Writes a text that stands in no string table. False where it has no spelling.
pub fn put_literal(
    alloc: Global,
    options: &Options,
    out: &mut BitOut,
    toll: &mut Toll,
    text: &Txt,
) -> Result<bool, AllocError>
    requires aligned { IsWholeBytes (align_of options.now) out.old }
    ensures can { IfOk result (λ b. b ≡ can_be_spelled text.now) }
    ensures bits { IfOk result (λ b. IsTrue b → out.new ≡ out.old ++ literal_bits (align_of options.now) text.now) }
    ensures toll { IfOk result (λ b. IsTrue b → toll.new ≡ charge (length text.now ∷ []) toll.old) }
    ensures aligned { IsWholeBytes (align_of options.now) out.new }
{
    if !can_be_spelled(text) {
        return Ok(false);
    }
    toll.text(text.count());
    write_literal(alloc, out, text, options.align())?;
    Ok(true)
}

/// Writes a qualified name, and gives its places. Nothing where it has no spelling.
pub fn put_name<T: Tables>(
    alloc: Global,
    options: &Options,
    out: &mut BitOut,
    toll: &mut Toll,
    tables: &mut T,
    name: NameRef<'_>,
) -> Result<Option<NameId>, AllocError>
    requires few { NoneLonger (2 ^ 31) (T.held tables.old) }
    requires aligned { IsWholeBytes (align_of options.now) out.old }
    ensures id { IfOk result (λ o. o ≡ (if can_name (prefixes options.now) (T.held tables.old) (named name.entry) then Some (named_for (T.held tables.old) (named name.entry)).id else None)) }
    ensures bits { IfOk result (λ o. IfSome o (λ id. out.new ≡ out.old ++ name_bits (prefixes options.now) (align_of options.now) (T.held tables.old) (named name.entry))) }
    ensures tables { IfOk result (λ o. IfSome o (λ id. T.held tables.new ≡ after_name (T.held tables.old) (named name.entry))) }
    ensures name { IfOk result (λ o. IfSome o (λ id. IsName (T.held tables.new) id)) }
    ensures toll { IfOk result (λ o. IfSome o (λ id. toll.new ≡ charge (name_units (named name.entry)) toll.old)) }
    ensures aligned { IsWholeBytes (align_of options.now) out.new }
{
    let keep = keeps_prefixes(options);
    if !can_name(tables, keep, name) {
        return Ok(None);
    }
    pay_name(toll, name);
    let id = write_name(alloc, out, keep, name, options.align(), tables)?;
    Ok(Some(id))
}

/// Writes what is left of a name that the code tells by its places, which have to be its least: its prefix. False where it
/// has no spelling.
#[inline(always)]
pub fn put_known<T: Tables>(
    options: &Options,
    out: &mut BitOut,
    toll: &mut Toll,
    tables: &T,
    id: NameId,
    name: NameRef<'_>,
) -> Result<bool, AllocError>
    requires uri { id.uri < length (uris (T.held tables.now)) }
    requires aligned { IsWholeBytes (align_of options.now) out.old }
    ensures can { IfOk result (λ b. b ≡ can_know (prefixes options.now) (T.held tables.now) id (named name.entry)) }
    ensures bits { IfOk result (λ b. IsTrue b → out.new ≡ out.old ++ prefix_bits (prefixes options.now) (align_of options.now) (T.held tables.now) id.uri (named name.entry).prefix) }
    ensures toll { IfOk result (λ b. IsTrue b → toll.new ≡ charge (name_units (named name.entry)) toll.old) }
    ensures aligned { IsWholeBytes (align_of options.now) out.new }
{
    let keep = keeps_prefixes(options);
    if !can_be_spelled(name.uri) || !can_be_spelled(name.local) {
        return Ok(false);
    }
    if !can_tell(tables, keep, id.uri, name.prefix) {
        return Ok(false);
    }
    pay_name(toll, name);
    write_prefix(out, keep, name.prefix, options.align(), id.uri, tables)?;
    Ok(true)
}

/// Writes what is left of a name of which the code tells the URI by its place: its local name and its prefix. Nothing where it
/// has no spelling.
pub fn put_under<T: Tables>(
    alloc: Global,
    options: &Options,
    out: &mut BitOut,
    toll: &mut Toll,
    tables: &mut T,
    uri: u32,
    name: NameRef<'_>,
) -> Result<Option<NameId>, AllocError>
    requires uri { least_place (uris (T.held tables.old)) (named name).uri ≡ Some uri }
    requires few { NoneLonger (2 ^ 31) (T.held tables.old) }
    requires aligned { IsWholeBytes (align_of options.now) out.old }
    ensures id { IfOk result (λ o. o ≡ (if can_know_under (prefixes options.now) (T.held tables.old) uri (named name.entry) then Some (named_under (T.held tables.old) uri (named name.entry)).id else None)) }
    ensures bits { IfOk result (λ o. IfSome o (λ id. out.new ≡ out.old ++ under_bits (prefixes options.now) (align_of options.now) (T.held tables.old) uri (named name.entry).local (named name.entry).prefix)) }
    ensures tables { IfOk result (λ o. IfSome o (λ id. T.held tables.new ≡ after_local (T.held tables.old) uri (named name.entry).local)) }
    ensures name { IfOk result (λ o. IfSome o (λ id. IsName (T.held tables.new) id)) }
    ensures toll { IfOk result (λ o. IfSome o (λ id. toll.new ≡ charge (name_units (named name.entry)) toll.old)) }
    ensures aligned { IsWholeBytes (align_of options.now) out.new }
{
    let keep = keeps_prefixes(options);
    if !can_be_spelled(name.uri) || !can_be_spelled(name.local) {
        return Ok(None);
    }
    if !can_tell(tables, keep, uri, name.prefix) {
        return Ok(None);
    }
    pay_name(toll, name);
    let align = options.align();
    let id = write_name_under(
        alloc,
        out,
        keep,
        uri,
        name.local,
        name.prefix,
        align,
        tables,
    )?;
    Ok(Some(id))
}

/// Writes a string value of a name, which has to have a spelling.
pub fn put_spelled<T: Tables>(
    alloc: Global,
    options: &Options,
    out: &mut BitOut,
    toll: &mut Toll,
    tables: &mut T,
    name: NameId,
    text: &Txt,
) -> Result<(), AllocError>
    requires can { can_be_spelled text.now ≡ true }
    requires name { IsName (T.held tables.old) name }
    requires few { NoneLonger (2 ^ 31) (T.held tables.old) }
    requires aligned { IsWholeBytes (align_of options.now) out.old }
    ensures bits { OnOk result (out.new ≡ out.old ++ string_bits None (align_of options.now) (T.held tables.old) name text.now) }
    ensures tables { OnOk result (T.held tables.new ≡ after_string (T.held tables.old) name text.now) }
    ensures toll { OnOk result (toll.new ≡ charge (length text.now ∷ []) toll.old) }
    ensures aligned { IsWholeBytes (align_of options.now) out.new }
{
    toll.text(text.count());
    write_string(alloc, out, text, None, options.align(), name, tables)
}

/// Writes a namespace declaration. False where it has no spelling.
pub fn put_declaration<T: Tables>(
    alloc: Global,
    options: &Options,
    out: &mut BitOut,
    toll: &mut Toll,
    tables: &mut T,
    uri: &Txt,
    prefix: &Txt,
    element: bool,
) -> Result<bool, AllocError>
    requires few { NoneLonger (2 ^ 31) (T.held tables.old) }
    requires aligned { IsWholeBytes (align_of options.now) out.old }
    ensures can { IfOk result (λ b. b ≡ (can_be_spelled uri.now && can_be_spelled prefix.now)) }
    ensures bits { IfOk result (λ b. IsTrue b → out.new ≡ out.old ++ declaration_bits (align_of options.now) (T.held tables.old) (record { uri = uri.now; prefix = prefix.now; element = element })) }
    ensures tables { IfOk result (λ b. IsTrue b → T.held tables.new ≡ after_declaration (T.held tables.old) (record { uri = uri.now; prefix = prefix.now; element = element })) }
    ensures toll { IfOk result (λ b. IsTrue b → toll.new ≡ charge (length uri.now ∷ length prefix.now ∷ []) toll.old) }
    ensures aligned { IsWholeBytes (align_of options.now) out.new }
{
    if !can_be_spelled(uri) || !can_be_spelled(prefix) {
        return Ok(false);
    }
    toll.text(uri.count());
    toll.text(prefix.count());
    write_declaration(alloc, out, uri, prefix, element, options.align(), tables)?;
    Ok(true)
}
