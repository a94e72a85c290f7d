ghost use Rattle.std.specs.Prelude.{◌≡◌, ◌^◌, IfOk, OnOk, OnErr, length};
ghost use Rattle.exi_bits.specs.Bits.{IsAligned};
ghost use Rattle.exi_tables.specs.Growth.{NoneLonger};
ghost use Rattle.exi_tables.specs.Partitions.{prefixes, with_prefix};
ghost use Rattle.exi_typed.specs.ReadStates.{GoesOrStops, Leaves, MayHaveUri, read_state};
ghost use Rattle.exi_typed.specs.Places.{
  IsDeclarationAt,
  IsDeclarationRead,
  IsSpace,
  IsSpelledIn,
  declaration_in,
  declaration_of,
  space_text,
  spelled_text,
  with_declaration,
  with_space,
  with_spelled_prefix,
};
ghost use Rattle.exi_typed.specs.Strings.{declaration_at, declared_under, indexed_at};

use crate::charge::{charge_text, told};
use crate::spaces::{Space, Spelled, add_prefix, read_uri};
use exi_bits::{Align, BitIn, Kind, Stop};
use exi_meter::Meter;
use exi_names::Txt;
use exi_tables::Tables;
use exi_text::read_chars;
use std::alloc::{AllocError, Global};

/// A namespace declaration that was read, by its places in the string tables.
#[derive(Clone, Copy, Debug, PartialEq, Eq)]
pub struct DeclarationAt {
    /// The least place of its URI.
    pub uri: u32,
    /// A place of its prefix among those of its URI.
    pub prefix: u32,
    /// Whether the prefix is that of the element itself.
    pub element: bool,
}

/// The URI and the prefix that stand at these places of the tables.
pub fn declaration_texts<T: Tables>(tables: &T, declaration: DeclarationAt) -> (&Txt, &Txt)
    requires { IsDeclarationAt (T.held tables.now) declaration }
    ensures uri { result.0.now ≡ (declaration_in (T.held tables.now) declaration).uri }
    ensures prefix { result.1.now ≡ (declaration_in (T.held tables.now) declaration).prefix }
{
    let uri = tables.uri_at(declaration.uri).unwrap();
    let prefix = tables
        .prefix_at(declaration.uri, declaration.prefix)
        .unwrap();
    (uri, prefix)
}

/// A namespace declaration that was read, and of which nothing is added yet.
#[derive(Drop)]
struct DeclarationRead {
    /// Its URI.
    space: Space,
    /// Its prefix.
    prefix: Spelled,
    /// Whether the prefix is that of the element itself.
    element: bool,
}

impl DeclarationRead {
    /// Adds what was missed, and gives the places of the declaration.
    ///
    /// # Errors
    ///
    /// `AllocError` where memory is refused; the tables may then have the URI.
    fn add<T: Tables>(self, tables: &mut T) -> Result<DeclarationAt, AllocError>
        requires few { NoneLonger (2 ^ 31) (T.held tables.old) }
        requires read { IsDeclarationRead (T.held tables.old) self }
        ensures declaration { IfOk result (λ d. declaration_in (T.held tables.new) d ≡ declaration_of (T.held tables.old) self) }
        ensures places { IfOk result (λ d. IsDeclarationAt (T.held tables.new) d) }
        ensures added { OnOk result (T.held tables.new ≡ with_declaration (T.held tables.old) self) }
        ensures err { OnErr result (MayHaveUri (T.held tables.old) (T.held tables.new)) }
    {
        let DeclarationRead {
            space,
            prefix,
            element,
        } = self;
        let uri = space.add(tables)?;
        let prefix = add_prefix(tables, uri, prefix)?;
        Ok(DeclarationAt {
            uri,
            prefix,
            element,
        })
    }
}

/// Reads a prefix that is declared for a URI. After an `Err` the place is anything.
#[tactic(auto, unfolding(crate::specs::Strings::indexed_at, crate::specs::Strings::literal_at, crate::specs::Strings::missed_at, crate::specs::Strings::charged_at))]
fn read_declared<T: Tables>(
    alloc: Global,
    input: &mut BitIn<'_>,
    align: Align,
    space: &Space,
    tables: &T,
    meter: &mut Meter,
) -> Result<Spelled, Stop>
    requires few { NoneLonger (2 ^ 31) (T.held tables.now) }
    requires aligned { IsAligned align input.old }
    ensures read { GoesOrStops (λ x. (spelled_text (prefixes (with_space (T.held tables.now) space.now) space.now.place) x, read_state input.new meter.new (with_spelled_prefix (with_space (T.held tables.now) space.now) space.now.place x))) meter.new result (indexed_at align (prefixes (with_space (T.held tables.now) space.now) space.now.place) (λ p. with_prefix p space.now.place) (read_state input.old meter.old (with_space (T.held tables.now) space.now))) }
    ensures within { IfOk result (λ x. IsSpelledIn (prefixes (with_space (T.held tables.now) space.now) space.now.place) x) }
    ensures bytes { input.new.bytes ≡ input.old.bytes }
    ensures aligned { IsAligned align input.new }
{
    let bit = input.at();
    let count = space.prefixes(tables);
    let code = input.below(u64::from(count) + 1, align, Kind::BadPlace)?;
    if code == 0 {
        let count = input.unsigned()?;
        let text = read_chars(alloc, input, count, None, align, meter)?;
        return Ok(Spelled::Missed(text));
    }
    let place = (code - 1) as u32;
    let text = told(space.prefix_at(tables, place), bit)?;
    charge_text(meter, text, input.at())?;
    Ok(Spelled::Placed(place))
}

/// Reads the prefix of a declaration of a URI, and whether it is that of the element. After an `Err` the place
/// is anything.
#[tactic(auto, unfolding(crate::specs::Strings::declared_under))]
fn read_under<T: Tables>(
    alloc: Global,
    input: &mut BitIn<'_>,
    align: Align,
    space: Space,
    tables: &T,
    meter: &mut Meter,
) -> Result<DeclarationRead, Stop>
    requires few { NoneLonger (2 ^ 31) (T.held tables.now) }
    requires space { IsSpace (T.held tables.now) space }
    requires aligned { IsAligned align input.old }
    ensures read { GoesOrStops (λ r. (declaration_of (T.held tables.now) r, read_state input.new meter.new (with_declaration (T.held tables.now) r))) meter.new result (declared_under align space.place (space_text (T.held tables.now) space) (read_state input.old meter.old (with_space (T.held tables.now) space))) }
    ensures places { IfOk result (λ r. IsDeclarationRead (T.held tables.now) r) }
    ensures bytes { input.new.bytes ≡ input.old.bytes }
    ensures aligned { IsAligned align input.new }
{
    let prefix = read_declared(alloc, input, align, &space, tables, meter)?;
    let element = input.below(2, align, Kind::BadPlace)? == 1;
    Ok(DeclarationRead {
        space,
        prefix,
        element,
    })
}

/// Reads a namespace declaration. After an `Err` the place is anything.
#[tactic(auto, unfolding(crate::specs::Strings::declaration_at))]
fn read_parts<T: Tables>(
    alloc: Global,
    input: &mut BitIn<'_>,
    align: Align,
    tables: &T,
    meter: &mut Meter,
) -> Result<DeclarationRead, Stop>
    requires few { NoneLonger (2 ^ 31) (T.held tables.now) }
    requires aligned { IsAligned align input.old }
    ensures read { GoesOrStops (λ r. (declaration_of (T.held tables.now) r, read_state input.new meter.new (with_declaration (T.held tables.now) r))) meter.new result (declaration_at align (read_state input.old meter.old (T.held tables.now))) }
    ensures places { IfOk result (λ r. IsDeclarationRead (T.held tables.now) r) }
    ensures bytes { input.new.bytes ≡ input.old.bytes }
    ensures aligned { IsAligned align input.new }
{
    let space = read_uri(alloc, input, align, tables, meter)?;
    read_under(alloc, input, align, space, tables, meter)
}

/// Reads a namespace declaration: a URI, a prefix in the partition of that URI, and one bit (EXI 1.0, sections 4
/// and 7.1.7). What is missed is added.
///
/// # Errors
///
/// The place may then be any, and what was charged before a fault stays charged. After a fault the tables are
/// unchanged; where memory ran out they may have the URI.
///
/// - `Short`, `TooWide` and `BadChar` at the item that is so.
/// - `BadPlace` at the place of a text that is not there, and in a byte-aligned stream at a bit above 1.
/// - `TextLimit` where a text would pass the limit: at its first character, or behind its place.
/// - `Memory` where memory is refused.
pub fn read_declaration<T: Tables>(
    alloc: Global,
    input: &mut BitIn<'_>,
    align: Align,
    tables: &mut T,
    meter: &mut Meter,
) -> Result<DeclarationAt, Stop>
    requires few { NoneLonger (2 ^ 31) (T.held tables.old) }
    requires aligned { IsAligned align input.old }
    ensures read { GoesOrStops (λ d. (declaration_in (T.held tables.new) d, read_state input.new meter.new (T.held tables.new))) meter.new result (declaration_at align (read_state input.old meter.old (T.held tables.old))) }
    ensures places { IfOk result (λ d. IsDeclarationAt (T.held tables.new) d) }
    ensures tables { Leaves result (T.held tables.old) (T.held tables.new) }
    ensures bytes { input.new.bytes ≡ input.old.bytes }
    ensures aligned { IsAligned align input.new }
{
    let read = read_parts(alloc, input, align, tables, meter)?;
    Ok(read.add(tables)?)
}
