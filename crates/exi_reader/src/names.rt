ghost use Rattle.std.specs.Prelude.{◌≡◌, ◌<◌, ◌-◌, ◌^◌, None, true, length, IfOk};
ghost use Rattle.exi_bits.specs.Bits.{IsAligned};
ghost use Rattle.exi_gram.specs.Switches.{align_of, prefixes};
ghost use Rattle.exi_names.specs.Seen as value;
ghost use Rattle.exi_tables.specs.Growth.{KeepsAll, NoneLonger};
ghost use Rattle.exi_tables.specs.Partitions.{live_at, uris};
ghost use Rattle.exi_typed.specs.ReadStates.{Goes, GoesOrStops, Leaves, read_state};
ghost use Rattle.exi_typed.specs.Places.{IsNameAt, name_in, text_in};
ghost use Rattle.exi_typed.specs.Strings.{placed_at};
ghost use Rattle.exi_values.specs.Valued.{valued_at};
ghost use Rattle.exi_processing.specs.Contents.{acts_as_type, attribute_value_at, told_name_at, under_at};
ghost use Rattle.exi_gram.specs.Globals.{type_grammar};
ghost use Rattle.exi_processing.specs.Handing.{IsTold, telling_of, valuing_in};

use exi_bits::{BitIn, Fault, Kind, Stop};
use exi_gram::Book;
use exi_meter::Meter;
use exi_processing::{Telling, Valuing, is_strict, keeps_prefixes};
use exi_tables::Tables;
use exi_typed::{NameAt, name_ref, read_known, read_name, read_name_under, read_name_value};
use std::alloc::Global;

/// Charges the URI at a place of the tables, which has to exist.
///
/// # Errors
///
/// `TextLimit` here, where it would pass the limit.
fn charge_uri<T: Tables>(
    input: &BitIn<'_>,
    uri: u32,
    tables: &T,
    meter: &mut Meter,
) -> Result<(), Fault>
    requires stands { uri < length (uris (T.held tables.now)) }
    ensures charged { Goes
        (λ _. (text_in (uris (T.held tables.now)) uri, read_state input.now meter.new (T.held tables.now)))
        meter.new
        result
        (placed_at input.now (live_at (uris (T.held tables.now)) uri) (read_state input.now meter.old (T.held tables.now))) }
{
    let bit = input.at();
    let Some(text) = tables.uri_at(uri) else {
        return Err(Fault {
            kind: Kind::BadPlace,
            bit,
        });
    };
    if meter.text(u128::from(text.count())) {
        return Ok(());
    }
    Err(Fault {
        kind: Kind::TextLimit,
        bit,
    })
}

/// Reads a name of which the code told the URI, by its place.
///
/// # Errors
///
/// Those of [`read_name_under`], and `TextLimit` where the URI would pass the limit. The place may then be any.
#[tactic(auto, unfolding(exi_processing::specs::Contents::under_at))]
#[inline(never)]
fn name_under<T: Tables>(
    alloc: Global,
    book: &Book,
    input: &mut BitIn<'_>,
    uri: u32,
    tables: &mut T,
    meter: &mut Meter,
) -> Result<NameAt, Stop>
    requires stands { uri < length (uris (T.held tables.old)) }
    requires few { NoneLonger (2 ^ 31) (T.held tables.old) }
    requires aligned { IsAligned (align_of book.now.options) input.old }
    ensures read { GoesOrStops
        (λ n. (name_in (T.held tables.new) n, read_state input.new meter.new (T.held tables.new)))
        meter.new
        result
        (under_at (prefixes book.now.options) (align_of book.now.options) uri (read_state input.old meter.old (T.held tables.old))) }
    ensures places { IfOk result (λ n. IsNameAt (T.held tables.new) n) }
    ensures tables { Leaves result (T.held tables.old) (T.held tables.new) }
    ensures bytes { input.new.bytes ≡ input.old.bytes }
    ensures aligned { IsAligned (align_of book.now.options) input.new }
{
    let options = book.options();
    charge_uri(input, uri, tables, meter)?;
    let keep = keeps_prefixes(options);
    read_name_under(alloc, input, keep, options.align(), uri, tables, meter)
}

/// Reads a name that has bits of its own, whole or behind its URI, or that the code told: [`told_name`], apart.
///
/// # Errors
///
/// Those of the calls that read names. The place may then be any.
#[inline(never)]
fn told_name_apart<T: Tables>(
    alloc: Global,
    book: &Book,
    input: &mut BitIn<'_>,
    telling: Telling,
    tables: &mut T,
    meter: &mut Meter,
) -> Result<NameAt, Stop>
    requires few { NoneLonger (2 ^ 31 - 2) (T.held tables.old) }
    requires known { IsTold telling (T.held tables.old) }
    requires aligned { IsAligned (align_of book.now.options) input.old }
    ensures read { GoesOrStops
        (λ n. (name_in (T.held tables.new) n, read_state input.new meter.new (T.held tables.new)))
        meter.new
        result
        (told_name_at book.now (telling_of telling) (read_state input.old meter.old (T.held tables.old))) }
    ensures places { IfOk result (λ n. IsNameAt (T.held tables.new) n) }
    ensures few { IfOk result (λ n. NoneLonger (2 ^ 31) (T.held tables.new)) }
    ensures bytes { input.new.bytes ≡ input.old.bytes }
    ensures aligned { IsAligned (align_of book.now.options) input.new }
{
    let options = book.options();
    let keep = keeps_prefixes(options);
    let align = options.align();
    match telling {
        Telling::Spelled => read_name(alloc, input, keep, align, tables, meter),
        Telling::Under(uri) => name_under(alloc, book, input, uri, tables, meter),
        Telling::Known(id) => Ok(read_known(input, keep, align, id, tables, meter)?),
    }
}

/// The same, copied out of the memory that the call answers in: the way of a name that the code told needs none.
#[inline(always)]
fn told_name_copied<T: Tables>(
    alloc: Global,
    book: &Book,
    input: &mut BitIn<'_>,
    telling: Telling,
    tables: &mut T,
    meter: &mut Meter,
) -> Result<NameAt, Stop>
    requires few { NoneLonger (2 ^ 31 - 2) (T.held tables.old) }
    requires known { IsTold telling (T.held tables.old) }
    requires aligned { IsAligned (align_of book.now.options) input.old }
    ensures read { GoesOrStops
        (λ n. (name_in (T.held tables.new) n, read_state input.new meter.new (T.held tables.new)))
        meter.new
        result
        (told_name_at book.now (telling_of telling) (read_state input.old meter.old (T.held tables.old))) }
    ensures places { IfOk result (λ n. IsNameAt (T.held tables.new) n) }
    ensures few { IfOk result (λ n. NoneLonger (2 ^ 31) (T.held tables.new)) }
    ensures bytes { input.new.bytes ≡ input.old.bytes }
    ensures aligned { IsAligned (align_of book.now.options) input.new }
{
    match told_name_apart(alloc, book, input, telling, tables, meter) {
        Ok(name) => Ok(name),
        Err(stop) => Err(stop),
    }
}

/// Reads a name that has bits of its own, whole or behind its URI, or that the code told.
///
/// # Errors
///
/// Those of the calls that read names. The place may then be any.
#[inline(always)]
pub fn told_name<T: Tables>(
    alloc: Global,
    book: &Book,
    input: &mut BitIn<'_>,
    telling: Telling,
    tables: &mut T,
    meter: &mut Meter,
) -> Result<NameAt, Stop>
    requires few { NoneLonger (2 ^ 31 - 2) (T.held tables.old) }
    requires known { IsTold telling (T.held tables.old) }
    requires aligned { IsAligned (align_of book.now.options) input.old }
    ensures read { GoesOrStops
        (λ n. (name_in (T.held tables.new) n, read_state input.new meter.new (T.held tables.new)))
        meter.new
        result
        (told_name_at book.now (telling_of telling) (read_state input.old meter.old (T.held tables.old))) }
    ensures places { IfOk result (λ n. IsNameAt (T.held tables.new) n) }
    ensures few { IfOk result (λ n. NoneLonger (2 ^ 31) (T.held tables.new)) }
    ensures bytes { input.new.bytes ≡ input.old.bytes }
    ensures aligned { IsAligned (align_of book.now.options) input.new }
{
    match telling {
        Telling::Known(id) => {
            let options = book.options();
            let keep = keeps_prefixes(options);
            Ok(read_known(input, keep, options.align(), id, tables, meter)?)
        }
        Telling::Spelled | Telling::Under(_) => {
            told_name_copied(alloc, book, input, telling, tables, meter)
        }
    }
}

/// The value of an attribute that is `xsi:type`: a name, and the grammar of the type that it names, where it is there.
#[derive(Clone, Copy)]
pub struct TypeRead {
    /// The name.
    pub name: NameAt,
    /// The place of the type's grammar.
    pub grammar: Option<u32>,
}

/// Reads the value of an attribute that is `xsi:type`: the name of a type.
///
/// # Errors
///
/// Those of the calls that read names, and in a strict stream `BadType` at the value, where no such type is there. The
/// place may then be any.
#[tactic(auto, unfolding(exi_processing::specs::Contents::attribute_value_at, exi_values::specs::Valued::valued_at, exi_typed::specs::Items::item_at))]
pub fn read_type<T: Tables>(
    alloc: Global,
    book: &Book,
    input: &mut BitIn<'_>,
    valuing: Valuing,
    name: NameAt,
    tables: &mut T,
    meter: &mut Meter,
) -> Result<TypeRead, Stop>
    requires few { NoneLonger (2 ^ 31) (T.held tables.old) }
    requires acts { acts_as_type (valuing_in valuing None) name.id ≡ true }
    requires aligned { IsAligned (align_of book.now.options) input.old }
    ensures read { GoesOrStops
        (λ n. (value.name (name_in (T.held tables.new) n.name).name, read_state input.new meter.new (T.held tables.new)))
        meter.new
        result
        (attribute_value_at book.now (valuing_in valuing None) (name_in (T.held tables.old) name) (read_state input.old meter.old (T.held tables.old))) }
    ensures grammar { IfOk result (λ n. n.grammar ≡ type_grammar book.now.schema.types (name_in (T.held tables.new) n.name).name) }
    ensures places { IfOk result (λ n. IsNameAt (T.held tables.new) n.name) }
    ensures keeps { IfOk result (λ n. KeepsAll (T.held tables.old) (T.held tables.new)) }
    ensures bytes { input.new.bytes ≡ input.old.bytes }
    ensures aligned { IsAligned (align_of book.now.options) input.new }
{
    let options = book.options();
    let bit = input.at();
    let keep = keeps_prefixes(options);
    let name = read_name_value(alloc, input, keep, options.align(), tables, meter)?;
    let grammar = book.type_grammar(name_ref(tables, name));
    if is_strict(options) && grammar.is_none() {
        return Err(Stop::Fault(Fault {
            kind: Kind::BadType,
            bit,
        }));
    }
    Ok(TypeRead { name, grammar })
}
