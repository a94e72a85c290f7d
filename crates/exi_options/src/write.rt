//! Writing.

ghost use Rattle.std.specs.Prelude.{◌≡◌, ◌++◌, ◌≤◌, ◌<◌, OnOk, OnErr, IfOk, length};
ghost use Rattle.exi_items.specs.Fronts.{HoldsFront};
ghost use Rattle.exi_options.specs.Document.{codes};
ghost use Rattle.exi_options.specs.Writing.{IsNamable, chosen, code_in, is_absent, is_name, number_or_none, opened, options_bits, piece, schema_bits, value_bits, wanted, wants_preserve, wants_uncommon};

use crate::name::write_name;
use crate::table::{Element, Sign, State};
use crate::told::DEFAULT_BLOCK;
use bitflags::Flags;
use exi_bits::{Align, BitOut, bits_for};
use exi_gram::{OptionFlags, Options, SchemaWord};
use std::alloc::{AllocError, Global};

/// Whether one of the elements in `uncommon` is wanted.
fn wants_uncommon(options: &Options) -> bool
    ensures { result ≡ wants_uncommon options.now }
{
    options.flags.contains(OptionFlags::BYTES)
        || options.flags.contains(OptionFlags::SELF_CONTAINED)
        || options.most.is_some()
        || options.capacity.is_some()
}

/// Whether one of the elements in `preserve` is wanted.
fn wants_preserve(options: &Options) -> bool
    ensures { result ≡ wants_preserve options.now }
{
    options.flags.contains(OptionFlags::DTD)
        || options.flags.contains(OptionFlags::PREFIXES)
        || options.flags.contains(OptionFlags::COMMENTS)
        || options.flags.contains(OptionFlags::PIS)
}

/// Whether an element that holds others is opened.
#[tactic(auto, unfolding(crate::specs::Writing::opened))]
fn opened(options: &Options, element: Element) -> bool
    ensures { result ≡ opened options.now element }
{
    match element {
        Element::Header | Element::Nil => true,
        Element::Lesscommon => {
            wants_uncommon(options) || wants_preserve(options) || options.block != DEFAULT_BLOCK
        }
        Element::Uncommon => wants_uncommon(options),
        Element::Alignment => options.flags.contains(OptionFlags::BYTES),
        Element::Preserve => wants_preserve(options),
        Element::Common => {
            options.flags.contains(OptionFlags::FRAGMENT) || !is_absent(&options.schema)
        }
    }
}

/// Whether nothing is said of the schema.
fn is_absent(schema: &SchemaWord) -> bool
    ensures { result ≡ is_absent schema.now }
{
    match schema {
        SchemaWord::Absent => true,
        SchemaWord::Nil | SchemaWord::Id(_) => false,
    }
}

/// Whether the schema is named.
fn is_name(schema: &SchemaWord) -> bool
    ensures { result ≡ is_name schema.now }
{
    match schema {
        SchemaWord::Id(_) => true,
        SchemaWord::Absent | SchemaWord::Nil => false,
    }
}

/// Whether the options want what a code stands for.
#[tactic(auto, unfolding(crate::specs::Writing::wanted))]
fn wanted(options: &Options, sign: Sign) -> bool
    ensures { result ≡ wanted options.now sign }
{
    match sign {
        Sign::Opens(element) => opened(options, element),
        Sign::Ends | Sign::Byte | Sign::True => true,
        Sign::Switch(flag) => options.flags.contains(flag),
        Sign::BlockSize => options.block != DEFAULT_BLOCK,
        Sign::ValueMaxLength => options.most.is_some(),
        Sign::ValuePartitionCapacity => options.capacity.is_some(),
        Sign::SchemaId => !is_absent(&options.schema),
        Sign::Text => is_name(&options.schema),
        Sign::False | Sign::Refused(_) => false,
    }
}

/// The place of the first code of the state that the options want; at the end of the document there is none.
fn chosen(options: &Options, state: State) -> Option<usize>
    ensures { result ≡ chosen options.now state }
{
    state
        .codes()
        .iter()
        .position(|code| wanted(options, code.0))
}

/// Adds a number where there is one.
fn put_number(out: &mut BitOut, number: Option<u128>) -> Result<(), AllocError>
    ensures ok { OnOk result (out.new ≡ out.old ++ number_or_none number) }
    ensures err { OnErr result (out.new ≡ out.old) }
{
    match number {
        Some(number) => out.unsigned(number),
        None => Ok(()),
    }
}

/// Adds the name of the schema where there is one.
fn put_schema(alloc: Global, out: &mut BitOut, schema: &SchemaWord) -> Result<(), AllocError>
    requires name { IsNamable schema.now }
    ensures ok { OnOk result (out.new ≡ out.old ++ schema_bits schema.now) }
    ensures err { OnErr result (HoldsFront out.old (schema_bits schema.now) out.new) }
{
    match schema {
        SchemaWord::Id(name) => write_name(alloc, out, name),
        SchemaWord::Absent | SchemaWord::Nil => Ok(()),
    }
}

/// Adds the value behind a code.
#[tactic(auto, unfolding(crate::specs::Writing::value_bits))]
fn put_value(
    alloc: Global,
    out: &mut BitOut,
    options: &Options,
    sign: Sign,
) -> Result<(), AllocError>
    requires name { IsNamable options.now.schema }
    ensures ok { OnOk result (out.new ≡ out.old ++ value_bits options.now sign) }
    ensures err { OnErr result (HoldsFront out.old (value_bits options.now sign) out.new) }
{
    match sign {
        Sign::BlockSize => out.unsigned(options.block),
        Sign::ValueMaxLength => put_number(out, options.most),
        Sign::ValuePartitionCapacity => put_number(out, options.capacity),
        Sign::Text => put_schema(alloc, out, &options.schema),
        Sign::Opens(_)
        | Sign::Ends
        | Sign::Switch(_)
        | Sign::Byte
        | Sign::SchemaId
        | Sign::False
        | Sign::True
        | Sign::Refused(_) => Ok(()),
    }
}

/// Adds the code of a place in a state, and its value.
fn put_piece(
    alloc: Global,
    out: &mut BitOut,
    options: &Options,
    state: State,
    place: usize,
) -> Result<State, AllocError>
    requires name { IsNamable options.now.schema }
    requires there { place < length (codes state) }
    ensures ok { OnOk result (out.new ≡ out.old ++ piece options.now state place) }
    ensures next { IfOk result (λ next. next ≡ (code_in state place).1) }
    ensures err { OnErr result (HoldsFront out.old (piece options.now state place) out.new) }
{
    let codes = state.codes();
    let (sign, next) = codes[place];
    out.put(place as u64, bits_for(codes.len() as u64), Align::Bits)?;
    put_value(alloc, out, options, sign)?;
    Ok(next)
}

/// Writes the options document of these options (EXI 1.0, section 5.4), as [`read_options`](crate::read_options) reads it:
/// only what is not as the defaults have it. The schema's name has at most 65,536 characters, all of XML.
///
/// # Errors
///
/// `AllocError` where memory is refused. The bits then end with a front of the document, maybe none of it.
pub fn write_options(alloc: Global, out: &mut BitOut, options: &Options) -> Result<(), AllocError>
    requires name { IsNamable options.now.schema }
    ensures ok { OnOk result (out.new ≡ out.old ++ options_bits options.now) }
    ensures err { OnErr result (HoldsFront out.old (options_bits options.now) out.new) }
{
    let mut state = State::Document;
    while let Some(place) = chosen(options, state) {
        state = put_piece(alloc, out, options, state, place)?;
    }
    Ok(())
}
