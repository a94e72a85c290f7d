//! Reading.

ghost use Rattle.std.specs.Prelude.{◌≡◌, OnErr, IfOk, false, ◌<◌, length, slice_get, Some};
ghost use Rattle.exi_bits.specs.Unsigned.{ReadsSome, Stops};
ghost use Rattle.exi_bits.specs.declared.align.Align.TheVariants as align;
ghost use Rattle.exi_gram.specs.Codes.{code_at};
ghost use Rattle.exi_gram.specs.Switches.{conflicts};
ghost use Rattle.exi_options.specs.Document.{productions};
ghost use Rattle.exi_options.specs.Reading.{codes_at, document_at, options_at, untold, value_at};
ghost use Rattle.exi_options.specs.declared.table.State.TheVariants as state;

use crate::name::read_name;
use crate::table::{Code, Sign, State};
use crate::told::Told;
use bitflags::Flags;
use exi_bits::{Align, BitIn, Fault, Kind, Stop};
use exi_gram::{OptionFlags, SchemaWord, read_part};
use std::alloc::Global;

/// The code of the state that comes next. After an `Err` the place is as before.
fn read_code(input: &mut BitIn<'_>, state: State) -> Result<Code, Fault>
    ensures read { ReadsSome (λ c. c) result input.new (code_at align.Bits (productions state) input.old) }
    ensures bytes { input.new.bytes ≡ input.old.bytes }
{
    let codes = state.codes();
    let place = read_part(input, codes.len() as u32, Align::Bits)?;
    Ok(codes[place as usize])
}

/// Takes what a code stands for, which began at that bit, and reads the value behind it. After an `Err` the place and
/// what is told are anything.
#[tactic(auto, unfolding(crate::specs::Reading::value_at))]
fn take(
    alloc: Global,
    input: &mut BitIn<'_>,
    sign: Sign,
    bit: u64,
    told: &mut Told,
) -> Result<(), Stop>
    ensures read { Stops (λ _. told.new) result input.new (value_at sign bit told.old input.old) }
    ensures bytes { input.new.bytes ≡ input.old.bytes }
{
    match sign {
        Sign::Opens(_) | Sign::Ends | Sign::False => {}
        Sign::Switch(flag) => told.options.flags.insert(flag),
        Sign::Byte => told.options.flags.insert(OptionFlags::BYTES),
        Sign::BlockSize => told.options.block = input.unsigned()?,
        Sign::ValueMaxLength => told.options.most = Some(input.unsigned()?),
        Sign::ValuePartitionCapacity => told.options.capacity = Some(input.unsigned()?),
        Sign::SchemaId => told.schema_bit = Some(bit),
        Sign::Text => told.options.schema = SchemaWord::Id(read_name(alloc, input)?),
        Sign::True => told.options.schema = SchemaWord::Nil,
        Sign::Refused(part) => {
            return Err(Stop::Fault(Fault {
                kind: Kind::Unsupported(part),
                bit,
            }));
        }
    }
    Ok(())
}

/// Reads one code after another up to the end of the document. After an `Err` the place is anything.
fn read_codes(alloc: Global, input: &mut BitIn<'_>) -> Result<Told, Stop>
    ensures read { Stops (λ t. t) result input.new (document_at input.old) }
    ensures bytes { input.new.bytes ≡ input.old.bytes }
{
    let mut told = Told::nothing();
    let mut state = State::Document;
    while !state.codes().is_empty() {
        let bit = input.at();
        let (sign, next) = read_code(input, state)?;
        take(alloc, input, sign, bit, &mut told)?;
        state = next;
    }
    Ok(told)
}

/// The same; then no options may be told that exclude each other. After an `Err` the place is anything.
#[tactic(auto, unfolding(crate::specs::Reading::options_at))]
fn read_whole(alloc: Global, input: &mut BitIn<'_>) -> Result<Told, Stop>
    ensures read { Stops (λ t. t) result input.new (options_at input.old) }
    ensures bytes { input.new.bytes ≡ input.old.bytes }
    ensures free { IfOk result (λ t. conflicts t.options ≡ false) }
{
    let told = read_codes(alloc, input)?;
    if told.options.conflicts() {
        return Err(Stop::Fault(Fault {
            kind: Kind::Conflict,
            bit: input.at(),
        }));
    }
    Ok(told)
}

/// Reads the options document that begins at the place, at any bit (EXI 1.0, section 5.4). What it tells excludes nothing
/// else that it tells.
///
/// # Errors
///
/// The place is then as before.
///
/// - `Short` and `TooWide` at the code or the number that is so.
/// - `NoCode` at a code that its state does not have.
/// - `Unsupported` at the code of the part that is not supported.
/// - `BadPlace`, `TextLimit` and `BadChar` in the schema's name: behind its length where that stands for a string of the
///   tables, of which there are none; at its length where it has more than 65,536 characters; at a character that is
///   none of XML.
/// - `Conflict` at the first bit behind the document where it tells options that exclude each other.
/// - `Memory` where memory is refused.
pub fn read_options(alloc: Global, input: &mut BitIn<'_>) -> Result<Told, Stop>
    ensures read { Stops (λ t. t) result input.new (options_at input.old) }
    ensures place { OnErr result (input.new ≡ input.old) }
    ensures bytes { input.new.bytes ≡ input.old.bytes }
    ensures free { IfOk result (λ t. conflicts t.options ≡ false) }
{
    let start = input.at();
    match read_whole(alloc, input) {
        Ok(told) => Ok(told),
        Err(stop) => {
            input.go_to_bit(start);
            Err(stop)
        }
    }
}
