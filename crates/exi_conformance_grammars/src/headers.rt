//! The case of headers: what is written of options, and whether it reads back.
//!
//! ```text
//! header FLAGS BLOCK MOST CAPACITY ID TOLD COOKIE     HEX BITS same, or HEX BITS other
//! ```
//!
//! `FLAGS` is the number of the option flags, `MOST` and `CAPACITY` are numbers or `-`, `ID` is `-`, `nil`, or `id:` and
//! the hex of a text, `TOLD` and `COOKIE` are 0 or 1.

ghost use Rattle.std.specs.Prelude.{◌≤◌, ◌^◌, IfOk, IfSome, length};
ghost use Rattle.exi_options.specs.Writing.{IsNamable};

use bitflags::Flags;
use exi_bits::BitOut;
use exi_cases::fields::{bound_of, text_of};
use exi_cases::show;
use exi_gram::{OptionFlags, Options, SchemaWord};
use exi_header::{Header, read_header, write_header};
use exi_names::Txt;
use exi_text::is_writable;
use std::alloc::{AllocError, Global};

/// The parts of a case that are numbers.
#[derive(Clone, Copy)]
struct Numbers {
    flags: u8,
    block: u128,
    most: Option<u128>,
    capacity: Option<u128>,
}

fn numbers_of(flags: &str, block: &str, most: &str, capacity: &str) -> Option<Numbers> {
    Some(Numbers {
        flags: flags.parse::<u8>().ok()?,
        block: block.parse::<u128>().ok()?,
        most: bound_of(most)?,
        capacity: bound_of(capacity)?,
    })
}

/// 0 or 1.
fn truth(text: &str) -> Option<bool> {
    match text {
        "0" => Some(false),
        "1" => Some(true),
        _ => None,
    }
}

/// What a name says of the schema, where it can be told.
fn named(name: Txt) -> Option<SchemaWord>
    ensures { IfSome result IsNamable }
{
    if name.count() > 65_536 || !is_writable(&name) {
        return None;
    }
    Some(SchemaWord::Id(name))
}

/// What the hex of a text says of the schema.
fn schema_by(alloc: Global, hex: &str) -> Result<Option<SchemaWord>, AllocError>
    ensures { IfOk result (λ r. IfSome r IsNamable) }
{
    match text_of(alloc, if hex.is_empty() { "-" } else { hex })? {
        Some(name) => Ok(named(name)),
        None => Ok(None),
    }
}

/// What is said of the schema.
fn schema_of(alloc: Global, text: &str) -> Result<Option<SchemaWord>, AllocError>
    ensures { IfOk result (λ r. IfSome r IsNamable) }
{
    if text == "-" {
        return Ok(Some(SchemaWord::Absent));
    }
    if text == "nil" {
        return Ok(Some(SchemaWord::Nil));
    }
    match text.strip_prefix("id:") {
        Some(hex) => schema_by(alloc, hex),
        None => Ok(None),
    }
}

/// Whether the two say the same of the schema.
fn same_schema(one: &SchemaWord, other: &SchemaWord) -> bool {
    match (one, other) {
        (SchemaWord::Absent, SchemaWord::Absent) | (SchemaWord::Nil, SchemaWord::Nil) => true,
        (SchemaWord::Id(one), SchemaWord::Id(other)) => one.same(other),
        _ => false,
    }
}

fn same_options(one: &Options, other: &Options) -> bool {
    one.flags.bits() == other.flags.bits()
        && one.block == other.block
        && one.most == other.most
        && one.capacity == other.capacity
        && same_schema(&one.schema, &other.schema)
}

/// Whether the header is that of the options, with the body behind all that was written.
fn is_same(header: &Header, options: &Options, told: bool, end: u128) -> bool {
    header.told == told && u128::from(header.body) == end && same_options(&header.options, options)
}

/// Whether what was written reads back.
fn reads_back(alloc: Global, out: &BitOut, options: &Options, told: bool) -> bool {
    let bytes = out.bytes();
    if bytes.len() > 1 << 32 {
        return false;
    }
    match read_header(alloc, bytes, options) {
        Ok(header) => is_same(&header, options, told, out.bits()),
        Err(_) => false,
    }
}

/// What is written of options.
fn written(
    alloc: Global,
    options: &Options,
    told: bool,
    cookie: bool,
) -> Result<Option<String>, AllocError>
    requires name { IsNamable options.now.schema }
{
    let out = write_header(alloc, options, told, cookie)?;
    let Some(bits) = show::bits(alloc, &out)? else {
        return Ok(None);
    };
    let word = if reads_back(alloc, &out, options, told) {
        "same"
    } else {
        "other"
    };
    Ok(Some(format!(in alloc; "{bits} {word}")?))
}

/// The same, by the parts of a case, where the options do not conflict.
fn written_by(
    alloc: Global,
    numbers: Numbers,
    schema: SchemaWord,
    told: bool,
    cookie: bool,
) -> Result<Option<String>, AllocError>
    requires name { IsNamable schema }
{
    let options = Options {
        flags: OptionFlags::from_bits_retain(numbers.flags),
        schema,
        block: numbers.block,
        most: numbers.most,
        capacity: numbers.capacity,
    };
    if options.conflicts() {
        return Ok(None);
    }
    written(alloc, &options, told, cookie)
}

/// The answer by the parts of a case.
fn told_by(
    alloc: Global,
    numbers: Numbers,
    id: &str,
    told: bool,
    cookie: bool,
) -> Result<Option<String>, AllocError> {
    match schema_of(alloc, id)? {
        Some(schema) => written_by(alloc, numbers, schema, told, cookie),
        None => Ok(None),
    }
}

/// `header FLAGS BLOCK MOST CAPACITY ID TOLD COOKIE`
pub fn answer(alloc: Global, fields: &[&str]) -> Result<Option<String>, AllocError> {
    let ["header", flags, block, most, capacity, id, told, cookie] = fields else {
        return Ok(None);
    };
    let Some(numbers) = numbers_of(flags, block, most, capacity) else {
        return Ok(None);
    };
    let (Some(told), Some(cookie)) = (truth(told), truth(cookie)) else {
        return Ok(None);
    };
    told_by(alloc, numbers, id, told, cookie)
}
