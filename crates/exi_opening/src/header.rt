ghost use Rattle.std.specs.Prelude.{◌≡◌, ◌≤◌, ◌*◌, ◌^◌, IfOk, false, length, option_copied};
ghost use Rattle.exi_bits.specs.Bits.{IsAligned};
ghost use Rattle.exi_gram.specs.Switches.{align_of, conflicts};
ghost use Rattle.exi_header.specs.Headers.{Tells};
ghost use Rattle.exi_opening.specs.Header.{another_bit, header_for, is_another, is_empty_name, name_bit, stream_header};

use exi_bits::{Fault, Kind, Stop};
use exi_gram::{Options, SchemaWord};
use exi_header::{Header, read_header};
use exi_names::Txt;
use std::alloc::Global;

/// The bit of the code that opened the name of a schema, where the header has one.
fn name_bit(header: &Header) -> Option<u64>
    ensures { result ≡ name_bit header.now.options.schema header.now.schema_bit }
{
    match header.options.schema {
        SchemaWord::Absent | SchemaWord::Nil => None,
        SchemaWord::Id(_) => header.schema_bit,
    }
}

/// Whether a name is the empty one, which stands for the types of XML Schema alone.
pub fn is_empty_name(name: &Txt) -> bool
    ensures { result ≡ is_empty_name name.now }
{
    name.as_str().is_empty()
}

/// Whether a name is another one than that by which a schema is known.
fn is_another(known: Option<&str>, name: &Txt) -> bool
    ensures { result ≡ is_another (option_copied known.entry) name.now }
{
    match known {
        Some(known) => name.as_str() != known,
        None => true,
    }
}

/// The bit of the code that opened the name of a schema, where that is not known.
fn another_bit(known: Option<&str>, header: &Header) -> Option<u64>
    ensures { result ≡ another_bit (option_copied known.entry) header.now.options.schema header.now.schema_bit }
{
    match &header.options.schema {
        SchemaWord::Absent | SchemaWord::Nil => None,
        SchemaWord::Id(name) if is_empty_name(name) => None,
        SchemaWord::Id(name) if is_another(known, name) => header.schema_bit,
        SchemaWord::Id(_) => None,
    }
}

/// The header of a stream that may name no schema, with the options of the words where it tells none.
///
/// # Errors
///
/// Those of [`read_header`], and then `WrongSchema` where the stream names a schema.
#[tactic(auto, unfolding(crate::specs::Header::header_for))]
pub fn accepted_header(alloc: Global, bytes: &[u8], words: &Options) -> Result<Header, Stop>
    requires few { length bytes.now ≤ 2 ^ 32 }
    requires free { conflicts words.now ≡ false }
    ensures read { Tells result (header_for words.now bytes.now) }
    ensures free { IfOk result (λ h. conflicts h.options ≡ false) }
    ensures within { IfOk result (λ h. h.body ≤ 8 * length bytes.now) }
    ensures aligned { IfOk result (λ h. IsAligned (align_of h.options) (record { bytes = bytes.now; place = h.body })) }
{
    let header = read_header(alloc, bytes, words)?;
    if let Some(bit) = name_bit(&header) {
        return Err(Stop::Fault(Fault {
            kind: Kind::WrongSchema,
            bit,
        }));
    }
    Ok(header)
}

/// The header of a stream, with the options of the words where it tells none. It may name the types of XML Schema alone, by the
/// empty name, and a schema that is known by this name, if one is.
///
/// # Errors
///
/// Those of [`read_header`], and then `WrongSchema` where the stream names another schema.
#[tactic(auto, unfolding(crate::specs::Header::stream_header))]
pub fn stream_header(
    alloc: Global,
    bytes: &[u8],
    words: &Options,
    known: Option<&str>,
) -> Result<Header, Stop>
    requires few { length bytes.now ≤ 2 ^ 32 }
    requires free { conflicts words.now ≡ false }
    ensures read { Tells result (stream_header (option_copied known.entry) words.now bytes.now) }
    ensures free { IfOk result (λ h. conflicts h.options ≡ false) }
    ensures within { IfOk result (λ h. h.body ≤ 8 * length bytes.now) }
    ensures aligned { IfOk result (λ h. IsAligned (align_of h.options) (record { bytes = bytes.now; place = h.body })) }
{
    let header = read_header(alloc, bytes, words)?;
    if let Some(bit) = another_bit(known, &header) {
        return Err(Stop::Fault(Fault {
            kind: Kind::WrongSchema,
            bit,
        }));
    }
    Ok(header)
}
