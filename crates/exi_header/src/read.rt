//! Reading.

ghost use Rattle.std.specs.Prelude.{◌≡◌, ◌≤◌, ◌*◌, ◌^◌, IfOk, false, length};
ghost use Rattle.exi_bits.specs.Bits.{IsAligned};
ghost use Rattle.exi_bits.specs.Unsigned.{ReadsSome, Stops};
ghost use Rattle.exi_gram.specs.Switches.{align_of, conflicts};
ghost use Rattle.exi_header.specs.Headers.{KnownAs, Tells, behind_cookie, body_at, header_at, header_in, known_at, marks_at, told_at};

use crate::header::{COOKIE, Header};
use exi_bits::{Align, BitIn, Fault, Kind, Stop};
use exi_gram::Options;
use exi_options::{Told, read_options};
use std::alloc::Global;

/// Goes behind the cookie, where it stands at the place.
#[tactic(auto, unfolding(crate::specs::Headers::behind_cookie))]
fn skip_cookie(input: &mut BitIn<'_>)
    ensures read { input.new ≡ behind_cookie input.old }
    ensures bytes { input.new.bytes ≡ input.old.bytes }
{
    let start = input.at();
    match input.take(32, Align::Bits) {
        Some(COOKIE) => {}
        Some(_) => input.go_to_bit(start),
        None => {}
    }
}

/// Takes a number that has to be this one. After an `Err` the place is anything.
#[tactic(auto, unfolding(crate::specs::Headers::known_at))]
fn take_known(input: &mut BitIn<'_>, width: u32, value: u64, kind: Kind) -> Result<(), Fault>
    requires narrow { width ≤ 64 }
    ensures read { KnownAs result input.new (known_at width value kind input.old) }
    ensures bytes { input.new.bytes ≡ input.old.bytes }
{
    let bit = input.at();
    if input.take(width, Align::Bits) != Some(value) {
        return Err(Fault { kind, bit });
    }
    Ok(())
}

/// Takes the bits that tell an EXI stream, whether an options document follows, and the version.
#[tactic(auto, unfolding(crate::specs::Headers::marks_at))]
fn take_marks(input: &mut BitIn<'_>) -> Result<bool, Fault>
    ensures read { ReadsSome (λ told. told) result input.new (marks_at input.old) }
    ensures bytes { input.new.bytes ≡ input.old.bytes }
{
    take_known(input, 2, 0b10, Kind::NoExi)?;
    let presence = input.number(1, Align::Bits)?;
    take_known(input, 5, 0, Kind::Version)?;
    Ok(presence == 1)
}

/// What the document tells, where there is one; else what is handed in.
#[tactic(auto, unfolding(crate::specs::Headers::told_at))]
fn take_told(
    alloc: Global,
    input: &mut BitIn<'_>,
    words: &Options,
    told: bool,
) -> Result<Told, Stop>
    ensures read { Stops (λ t. t) result input.new (told_at words.now told input.old) }
    ensures bytes { input.new.bytes ≡ input.old.bytes }
    ensures free { conflicts words.now ≡ false → IfOk result (λ t. conflicts t.options ≡ false) }
{
    if told {
        return read_options(alloc, input);
    }
    Ok(Told {
        options: words.copy()?,
        schema_bit: None,
    })
}

/// Goes to where the body begins.
fn skip_padding(input: &mut BitIn<'_>, options: &Options)
    ensures read { input.new ≡ body_at options.now input.old }
    ensures bytes { input.new.bytes ≡ input.old.bytes }
{
    if let Align::Bytes = options.align() {
        input.skip_to_byte();
    }
}

/// Reads the header of a stream (EXI 1.0, section 5). Where it tells options, these alone decide; else it is `words`. The
/// body begins in the bytes, in a byte-aligned stream at a whole byte.
///
/// # Errors
///
/// - `NoExi` at the bits that tell an EXI stream, where they are others or missing.
/// - `Version` at the version, where it is not the first final one.
/// - Those of [`read_options`], at their bits.
/// - `Memory` where memory is refused.
#[tactic(auto, unfolding(crate::specs::Headers::header_at))]
pub fn read_header(alloc: Global, bytes: &[u8], words: &Options) -> Result<Header, Stop>
    requires few { length bytes.now ≤ 2 ^ 32 }
    ensures read { Tells result (header_in words.now bytes.now) }
    ensures free { conflicts words.now ≡ false → IfOk result (λ h. conflicts h.options ≡ false) }
    ensures within { IfOk result (λ h. h.body ≤ 8 * length bytes.now) }
    ensures aligned { IfOk result (λ h. IsAligned (align_of h.options) (record { bytes = bytes.now; place = h.body })) }
{
    let mut input = BitIn::new(bytes);
    skip_cookie(&mut input);
    let told = take_marks(&mut input)?;
    let Told {
        options,
        schema_bit,
    } = take_told(alloc, &mut input, words, told)?;
    skip_padding(&mut input, &options);
    Ok(Header {
        options,
        told,
        schema_bit,
        body: input.at(),
    })
}
