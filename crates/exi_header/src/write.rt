//! Writing.

ghost use Rattle.std.specs.Prelude.{◌≡◌, ◌++◌, OnOk, IfOk};
ghost use Rattle.exi_options.specs.Writing.{IsNamable};
ghost use Rattle.exi_header.specs.Headers.{document_bits, front_bits, header_bits, mark_bits};

use crate::header::COOKIE;
use exi_bits::{Align, BitOut};
use exi_gram::Options;
use exi_options::write_options;
use std::alloc::{AllocError, Global};

/// Adds the bits that tell an EXI stream, whether an options document follows, and the version.
fn put_marks(out: &mut BitOut, told: bool) -> Result<(), AllocError>
    ensures { OnOk result (out.new ≡ out.old ++ mark_bits told) }
{
    let marks = if told { 0b1010_0000 } else { 0b1000_0000 };
    out.put(marks, 8, Align::Bits)
}

/// Adds the options document, where the options are told.
fn put_document(
    alloc: Global,
    out: &mut BitOut,
    options: &Options,
    told: bool,
) -> Result<(), AllocError>
    requires name { IsNamable options.now.schema }
    ensures { OnOk result (out.new ≡ out.old ++ document_bits options.now told) }
{
    if told {
        return write_options(alloc, out, options);
    }
    Ok(())
}

/// The header of a stream of these options (EXI 1.0, section 5), as [`read_header`](crate::read_header) reads it: with the
/// options document where they are told, and behind the cookie where that is asked for. The bits up to a whole byte are 0.
///
/// Where the options are told, the schema's name has at most 65,536 characters, all of XML.
///
/// # Errors
///
/// `AllocError` where memory is refused.
#[tactic(auto, unfolding(crate::specs::Headers::header_bits))]
pub fn write_header(
    alloc: Global,
    options: &Options,
    told: bool,
    cookie: bool,
) -> Result<BitOut, AllocError>
    requires name { IsNamable options.now.schema }
    ensures { IfOk result (λ out. out ≡ header_bits options.now told cookie) }
{
    let mut out = BitOut::new(alloc);
    if cookie {
        out.put(COOKIE, 32, Align::Bits)?;
    }
    put_marks(&mut out, told)?;
    put_document(alloc, &mut out, options, told)?;
    if let Align::Bytes = options.align() {
        out.pad();
    }
    Ok(out)
}
