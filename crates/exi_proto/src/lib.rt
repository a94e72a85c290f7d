//! The grammar of a type before it is normal (EXI 1.0, section 8.5.4.1): the attributes one after another, and behind them the
//! content, made of copies, sequences and choices of what reads one element.
#![tactic(auto)]

mod attributes;
mod contents;
mod copies;
mod datatypes;
pub mod laws;
mod leaves;
mod spot;
mod steps;
mod stop;
mod turns;
mod types;
mod work;

ghost use Rattle.std.specs.Prelude.{◌≡◌, ◌<◌, IfOk, length};
ghost use Rattle.exi_draft.specs.Drafts.{LeadsInside, draft_of};
ghost use Rattle.exi_proto.specs.Promises.{Drafts, DraftsOf};

use crate::types::{any_proto, complex_proto, simple_proto};
pub use datatypes::datatype_of;
use exi_counts::{Counts, MOST_STATES};
use exi_elements::Elements;
use exi_gram::Proto;
use std::alloc::Global;
pub use stop::ProtoStop;
use xsd_model::{Components, SchemaFault, SchemaKind, SchemaStop, TypeBody};

/// The grammar of the type at a place, which has to exist, or its empty form, which `xsi:nil` takes.
///
/// The grammar that SE of an element opens is told as the place of the first declaration that opens it.
///
/// # Errors
///
/// `TooLarge` exactly where it has more than [`exi_counts::MOST_STATES`] states. `Memory` where memory is refused, and also where
/// more than 64 lists lie in one another, or a content has 2^32 - 1 particles or more that are told apart.
pub fn type_proto(
    alloc: Global,
    counts: &Counts<'_>,
    of: u32,
    empty: bool,
) -> Result<Proto, ProtoStop>
    requires exists { of < length counts.now.types }
    ensures made { Drafts result counts.now of empty }
    ensures inside { IfOk result (λ proto. LeadsInside (draft_of proto)) }
{
    if counts.type_states(alloc, of, empty)? > MOST_STATES {
        return Err(ProtoStop::TooLarge);
    }
    let parts = counts.elements().parts();
    let proto = match &parts.types()[of as usize].body {
        TypeBody::Simple { form: _, union: _ } => simple_proto(alloc, parts, of, empty)?,
        TypeBody::Complex(complex) => complex_proto(alloc, counts, of, &complex.wild, empty)?,
        TypeBody::Ur => any_proto(alloc, empty)?,
    };
    Ok(proto)
}

/// The same, of one type alone.
///
/// # Errors
///
/// The fault `TooLarge` at the type's event, exactly where its grammar has more than [`exi_counts::MOST_STATES`] states.
/// `Memory` as for [`type_proto`].
pub fn proto_of_type(
    alloc: Global,
    parts: &Components,
    of: u32,
    empty: bool,
) -> Result<Proto, SchemaStop>
    requires exists { of < length parts.now.types }
    ensures made { DraftsOf result parts.now of empty }
    ensures inside { IfOk result (λ proto. LeadsInside (draft_of proto)) }
{
    let elements = Elements::of(alloc, parts)?;
    let counts = Counts::of(alloc, &elements)?;
    match type_proto(alloc, &counts, of, empty) {
        Ok(proto) => Ok(proto),
        Err(ProtoStop::TooLarge) => Err(SchemaStop::Fault(SchemaFault {
            kind: SchemaKind::TooLarge,
            event: parts.types()[of as usize].event,
        })),
        Err(ProtoStop::Memory) => Err(SchemaStop::Memory),
    }
}
