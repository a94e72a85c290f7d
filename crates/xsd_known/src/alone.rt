//! The types of XML Schema alone.

ghost use Rattle.std.specs.Prelude.{◌≡◌, IfOk};
ghost use Rattle.exi_names.specs.Lists.{events_of};
ghost use Rattle.xsd_known.specs.Alone.{bare_document, root_name, types_alone};

use crate::known::schema_of;
use exi_gram::Schema;
use exi_names::{Event, EventList, QName, Txt};
use exi_schema::no_schema;
use std::alloc::{AllocError, Global};
use xsd_model::SchemaStop;

/// The name of the root of a schema document.
fn root_name(alloc: Global) -> Result<QName, AllocError>
    ensures { IfOk result (λ n. n ≡ root_name) }
{
    Ok(QName {
        uri: Txt::of(alloc, "http://www.w3.org/2001/XMLSchema")?,
        local: Txt::of(alloc, "schema")?,
        prefix: None,
    })
}

/// The document that declares nothing.
fn bare_document(alloc: Global) -> Result<EventList, AllocError>
    ensures { IfOk result (λ events. events_of events ≡ bare_document) }
{
    let mut events = EventList::new(alloc);
    events.add(Event::Sd)?;
    events.add(Event::Se(root_name(alloc)?))?;
    events.add(Event::Ee)?;
    events.add(Event::Ed)?;
    Ok(events)
}

/// The grammars of the types of XML Schema, which a stream goes by that names them by an empty schemaId.
///
/// # Errors
///
/// `AllocError` where memory is refused.
pub fn types_alone(alloc: Global) -> Result<Schema, AllocError>
    ensures { IfOk result (λ s. s ≡ types_alone) }
{
    let document = bare_document(alloc)?;
    match schema_of(alloc, document.as_slice()) {
        Ok(known) => Ok(known.schema),
        Err(SchemaStop::Fault(_)) => no_schema(alloc),
        Err(SchemaStop::Memory) => Err(AllocError),
    }
}
