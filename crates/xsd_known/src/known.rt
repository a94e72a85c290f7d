ghost use Rattle.std.specs.Prelude.{◌≤◌, ◌^◌, length, map};
ghost use Rattle.exi_names.specs.Events.{happens};
ghost use Rattle.xsd_known.specs.Promises.{Knows};

use exi_compile::compile;
use exi_gram::Schema;
use exi_names::Event;
use std::alloc::Global;
use xsd_model::{Components, SchemaStop};
use xsd_schema::components;

/// What a schema document makes known.
#[derive(Debug, Drop)]
pub struct KnownSchema {
    /// What it declares.
    pub components: Components,
    /// The grammars that this becomes.
    pub schema: Schema,
}

/// What the schema document of these events makes known.
///
/// # Errors
///
/// The first fault of the document, or else `TooLarge` or `TypesDiffer` at the first type or element at which it shows.
/// `Memory` where memory is refused.
pub fn schema_of(alloc: Global, events: &[Event]) -> Result<KnownSchema, SchemaStop>
    requires few { length events.now ≤ 2 ^ 28 }
    ensures { Knows result (map happens events.now) }
{
    let components = components(alloc, events)?;
    let schema = compile(alloc, &components)?;
    Ok(KnownSchema { components, schema })
}
