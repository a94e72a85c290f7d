//! A schema by its grammars: what its components become (EXI 1.0, section 8.5).
//!
//! ```text
//! grammars   0 Document   1 Fragment   then of each type and element, in the order of the document, its grammar and
//!            directly behind it the empty form   last, where an element is declared, those of a fragment's elements
//! ```
#![tactic(auto)]

mod bases;
mod casts;
mod elements;
mod entries;
mod fragment;
mod making;
mod opened;
mod order;
mod pair;
mod production;
mod size;
mod tables;
mod whole;
mod wholes;

ghost use Rattle.exi_compile.specs.Promises.{Compiles};

use crate::size::is_of_size;
use crate::tables::Tables;
use crate::whole::{make_all, schema};
use exi_counts::Counts;
use exi_elements::Elements;
use exi_gram::Schema;
use std::alloc::Global;
use xsd_model::{Components, SchemaStop};

/// The grammars, names and string tables of a schema with these components.
///
/// # Errors
///
/// The fault `TooLarge` or `TypesDiffer` at the first type or element, in the order of the document, at which it shows: its
/// grammar has more than [`exi_counts::MOST_STATES`] states before it is normal, or with the normal grammars so far; or elements
/// of one name in one state open different grammars. `Memory` where memory is refused; where more than 64 lists lie in one another,
/// or a content has 2^32 - 1 particles or more that are told apart; where elements, attributes and types, each counted once for
/// its name and once for its URI, and the URIs that wildcards list are more than 2^28 together; where types and the types of
/// elements have more than 2^24 bases together, counted for each of them; or where a state has 2^30 productions or more.
pub fn compile(alloc: Global, parts: &Components) -> Result<Schema, SchemaStop>
    ensures { Compiles result parts.now }
{
    if !is_of_size(parts) {
        return Err(SchemaStop::Memory);
    }
    let elements = Elements::of(alloc, parts)?;
    let counts = Counts::of(alloc, &elements)?;
    let tables = Tables::of(alloc, &elements)?;
    let making = make_all(alloc, &counts, &tables)?;
    Ok(schema(alloc, parts, tables, making)?)
}
