//! How many components of a schema have names that the whole schema knows.

ghost use Rattle.std.specs.Prelude.{◌≡◌, drop, filter, length};
ghost use Rattle.xsd_file.specs.Counts.{attributes_counted, elements_counted, has_name, types_counted};
ghost use Rattle.xsd_known.specs.Words.{as_told};

use xsd_model::{Components, TypeDef};

/// How many elements stand directly in the schema.
pub fn elements_counted(components: &Components) -> usize
    ensures { result ≡ elements_counted (as_told components.now) }
{
    components.elements().iter().filter(|e| e.global).count()
}

/// How many attributes stand directly in the schema.
pub fn attributes_counted(components: &Components) -> usize
    ensures { result ≡ attributes_counted (as_told components.now) }
{
    components.attributes().iter().filter(|a| a.global).count()
}

/// Whether a type has a name.
fn has_name(of: &TypeDef) -> bool
    ensures { result ≡ has_name of.now }
{
    of.name.is_some()
}

/// How many of these types have a name.
fn named(types: &[TypeDef]) -> usize
    ensures { result ≡ length (filter has_name types.now) }
{
    let mut count = 0;
    for place in 0..types.len() {
        if has_name(&types[place]) {
            count += 1;
        }
    }
    count
}

/// The types of the document, behind the 46 built-in ones.
fn behind_built_in(types: &[TypeDef]) -> &[TypeDef]
    ensures { result.now ≡ drop 46 types.now }
{
    if types.len() < 46 {
        &[]
    } else {
        types.split_at(46).1
    }
}

/// How many types of the schema have a name.
pub fn types_counted(components: &Components) -> usize
    ensures { result ≡ types_counted (as_told components.now) }
{
    named(behind_built_in(components.types()))
}
