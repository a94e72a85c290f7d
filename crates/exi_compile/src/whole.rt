//! The schema of all that is made.

ghost use Rattle.std.specs.Prelude.{◌≡◌, ◌++◌, ◌<◌, ◌^◌, ◌∷◌, [], All, IfOk, Ok, length, map, true};
ghost use Rattle.exi_gram.specs.Terminals.{rules_of};
ghost use Rattle.exi_gram.specs.Wholes.{document, fragment, whole_grammar};
ghost use Rattle.exi_compiled.specs.Compiled.{all_made, outline_of};
ghost use Rattle.exi_compile.specs.Entries.{opened_as};
ghost use Rattle.exi_compile.specs.Makings.{Makes, made_of};
ghost use Rattle.exi_compile.specs.Whole.{AreFew, AreTables, IsMade};
ghost use Rattle.exi_vocabulary.specs.FirstNames.{IsOfSize};

use crate::entries::{attributes, globals, type_entries};
use crate::making::{Making, Source};
use crate::tables::Tables;
use crate::wholes::{document, fragment};
use exi_compiled::laws::compiled_is_schema;
use exi_counts::Counts;
use exi_gram::{ElementEntry, Grammar, Items, Production, Schema};
use exi_names::QName;
use exi_vocabulary::first_names;
use std::alloc::{AllocError, Global};
use xsd_model::{Components, SchemaStop};

/// The most productions of a state, and one more.
const TOO_MANY_PRODUCTIONS: usize = 1 << 30;

/// The grammars of types and elements, and that of a fragment's elements.
pub(crate) fn make_all(
    alloc: Global,
    counts: &Counts<'_>,
    tables: &Tables,
) -> Result<Making, SchemaStop>
    requires size { IsOfSize counts.now }
    requires tables { AreTables counts.now tables.now }
    ensures { IsMade result (all_made counts.now) }
{
    let parts = counts.elements().parts();
    let source = Source {
        parts,
        counts,
        grammars: tables.grammars.as_slice(),
        otherwise: tables.otherwise,
        casts: tables.casts.as_slice(),
    };
    let mut making = Making::new(alloc);
    making.add_items(alloc, &source, tables.items.as_slice())?;
    making.add_fragment(alloc, parts, tables.named.as_slice())?;
    Ok(making)
}

/// Whether no state of a grammar has too many productions.
fn has_few(states: &[Items<Production>]) -> bool
    ensures { result ≡ true → All (λ state. length state < 2 ^ 30) states.now }
{
    for state in states {
        if state.as_slice().len() >= TOO_MANY_PRODUCTIONS {
            return false;
        }
    }
    true
}

/// Whether no state of any grammar has.
fn have_few(grammars: &[Grammar]) -> bool
    ensures { result ≡ true → AreFew (map rules_of grammars.now) }
{
    for grammar in grammars {
        if !has_few(grammar.states.as_slice()) {
            return false;
        }
    }
    true
}

/// Document and Fragment, and behind them the others.
fn all_grammars(
    alloc: Global,
    globals: &[ElementEntry],
    named: &[(QName, u32)],
    others: Items<Grammar>,
) -> Result<Items<Grammar>, AllocError>
    ensures { IfOk result (λ all. map rules_of all
        ≡ whole_grammar (document (map opened_as globals.now)) ∷ whole_grammar (fragment named.now) ∷ map rules_of others) }
{
    let mut grammars = Items::new(alloc);
    grammars.push(document(alloc, globals)?)?;
    grammars.push(fragment(alloc, named)?)?;
    for grammar in others.into_vec() {
        grammars.push(grammar)?;
    }
    Ok(grammars)
}

/// The schema of what is made.
pub(crate) fn schema(
    alloc: Global,
    parts: &Components,
    tables: Tables,
    making: Making,
) -> Result<Schema, AllocError>
    requires size { IsOfSize parts.now }
    requires tables { AreTables parts.now tables }
    requires made { all_made parts.now ≡ Ok (made_of making) }
    ensures { IfOk result (λ s. s ≡ outline_of parts.now (made_of making)) }
{
    let globals = globals(alloc, parts, tables.grammars.as_slice())?;
    let types = type_entries(
        alloc,
        parts,
        tables.types.as_slice(),
        tables.casts.as_slice(),
    )?;
    let attributes = attributes(alloc, parts)?;
    let names = first_names(alloc, parts)?;
    let grammars = all_grammars(
        alloc,
        globals.as_slice(),
        tables.named.as_slice(),
        making.grammars,
    )?;
    if !have_few(grammars.as_slice()) {
        return Err(AllocError);
    }
    compiled_is_schema();
    Ok(Schema::of(
        true,
        grammars,
        globals,
        tables.named,
        attributes,
        types,
        names,
    ))
}
