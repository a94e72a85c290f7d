ghost use Rattle.std.specs.Prelude.{◌≡◌, false, IfOk, map};
ghost use Rattle.exi_gram.specs.Books.{book_states, tables_of};
ghost use Rattle.exi_gram.specs.Candidates.{FindInAll, FindInStates};
ghost use Rattle.exi_gram.specs.Laws.{codes};
ghost use Rattle.exi_gram.specs.Switches.{conflicts};

use crate::maker::Maker;
use crate::places::Places;
use exi_gram::{Book, CodeTable, CodedState, Globals, Index, Items, Options, Schema};
use std::alloc::{AllocError, Global};

/// The states of all grammars of a schema, as the options leave them, with the places of its names.
fn states_by(
    alloc: Global,
    schema: &Schema,
    options: &Options,
    places: &Places,
) -> Result<Items<Items<CodedState>>, AllocError>
    requires places { places.now ≡ schema.now.names }
    ensures { IfOk result (λ states. states ≡ book_states options.now schema.now) }
{
    let maker = Maker {
        alloc,
        options,
        places,
    };
    maker.all_states(schema)
}

/// The states of all grammars of a schema, as the options leave them.
fn states_for(
    alloc: Global,
    schema: &Schema,
    options: &Options,
) -> Result<Items<Items<CodedState>>, AllocError>
    ensures { IfOk result (λ states. states ≡ book_states options.now schema.now) }
{
    let places = Places::of(alloc, schema.names())?;
    states_by(alloc, schema, options, &places)
}

/// The compiled table of each state.
fn tables_for(alloc: Global, states: &[CodedState]) -> Result<Items<CodeTable>, AllocError>
    ensures { IfOk result (λ tables. tables ≡ map codes states.now) }
{
    let mut tables = Items::new(alloc);
    for state in states {
        tables.push(state.table(alloc)?)?;
    }
    Ok(tables)
}

/// The compiled tables of the states of each grammar.
fn all_tables(
    alloc: Global,
    states: &[Items<CodedState>],
) -> Result<Items<Items<CodeTable>>, AllocError>
    ensures { IfOk result (λ tables. tables ≡ tables_of states.now) }
{
    let mut tables = Items::new(alloc);
    for grammar in states {
        tables.push(tables_for(alloc, grammar.as_slice())?)?;
    }
    Ok(tables)
}

/// The index of each state.
fn indexes_for(alloc: Global, states: &[CodedState]) -> Result<Items<Index>, AllocError>
    ensures { IfOk result (λ indexes. FindInStates indexes states.now) }
{
    let mut indexes = Items::new(alloc);
    for state in states {
        indexes.push(state.index(alloc)?)?;
    }
    Ok(indexes)
}

/// The indexes of the states of each grammar.
fn all_indexes(
    alloc: Global,
    states: &[Items<CodedState>],
) -> Result<Items<Items<Index>>, AllocError>
    ensures { IfOk result (λ indexes. FindInAll indexes states.now) }
{
    let mut indexes = Items::new(alloc);
    for grammar in states {
        indexes.push(indexes_for(alloc, grammar.as_slice())?)?;
    }
    Ok(indexes)
}

/// The book by which a stream of this schema, or without one, is read and written with these options. They
/// may not conflict ([`Options::conflicts`](exi_gram::Options::conflicts)). It takes memory in proportion to
/// the productions of the schema's grammars and to what the schema declares.
///
/// # Errors
///
/// `AllocError` where memory is refused.
pub fn book(alloc: Global, schema: Schema, options: Options) -> Result<Book, AllocError>
    requires no_conflict { conflicts options ≡ false }
    ensures options { IfOk result (λ b. b.options ≡ options) }
    ensures schema { IfOk result (λ b. b.schema ≡ schema) }
    ensures states { IfOk result (λ b. b.states ≡ book_states options schema) }
{
    let states = states_for(alloc, &schema, &options)?;
    let tables = all_tables(alloc, states.as_slice())?;
    let indexes = all_indexes(alloc, states.as_slice())?;
    let globals = Globals::of(alloc, &schema)?;
    Ok(Book::of(options, schema, states, tables, indexes, globals))
}
