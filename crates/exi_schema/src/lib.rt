//! The grammars of schemas (EXI 1.0, sections 8.4 and 8.5); here where there is no schema.
#![tactic(auto)]

ghost use Rattle.std.specs.Prelude.{◌≡◌, [], IfOk};
ghost use Rattle.exi_gram.specs.Terminals.{rules_of};
ghost use Rattle.exi_gram.specs.Wholes.{document, whole_grammar, without_schema};

use exi_gram::{Grammar, Items, Schema, document};
use exi_names::StartNames;
use std::alloc::{AllocError, Global};

/// The grammar of a document without a schema (EXI 1.0, section 8.4.1).
fn document_grammar(alloc: Global) -> Result<Grammar, AllocError>
    ensures { IfOk result (λ g. rules_of g ≡ whole_grammar (document [])) }
{
    let coded = document(alloc)?;
    let mut states = Items::new(alloc);
    for state in coded.as_slice() {
        states.push(state.productions(alloc)?)?;
    }
    Ok(Grammar { states, content: 0 })
}

/// What there is without a schema: the Document grammar alone, and the first string tables (EXI 1.0,
/// section 8.4.1 and appendix D).
///
/// # Errors
///
/// `AllocError` where memory is refused.
pub fn no_schema(alloc: Global) -> Result<Schema, AllocError>
    ensures { IfOk result (λ s. s ≡ without_schema) }
{
    let mut grammars = Items::new(alloc);
    grammars.push(document_grammar(alloc)?)?;
    Ok(Schema::of(
        false,
        grammars,
        Items::new(alloc),
        Items::new(alloc),
        Items::new(alloc),
        Items::new(alloc),
        StartNames::without_schema(alloc)?,
    ))
}
