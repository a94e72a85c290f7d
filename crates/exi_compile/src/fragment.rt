//! The grammar of a fragment's elements whose declarations differ (EXI 1.0, section 8.5.3).

ghost use Rattle.std.specs.Prelude.{◌≡◌, ◌++◌, [], ◌∷◌, IfOk, OnOk, false, length, map, get_or};
ghost use Rattle.std.specs.List.{flat_map};
ghost use Rattle.exi_gram.specs.Terminals.{rule, rules_of};
ghost use Rattle.exi_compiled.specs.FragmentGrammar.{attribute_rule, attribute_rules, element_fragment, element_rules, empty_fragment, fragment_content};
ghost use Rattle.exi_compile.specs.Fragments.{attribute_at};
ghost use Rattle.exi_compile.specs.Tables.{Tells};
ghost use Rattle.exi_vocabulary.specs.FirstNames.{IsOfSize};
ghost use Rattle.exi_vocabulary.specs.Vocabulary.{all_of_type};

use crate::production::plain;
use crate::wholes::push_named;
use exi_gram::{Grammar, Items, Production, Terminal};
use exi_names::{Datatype, QName};
use exi_proto::datatype_of;
use exi_vocabulary::{agreeing_attributes, attribute_names};
use std::alloc::{AllocError, Global};
use xsd_model::{AttributeDecl, Components};

/// AT of an attribute, typed where all of its name have its type.
fn attribute(
    alloc: Global,
    parts: &Components,
    attribute: &AttributeDecl,
    agrees: bool,
) -> Result<Production, AllocError>
    ensures { IfOk result (λ p. rule p ≡ attribute_at parts.now attribute.now agrees) }
{
    let datatype = if agrees {
        datatype_of(alloc, parts, attribute.of)?
    } else {
        Datatype::Text
    };
    Ok(plain(Terminal::At(attribute.name.copy()?, datatype), 0))
}

/// Adds AT of the attribute at a place, where there is one.
fn push_attribute(
    alloc: Global,
    state: &mut Items<Production>,
    parts: &Components,
    agree: &[bool],
    place: u32,
) -> Result<(), AllocError>
    requires agree { agree.now ≡ map (λ a. all_of_type a parts.now.attributes) parts.now.attributes }
    ensures { OnOk result (map rule state.new ≡ map rule state.old ++ attribute_rule parts.now place) }
{
    let index = place as usize;
    let attributes = parts.attributes();
    if index < attributes.len() && index < agree.len() {
        state.push(attribute(alloc, parts, &attributes[index], agree[index])?)?;
    }
    Ok(())
}

/// AT of each name that is declared anywhere.
fn attributes(alloc: Global, parts: &Components) -> Result<Items<Production>, AllocError>
    requires size { IsOfSize parts.now }
    ensures { IfOk result (λ state. map rule state ≡ attribute_rules parts.now) }
{
    let agree = agreeing_attributes(alloc, parts)?;
    let mut state = Items::new(alloc);
    for place in attribute_names(alloc, parts)?.as_slice() {
        push_attribute(alloc, &mut state, parts, agree.as_slice(), *place)?;
    }
    Ok(state)
}

/// Adds the elements of the names declared anywhere, or any; the end; and text.
fn push_content(
    state: &mut Items<Production>,
    at: u32,
    named: &[(QName, u32)],
) -> Result<(), AllocError>
    ensures { OnOk result (map rule state.new ≡ map rule state.old ++ fragment_content at named.now) }
{
    push_named(state, 1, named)?;
    state.push(plain(Terminal::SeAny, 1))?;
    state.push(plain(Terminal::Ee, at))?;
    state.push(plain(Terminal::ChText, 1))?;
    Ok(())
}

/// The grammar of an element of which only the name is known.
pub(crate) fn element_fragment(
    alloc: Global,
    parts: &Components,
    named: &[(QName, u32)],
) -> Result<Grammar, AllocError>
    requires size { IsOfSize parts.now }
    ensures { IfOk result (λ g. rules_of g ≡ element_fragment parts.now named.now) }
{
    let mut start = attributes(alloc, parts)?;
    start.push(plain(Terminal::AtAny, 0))?;
    push_content(&mut start, 0, named)?;
    let mut content = Items::new(alloc);
    push_content(&mut content, 1, named)?;
    let mut states = Items::new(alloc);
    states.push(start)?;
    states.push(content)?;
    Ok(Grammar { states, content: 1 })
}

/// Its empty form.
pub(crate) fn empty_fragment(alloc: Global, parts: &Components) -> Result<Grammar, AllocError>
    requires size { IsOfSize parts.now }
    ensures { IfOk result (λ g. rules_of g ≡ empty_fragment parts.now) }
{
    let mut start = attributes(alloc, parts)?;
    start.push(plain(Terminal::AtAny, 0))?;
    start.push(plain(Terminal::Ee, 0))?;
    let mut content = Items::new(alloc);
    content.push(plain(Terminal::Ee, 1))?;
    let mut states = Items::new(alloc);
    states.push(start)?;
    states.push(content)?;
    Ok(Grammar { states, content: 1 })
}
