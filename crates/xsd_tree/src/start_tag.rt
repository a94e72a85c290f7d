//! What stands behind the start of an element: its attributes and the namespaces that it declares.

ghost use Rattle.std.specs.Prelude.{◌≡◌, ◌++◌, map, IfOk, OnOk};
ghost use Rattle.exi_names.specs.Events.{happens};
ghost use Rattle.exi_names.specs.Seen.{seen};
ghost use Rattle.xsd_tree.specs.StartTags.{attribute, attributes_in, attributes_of, is_in_tag, scope_in, scope_of};

use exi_gram::Items;
use exi_names::{Event, QName, Txt, Val};
use std::alloc::{AllocError, Global};

/// Whether this is an attribute or a namespace declaration.
fn is_in_tag(event: &Event) -> bool
    ensures { result ≡ is_in_tag (happens event.now) }
{
    match event {
        Event::At(..) | Event::Ns { .. } => true,
        Event::Sd
        | Event::Ed
        | Event::Se(_)
        | Event::Ee
        | Event::Ch(_)
        | Event::Sc { .. }
        | Event::Cm(_)
        | Event::Pi { .. }
        | Event::Dt { .. }
        | Event::Er(_) => false,
    }
}

/// Adds an attribute, where its value is a text.
#[tactic(auto, using(crate::proofs::Tags::no_more))]
fn push_text(
    attributes: &mut Items<(QName, Txt)>,
    name: &QName,
    value: &Val,
) -> Result<(), AllocError>
    ensures { OnOk result (attributes.new ≡ attributes.old ++ attribute name.now (seen value.now)) }
{
    match value {
        Val::Text(text) => {
            attributes.push((name.copy()?, text.copy()?))?;
            Ok(())
        }
        Val::Bool { .. }
        | Val::Int(_)
        | Val::Dec { .. }
        | Val::Flo { .. }
        | Val::Mom(_)
        | Val::Bin { .. }
        | Val::Items(_)
        | Val::Name(_) => Ok(()),
    }
}

/// Adds the attribute of an event.
#[tactic(auto, using(crate::proofs::Tags::no_more))]
fn push_attribute(attributes: &mut Items<(QName, Txt)>, event: &Event) -> Result<(), AllocError>
    ensures { OnOk result (attributes.new ≡ attributes.old ++ attributes_in (happens event.now)) }
{
    match event {
        Event::At(name, value) => push_text(attributes, name, value),
        Event::Sd
        | Event::Ed
        | Event::Se(_)
        | Event::Ee
        | Event::Ch(_)
        | Event::Ns { .. }
        | Event::Sc { .. }
        | Event::Cm(_)
        | Event::Pi { .. }
        | Event::Dt { .. }
        | Event::Er(_) => Ok(()),
    }
}

/// Adds the namespace that an event declares.
#[tactic(auto, using(crate::proofs::Tags::no_more))]
fn push_scope(scope: &mut Items<(Txt, Txt)>, event: &Event) -> Result<(), AllocError>
    ensures { OnOk result (scope.new ≡ scope.old ++ scope_in (happens event.now)) }
{
    match event {
        Event::Ns { uri, prefix, .. } => {
            scope.push((prefix.copy()?, uri.copy()?))?;
            Ok(())
        }
        Event::Sd
        | Event::Ed
        | Event::Se(_)
        | Event::Ee
        | Event::At(..)
        | Event::Ch(_)
        | Event::Sc { .. }
        | Event::Cm(_)
        | Event::Pi { .. }
        | Event::Dt { .. }
        | Event::Er(_) => Ok(()),
    }
}

/// The attributes that stand directly behind the start of an element, each with its text.
pub(crate) fn attributes_of(
    alloc: Global,
    events: &[Event],
) -> Result<Items<(QName, Txt)>, AllocError>
    ensures { IfOk result (λ l. l ≡ attributes_of (map happens events.now)) }
{
    let mut attributes = Items::new(alloc);
    for event in events {
        if !is_in_tag(event) {
            return Ok(attributes);
        }
        push_attribute(&mut attributes, event)?;
    }
    Ok(attributes)
}

/// The namespaces that are declared directly behind the start of an element, each as prefix and URI.
pub(crate) fn scope_of(alloc: Global, events: &[Event]) -> Result<Items<(Txt, Txt)>, AllocError>
    ensures { IfOk result (λ l. l ≡ scope_of (map happens events.now)) }
{
    let mut scope = Items::new(alloc);
    for event in events {
        if !is_in_tag(event) {
            return Ok(scope);
        }
        push_scope(&mut scope, event)?;
    }
    Ok(scope)
}
