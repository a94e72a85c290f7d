//! The components of a document by their names.

ghost use Rattle.std.specs.Prelude.{◌≡◌, [], ◌∷◌, ◌≤◌, ◌^◌, IfOk, OnOk, length};
ghost use Rattle.xsd_components.specs.Globals.{AreFirsts, AreMore, IsPut, first_declared, found, global_at};
ghost use Rattle.xsd_names.specs.Names.{same_name};

use crate::schema::Global;
use exi_gram::Items;
use exi_names::{QName, Txt};
use indexmap::IndexMap;
use std::alloc::{AllocError, Global as Memory};
use xsd_names::own_name;
use xsd_nodes::{Part, is_among_at, is_global, part_at};
use xsd_tree::Node;

/// Whether both have the same namespace and local name.
fn same_name(name: &QName, other: &QName) -> bool
    ensures { result ≡ same_name name.now other.now }
{
    name.uri.same(&other.uri) && name.local.same(&other.local)
}

/// The place of the first of these components that is of one of these parts and has this name.
fn first_declared(nodes: &[Node], globals: &[Global], kind: &[Part], name: &QName) -> Option<u32>
    ensures { result ≡ first_declared nodes.now kind.now name.now globals.now }
{
    for global in globals {
        if is_among_at(nodes, kind, global.place) && same_name(name, &global.name) {
            return Some(global.place);
        }
    }
    None
}

/// The place of the first component of these parts and this name.
pub(crate) fn find(
    nodes: &[Node],
    firsts: &IndexMap<Txt, Items<Global>>,
    kind: &[Part],
    name: &QName,
) -> Option<u32>
    ensures { result ≡ found nodes.now firsts.now.entries kind.now name.now }
{
    match firsts.get(&name.local) {
        Some(globals) => first_declared(nodes, globals.as_slice(), kind, name),
        None => None,
    }
}

/// Adds a component to those of its local name.
fn put(
    alloc: Memory,
    firsts: &mut IndexMap<Txt, Items<Global>>,
    global: Global,
) -> Result<(), AllocError>
    ensures { OnOk result (IsPut firsts.old.entries firsts.new.entries global) }
{
    if let Some(globals) = firsts.get_mut(&global.name.local) {
        globals.push(global)?;
        return Ok(());
    }
    let local = global.name.local.copy()?;
    let mut globals = Items::new(alloc);
    globals.push(global)?;
    firsts.insert(local, globals)?;
    Ok(())
}

/// Adds a component, where none before it is of the same part and name. So there are never more of one name than there are
/// parts, and of each part the first is found.
fn add(
    alloc: Memory,
    nodes: &[Node],
    firsts: &mut IndexMap<Txt, Items<Global>>,
    global: Global,
) -> Result<(), AllocError>
    ensures { OnOk result (AreMore nodes.now firsts.old.entries firsts.new.entries (global ∷ [])) }
{
    let kind = [part_at(nodes, global.place)];
    if find(nodes, firsts, &kind, &global.name).is_some() {
        return Ok(());
    }
    put(alloc, firsts, global)?;
    Ok(())
}

/// Adds the component at a place, where there is one and it has a name.
fn add_at(
    alloc: Memory,
    nodes: &[Node],
    firsts: &mut IndexMap<Txt, Items<Global>>,
    place: u32,
) -> Result<(), AllocError>
    ensures { OnOk result (AreMore nodes.now firsts.old.entries firsts.new.entries (global_at nodes.now place)) }
{
    if is_global(nodes, place) {
        if let Some(name) = own_name(alloc, nodes, place)? {
            add(alloc, nodes, firsts, Global { place, name })?;
        }
    }
    Ok(())
}

/// The components that stand directly within a schema and have a name, by their local names.
pub(crate) fn firsts_of(
    alloc: Memory,
    nodes: &[Node],
) -> Result<IndexMap<Txt, Items<Global>>, AllocError>
    requires few { length nodes.now ≤ 2 ^ 28 }
    ensures { IfOk result (λ m. AreFirsts nodes.now m.entries) }
{
    let mut firsts = IndexMap::new(alloc);
    for place in 0..nodes.len() {
        add_at(alloc, nodes, &mut firsts, place as u32)?;
    }
    Ok(firsts)
}
