//! The grammars of types and elements, one after another.

ghost use Rattle.std.specs.Prelude.{◌≡◌, ◌+◌, ◌++◌, [], ◌∷◌, All, IfOk, OnOk, length, map};
ghost use Rattle.exi_gram.specs.Terminals.{rules_of};
ghost use Rattle.xsd_model.specs.declared.fault.SchemaStop.TheVariants as stop;
ghost use Rattle.exi_compiled.specs.Compiled.{elements_of, fault_at, is_nillable, item_event, item_type, with_fragment, with_item, with_items};
ghost use Rattle.exi_compile.specs.Makings.{IsItem, IsSource, Makes, made_of, with_pair};
ghost use Rattle.exi_compile.specs.Order.{item as shown};
ghost use Rattle.exi_vocabulary.specs.FirstNames.{IsOfSize};

use crate::fragment::{element_fragment, empty_fragment};
use crate::opened::{add_instance, open_all};
use crate::order::Item;
use crate::pair::{Pair, make_pair, state_count};
use exi_counts::{Counts, MOST_STATES};
use exi_gram::{Grammar, Items};
use exi_names::QName;
use exi_normal::NormalStop;
use std::alloc::{AllocError, Global};
use xsd_model::{Components, SchemaFault, SchemaKind, SchemaStop};

/// What is made so far: the grammars, each before its empty form.
#[derive(Debug, Drop)]
pub(crate) struct Making {
    /// How many states all of them have.
    pub(crate) total: u32,
    /// The grammars.
    pub(crate) grammars: Items<Grammar>,
}

/// What grammars are made of.
#[derive(Debug, Drop)]
pub(crate) struct Source<'a> {
    /// The components.
    pub(crate) parts: &'a Components,
    /// The counts of their states.
    pub(crate) counts: &'a Counts<'a>,
    /// Of each element where the grammar stands that it opens.
    pub(crate) grammars: &'a [u32],
    /// Where that of a fragment's elements stands.
    pub(crate) otherwise: u32,
    /// Of each type whether another can be put in its place.
    pub(crate) casts: &'a [bool],
}

/// The place of an item's type.
pub(crate) fn type_of(parts: &Components, item: Item) -> u32
    ensures { result ≡ item_type parts.now (shown item) }
{
    match item {
        Item::Type(place) => place,
        Item::Element(place) => match parts.elements().get(place as usize) {
            Some(element) => element.of,
            None => 0,
        },
    }
}

/// The event at which an item starts.
fn event_of(parts: &Components, item: Item) -> u64
    ensures { result ≡ item_event parts.now (shown item) }
{
    match item {
        Item::Type(place) => match parts.types().get(place as usize) {
            Some(of) => of.event,
            None => 0,
        },
        Item::Element(place) => match parts.elements().get(place as usize) {
            Some(element) => element.event,
            None => 0,
        },
    }
}

/// Whether `xsi:nil` can empty an item.
fn is_nillable(parts: &Components, item: Item) -> bool
    ensures { result ≡ is_nillable parts.now (shown item) }
{
    match item {
        Item::Type(_) => false,
        Item::Element(place) => match parts.elements().get(place as usize) {
            Some(element) => element.nillable,
            None => false,
        },
    }
}

/// The fault at an event.
fn fault(kind: SchemaKind, event: u64) -> SchemaStop
    ensures { result ≡ stop.Fault (fault_at kind event) }
{
    SchemaStop::Fault(SchemaFault { kind, event })
}

/// The states of both grammars with those before them; so many that 32 bits do not tell them would find no memory.
fn with_states(total: u32, pair: &Pair) -> Result<u32, AllocError>
    ensures { IfOk result (λ n. n ≡ total + (length pair.now.full.states + length pair.now.empty.states)) }
{
    let full = state_count(&pair.full)?;
    let empty = state_count(&pair.empty)?;
    match full.checked_add(empty) {
        Some(both) => match total.checked_add(both) {
            Some(all) => Ok(all),
            None => Err(AllocError),
        },
        None => Err(AllocError),
    }
}

impl Making {
    /// Nothing yet.
    pub(crate) fn new(alloc: Global) -> Making
        ensures { made_of result ≡ record { total = 0; grammars = [] } }
    {
        Making {
            total: 0,
            grammars: Items::new(alloc),
        }
    }

    /// Adds a grammar before its empty form.
    fn add(&mut self, total: u32, pair: Pair) -> Result<(), AllocError>
        ensures { OnOk result (made_of self.new
            ≡ record { total = total; grammars = map rules_of self.old.grammars ++ rules_of pair.full ∷ rules_of pair.empty ∷ [] }) }
    {
        self.grammars.push(pair.full)?;
        self.grammars.push(pair.empty)?;
        self.total = total;
        Ok(())
    }

    /// Adds the grammar of an item and its empty form, as they were made of its type.
    fn add_pair(&mut self, source: &Source<'_>, item: Item, made: Pair) -> Result<(), AllocError>
        requires source { IsSource source.now }
        requires there { IsItem source.now.parts.now (shown item) }
        ensures { OnOk result (made_of self.new ≡ with_pair source.now.parts.now (shown item) (made_of self.old) (rules_of made.full) (rules_of made.empty)) }
    {
        let total = with_states(self.total, &made)?;
        let mut pair = made;
        open_all(&mut pair.full, source.grammars, source.otherwise);
        open_all(&mut pair.empty, source.grammars, source.otherwise);
        let cast = source.casts[type_of(source.parts, item) as usize];
        add_instance(&mut pair.full, cast, is_nillable(source.parts, item))?;
        self.add(total, pair)?;
        Ok(())
    }

    /// Makes the grammars of an item, and adds them.
    fn add_item(&mut self, alloc: Global, source: &Source<'_>, item: Item) -> Result<(), SchemaStop>
        requires source { IsSource source.now }
        requires there { IsItem source.now.parts.now (shown item) }
        ensures { Makes result (made_of self.new) (with_item source.now.parts.now (shown item) (made_of self.old)) }
    {
        let event = event_of(source.parts, item);
        match make_pair(
            alloc,
            source.counts,
            type_of(source.parts, item),
            self.total,
        ) {
            Ok(pair) => {
                self.add_pair(source, item, pair)?;
                Ok(())
            }
            Err(NormalStop::TooLarge) => Err(fault(SchemaKind::TooLarge, event)),
            Err(NormalStop::Differ) => Err(fault(SchemaKind::TypesDiffer, event)),
            Err(NormalStop::Memory) => Err(SchemaStop::Memory),
        }
    }

    /// Makes and adds the grammars of items, one after another.
    pub(crate) fn add_items(
        &mut self,
        alloc: Global,
        source: &Source<'_>,
        items: &[Item],
    ) -> Result<(), SchemaStop>
        requires source { IsSource source.now }
        requires there { All (IsItem source.now.parts.now) (map shown items.now) }
        ensures { Makes result (made_of self.new) (with_items source.now.parts.now (map shown items.now) (made_of self.old)) }
    {
        for item in items {
            self.add_item(alloc, source, *item)?;
        }
        Ok(())
    }

    /// Adds the grammar of a fragment's elements, where an element is declared.
    pub(crate) fn add_fragment(
        &mut self,
        alloc: Global,
        parts: &Components,
        named: &[(QName, u32)],
    ) -> Result<(), SchemaStop>
        requires size { IsOfSize parts.now }
        requires named { named.now ≡ elements_of parts.now }
        ensures { Makes result (made_of self.new) (with_fragment parts.now parts.now.elements (made_of self.old)) }
    {
        let Some(first) = parts.elements().first() else {
            return Ok(());
        };
        if self.total > MOST_STATES - 4 {
            return Err(fault(SchemaKind::TooLarge, first.event));
        }
        let mut full = element_fragment(alloc, parts, named)?;
        add_instance(&mut full, true, true)?;
        let empty = empty_fragment(alloc, parts)?;
        self.add(self.total + 4, Pair { full, empty })?;
        Ok(())
    }
}
