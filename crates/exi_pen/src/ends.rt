ghost use Rattle.std.specs.Prelude.{◌≡◌, ◌<◌, ◌%◌, [], true, IfOk, OnOk, length};
ghost use Rattle.exi_bits.specs.Written.{IsWholeBytes};
ghost use Rattle.exi_builtin.specs.Learning.{nothing_learned};
ghost use Rattle.exi_gram.specs.Switches.{align_of};
ghost use Rattle.exi_meter.specs.Metering.{IsWithinStream, tally_fits};
ghost use Rattle.exi_names.specs.StartTables.{IsStart};
ghost use Rattle.exi_processing.specs.Changes.{innermost, texts_of};
ghost use Rattle.exi_processing.specs.Configurations.{IsSetting, first_tables};
ghost use Rattle.exi_processing.specs.Handing.{HasLevels, alone_of};
ghost use Rattle.exi_tables.specs.Partitions.{IsName};
ghost use Rattle.exi_pen.specs.Pages.{StartsAt, ended_page, first_page, fragment_page, refused_page, resumed_page, spliced_page};

use crate::pen::Pen;
use exi_bits::BitOut;
use exi_builtin::{LookUp, Overlay};
use exi_gram::Book;
use exi_meter::{Limits, Meter, Tally};
use exi_names::{NameId, NameRef, QName};
use exi_processing::{
    Alone, Aside, Asides, Elements, Outer, Spare, Start, first_outer, first_tables, tables_at_start,
};
use exi_tables::Tables;
use exi_toll::PutStop;
use std::alloc::{AllocError, Global};
use std::mem;

/// The name of an element, in memory of its own.
pub fn copy_name<T: Tables>(tables: &T, name: NameId) -> Result<QName, AllocError>
    requires name { IsName (T.held tables.now) name }
    ensures { IfOk result (λ n. n ≡ texts_of (T.held tables.now) name) }
{
    let uri = tables.uri_at(name.uri).unwrap();
    let local = tables.local_at(name.uri, name.local).unwrap();
    NameRef {
        uri,
        local,
        prefix: None,
    }
    .copy()
}

impl<'a, T: Tables + Drop> Pen<'a, T> {
    /// Where a body or a fragment begins, behind these bits.
    pub fn new(
        alloc: Global,
        book: &'a Book,
        limits: Limits,
        start: Start,
        head: BitOut,
    ) -> Result<Pen<'a, T>, AllocError>
        requires place { StartsAt start (length head) }
        requires aligned { IsWholeBytes (align_of book.now.options) head }
        ensures first { IfOk result (λ p. p ≡ first_page book.now start limits head) }
        ensures within { IfOk result (λ p. IsWithinStream limits) }
        ensures setting { IfOk result (λ p. IsSetting book.now) }
        ensures names { IfOk result (λ p. IsStart book.now.schema.names) }
    {
        let first = first_tables(alloc, book)?;
        Ok(Pen {
            alloc,
            book,
            start,
            out: head,
            meter: Meter::new(limits),
            tables: tables_at_start(alloc, book, &first)?,
            elements: Elements::new(alloc),
            outer: first_outer(book.schema().is_known(), book.options(), start),
            overlay: Overlay::new(alloc, LookUp::ByName),
            after_start: false,
            root: None,
            aside: Asides::new(alloc),
            first,
            spare: None,
        })
    }

    /// Behind ED: the end, or behind a fragment its outer body, whose element has ended too.
    pub fn end(&mut self, alone: Alone)
        requires levels { HasLevels self.old.config }
        ensures { self.new ≡ ended_page (alone_of alone) self.old }
    {
        if alone.is_event() {
            self.outer = Outer::Ended;
            return;
        }
        self.out.pad();
        match self.aside.pop() {
            None => self.outer = Outer::Ended,
            Some(body) => self.resume(body),
        }
    }

    /// Behind a refusal it stands where nothing has ended, so that no bits are given out. An event for which no production
    /// stands charges nothing: what was charged before it is what is charged.
    #[cold]
    pub fn give_up(&mut self, stop: PutStop, before: Meter)
        ensures { self.new ≡ refused_page stop before self.old }
    {
        self.outer = Outer::AloneStart;
        match stop {
            PutStop::NotDerived => self.meter = before,
            PutStop::Limit(_) | PutStop::Memory => {}
        }
    }

    /// Takes a body up again that was put aside.
    fn resume(&mut self, body: Aside<T>)
        requires level { 0 < self.old.config.meter.level }
        ensures { self.new ≡ resumed_page body self.old }
    {
        let (tables, overlay, elements, outer) = body.into_parts();
        self.meter.leave();
        let tables = mem::replace(&mut self.tables, tables);
        let overlay = mem::replace(&mut self.overlay, overlay);
        let elements = mem::replace(&mut self.elements, elements);
        self.outer = outer;
        self.spare = Some(Spare::of(tables, overlay, elements));
    }

    /// String tables, learned grammars and open elements as a fragment begins with them, in the room that the last one left.
    fn fresh(&mut self) -> Result<(T, Overlay, Elements), AllocError>
        ensures tables { IfOk result (λ parts. T.held parts.0 ≡ first_tables self.old.setting) }
        ensures learned { IfOk result (λ parts. parts.1 ≡ nothing_learned) }
        ensures elements { IfOk result (λ parts. parts.2 ≡ []) }
        ensures same { self.new ≡ self.old }
    {
        match self.spare.take() {
            Some(spare) => spare.into_parts(self.book, &self.first),
            None => Ok((
                tables_at_start(self.alloc, self.book, &self.first)?,
                Overlay::new(self.alloc, LookUp::ByName),
                Elements::new(self.alloc),
            )),
        }
    }

    /// Puts the body aside, and stands in the fragment that begins here.
    pub fn put_aside(&mut self) -> Result<(), AllocError>
        requires name { IsName self.old.config.tables (innermost self.old.config.elements) }
        ensures { OnOk result (self.new ≡ fragment_page self.old) }
    {
        let (tables, overlay, elements) = self.fresh()?;
        let tables = mem::replace(&mut self.tables, tables);
        let overlay = mem::replace(&mut self.overlay, overlay);
        let elements = mem::replace(&mut self.elements, elements);
        let body = Aside::new(tables, overlay, elements, self.outer);
        self.outer = Outer::AloneStart;
        self.aside.push(body)
    }

    /// Takes the bits of a fragment that was written apart, and what it charged: the innermost element has ended.
    pub fn splice(&mut self, bits: &BitOut, tally: &Tally) -> Result<(), AllocError>
        requires whole { length bits.now % 8 ≡ 0 }
        requires fitting { tally_fits self.old.config.meter tally.now ≡ true }
        requires level { 0 < self.old.config.meter.level }
        ensures { OnOk result (self.new ≡ spliced_page bits.now tally.now self.old) }
    {
        self.out.append(bits)?;
        self.meter.add(tally);
        self.meter.leave();
        self.elements.close();
        self.after_start = false;
        Ok(())
    }
}
