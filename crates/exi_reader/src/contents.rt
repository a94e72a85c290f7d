ghost use Rattle.std.specs.Prelude.{◌≡◌, ◌≢◌, ◌≤◌, ◌<◌, ◌-◌, ◌^◌, [], Some, true, length, IsErrOf};
ghost use Rattle.exi_names.specs.Datatypes.{represented};
ghost use Rattle.exi_names.specs.Datatypes as datatype;
ghost use Rattle.exi_names.specs.Events.{Rose};
ghost use Rattle.exi_names.specs.Seen as value;
ghost use Rattle.exi_names.specs.Seen.{seen};
ghost use Rattle.exi_tables.specs.Growth.{NoneLonger};
ghost use Rattle.exi_tables.specs.Partitions.{IsName};
ghost use Rattle.exi_values.specs.Stops.{IsRoomy};
ghost use Rattle.exi_processing.specs.Changes.{has_level, innermost, room_in};
ghost use Rattle.exi_processing.specs.Handing.{
  CanLearn,
  IsTold,
  HandsAny,
  OnFault,
  alone_of,
  characters_made,
  leading_to,
  making,
  opening_to,
  telling_of,
  told_apart,
};
ghost use Rattle.exi_processing.specs.Plans.{
  characters_plan,
  comment_plan,
  declaration_plan,
  document_type_plan,
  element_end_plan,
  element_plan,
  end_plan,
  entity_plan,
  instruction_plan,
  nowhere,
  self_contained_plan,
  start_plan,
};

use crate::names::told_name;
use crate::roots::meet_root;
use crate::seen::{see_characters, see_end, see_start, see_text};
use crate::stepper::Stepper;
use crate::texts::{text, typed_value};
use exi_bits::Stop;
use exi_builtin::Learned;
use exi_names::{Datatype, EventOut, EventRef, Moment, MomentKind, Octets, Val, Whole};
use exi_processing::{
    Alone, Halt, Outer, Telling, close, go_to, innermost, learn, learn_name, open, opener,
};
use exi_tables::Tables;
use exi_typed::{StringRead, declaration_texts, name_ref, read_declaration, read_string};
use exi_values::{short_integer, short_moment, short_octets};

impl<'a, T: Tables + Drop> Stepper<'a, T> {
    /// SD.
    #[tactic(auto, unfolding(exi_processing::specs::Handing::making))]
    #[inline(never)]
    pub fn start_document<E: EventOut>(
        &mut self,
        bit: u64,
        alone: Alone,
        to: u32,
        out: &mut E,
    ) -> Result<Option<u64>, Halt>
        ensures hands { HandsAny E.took E.broke result self.new
            (making self.old.bytes bit (start_plan (alone_of alone) (leading_to to)) self.old.config) out.old out.new }
        ensures setting { self.new.setting ≡ self.old.setting }
        ensures bytes { self.new.bytes ≡ self.old.bytes }
        ensures root { OnFault result (self.new.config.root ≡ self.old.config.root) }
        ensures same { E.same out.old out.new }
        ensures later { E.stops out.old ≤ E.stops out.new }
        ensures stopped { IsErrOf result Halt.Stopped → Rose (E.stops out.old) (E.stops out.new) }
    {
        alone.refuse(bit)?;
        self.after_start = false;
        go_to(&mut self.elements, &mut self.outer, to);
        if alone.is_event() {
            out.see(&EventRef::Sd)?;
            return Ok(None);
        }
        Ok(None)
    }

    /// ED.
    #[tactic(auto, unfolding(exi_processing::specs::Handing::making))]
    #[inline(never)]
    pub fn end_document<E: EventOut>(
        &mut self,
        bit: u64,
        alone: Alone,
        out: &mut E,
    ) -> Result<Option<u64>, Halt>
        requires level { self.old.config.aside ≢ [] → 0 < self.old.config.meter.level }
        ensures hands { HandsAny E.took E.broke result self.new
            (making self.old.bytes bit (end_plan (alone_of alone)) self.old.config) out.old out.new }
        ensures setting { self.new.setting ≡ self.old.setting }
        ensures bytes { self.new.bytes ≡ self.old.bytes }
        ensures root { OnFault result (self.new.config.root ≡ self.old.config.root) }
        ensures same { E.same out.old out.new }
        ensures later { E.stops out.old ≤ E.stops out.new }
        ensures stopped { IsErrOf result Halt.Stopped → Rose (E.stops out.old) (E.stops out.new) }
    {
        alone.refuse(bit)?;
        self.after_start = false;
        if alone.is_event() {
            self.outer = Outer::Ended;
            out.see(&EventRef::Ed)?;
            return Ok(None);
        }
        self.input.skip_to_byte();
        match self.aside.pop() {
            None => self.outer = Outer::Ended,
            Some(body) => self.resume(body),
        }
        Ok(None)
    }

    /// SE.
    #[tactic(auto, unfolding(exi_processing::specs::Handing::making))]
    #[inline(always)]
    pub fn element<E: EventOut>(
        &mut self,
        bit: u64,
        alone: Alone,
        telling: Telling,
        to: u32,
        inner: Option<u32>,
        out: &mut E,
    ) -> Result<Option<u64>, Halt>
        requires few { NoneLonger (2 ^ 31 - 2) self.old.config.tables }
        requires known { IsTold telling self.old.config.tables }
        requires learns { CanLearn (room_in self.old.config.elements self.old.config.outer) self.old.config.learned }
        requires grammars { length self.old.config.learned.grammars < 2 ^ 31 }
        ensures hands { HandsAny E.took E.broke result self.new
            (making self.old.bytes bit (element_plan self.old.setting (alone_of alone) self.old.config.aside (telling_of telling) (opening_to to inner)) self.old.config) out.old out.new }
        ensures setting { self.new.setting ≡ self.old.setting }
        ensures bytes { self.new.bytes ≡ self.old.bytes }
        ensures root { OnFault result (self.new.config.root ≡ self.old.config.root) }
        ensures same { E.same out.old out.new }
        ensures later { E.stops out.old ≤ E.stops out.new }
        ensures stopped { IsErrOf result Halt.Stopped → Rose (E.stops out.old) (E.stops out.new) }
    {
        let name = told_name(
            self.alloc,
            self.book,
            &mut self.input,
            telling,
            &mut self.tables,
            &mut self.meter,
        )?;
        let told = name_ref(&self.tables, name);
        meet_root(alone, &self.aside, &mut self.root, told, bit)?;
        let used = Learned::Se(name.id);
        learn_name(&mut self.overlay, &self.elements, self.outer, telling, used)?;
        go_to(&mut self.elements, &mut self.outer, to);
        let inner = opener(self.book, told, inner);
        open(&mut self.overlay, &mut self.elements, name.id, inner)?;
        if alone.is_event() {
            self.after_start = true;
            see_start(told, out)?;
            return Ok(None);
        }
        self.after_start = false;
        Ok(None)
    }

    /// CH, a string.
    #[tactic(auto, unfolding(exi_processing::specs::Handing::making, exi_values::specs::Valued::valued_at, exi_typed::specs::Items::item_at))]
    #[inline(always)]
    pub fn characters<E: EventOut>(
        &mut self,
        bit: u64,
        alone: Alone,
        to: u32,
        out: &mut E,
    ) -> Result<Option<u64>, Halt>
        requires few { NoneLonger (2 ^ 31) self.old.config.tables }
        requires name { IsName self.old.config.tables (innermost self.old.config.elements) }
        requires learns { CanLearn (room_in self.old.config.elements self.old.config.outer) self.old.config.learned }
        ensures hands { HandsAny E.took E.broke result self.new
            (making self.old.bytes bit (characters_plan self.old.setting (alone_of alone) self.old.config.elements datatype.text (leading_to to)) self.old.config) out.old out.new }
        ensures setting { self.new.setting ≡ self.old.setting }
        ensures bytes { self.new.bytes ≡ self.old.bytes }
        ensures root { OnFault result (self.new.config.root ≡ self.old.config.root) }
        ensures same { E.same out.old out.new }
        ensures later { E.stops out.old ≤ E.stops out.new }
        ensures stopped { IsErrOf result Halt.Stopped → Rose (E.stops out.old) (E.stops out.new) }
    {
        let name = innermost(&self.elements);
        let align = self.book.options().align();
        learn(&mut self.overlay, &self.elements, self.outer, Learned::Ch)?;
        self.after_start = false;
        go_to(&mut self.elements, &mut self.outer, to);
        let text = read_string(
            self.alloc,
            &mut self.input,
            None,
            align,
            name,
            &self.tables,
            &mut self.meter,
        )?;
        alone.refuse(bit)?;
        match text {
            StringRead::Stands(text) => see_text(text, out)?,
            StringRead::Missed(text) => {
                see_text(&text, out)?;
                self.tables.add_value(name, text)?;
            }
        }
        Ok(None)
    }

    /// CH, of a datatype.
    #[tactic(auto, unfolding(exi_processing::specs::Handing::making))]
    #[inline(never)]
    pub fn typed_characters<E: EventOut>(
        &mut self,
        bit: u64,
        alone: Alone,
        datatype: &Datatype,
        to: u32,
        out: &mut E,
    ) -> Result<Option<u64>, Halt>
        requires few { NoneLonger (2 ^ 31) self.old.config.tables }
        requires roomy { IsRoomy self.old.config.meter self.old.config.tables }
        requires name { IsName self.old.config.tables (innermost self.old.config.elements) }
        requires learns { CanLearn (room_in self.old.config.elements self.old.config.outer) self.old.config.learned }
        ensures hands { HandsAny E.took E.broke result self.new
            (making self.old.bytes bit (characters_plan self.old.setting (alone_of alone) self.old.config.elements (represented datatype.now) (leading_to to)) self.old.config) out.old out.new }
        ensures setting { self.new.setting ≡ self.old.setting }
        ensures bytes { self.new.bytes ≡ self.old.bytes }
        ensures root { OnFault result (self.new.config.root ≡ self.old.config.root) }
        ensures same { E.same out.old out.new }
        ensures later { E.stops out.old ≤ E.stops out.new }
        ensures stopped { IsErrOf result Halt.Stopped → Rose (E.stops out.old) (E.stops out.new) }
    {
        if let Datatype::Text = datatype {
            return self.characters(bit, alone, to, out);
        }
        let name = innermost(&self.elements);
        learn(&mut self.overlay, &self.elements, self.outer, Learned::Ch)?;
        self.after_start = false;
        go_to(&mut self.elements, &mut self.outer, to);
        let read = typed_value(
            self.alloc,
            self.book,
            &mut self.input,
            datatype,
            name,
            &mut self.tables,
            &mut self.meter,
        );
        // A value is large: it is looked at where it was answered.
        match &read {
            Ok(value) => {
                alone.refuse(bit)?;
                see_characters(value, out)?;
                Ok(None)
            }
            Err(Stop::Fault(fault)) => Err(Halt::Fault(*fault)),
            Err(Stop::Memory) => Err(Halt::Memory),
        }
    }

    /// What is made of the value of characters, once it is read: the state learns from it and goes on, and it is handed
    /// on.
    #[inline(always)]
    fn made_characters<E: EventOut>(
        &mut self,
        value: &Val,
        to: u32,
        out: &mut E,
    ) -> Result<Option<u64>, Halt>
        requires learns { CanLearn (room_in self.old.config.elements self.old.config.outer) self.old.config.learned }
        ensures hands { HandsAny E.took E.broke result self.new (characters_made (seen value.now) to self.old.config) out.old out.new }
        ensures setting { self.new.setting ≡ self.old.setting }
        ensures bytes { self.new.bytes ≡ self.old.bytes }
        ensures root { self.new.config.root ≡ self.old.config.root }
        ensures same { E.same out.old out.new }
        ensures later { E.stops out.old ≤ E.stops out.new }
        ensures stopped { IsErrOf result Halt.Stopped → Rose (E.stops out.old) (E.stops out.new) }
    {
        learn(&mut self.overlay, &self.elements, self.outer, Learned::Ch)?;
        self.after_start = false;
        go_to(&mut self.elements, &mut self.outer, to);
        see_characters(value, out)?;
        Ok(None)
    }

    /// The same of an integer: the room of its value is made here.
    #[inline(always)]
    fn made_integer<E: EventOut>(
        &mut self,
        whole: Whole,
        to: u32,
        out: &mut E,
    ) -> Result<Option<u64>, Halt>
        requires learns { CanLearn (room_in self.old.config.elements self.old.config.outer) self.old.config.learned }
        ensures hands { HandsAny E.took E.broke result self.new (characters_made (value.integer whole) to self.old.config) out.old out.new }
        ensures setting { self.new.setting ≡ self.old.setting }
        ensures bytes { self.new.bytes ≡ self.old.bytes }
        ensures root { self.new.config.root ≡ self.old.config.root }
        ensures same { E.same out.old out.new }
        ensures later { E.stops out.old ≤ E.stops out.new }
        ensures stopped { IsErrOf result Halt.Stopped → Rose (E.stops out.old) (E.stops out.new) }
    {
        let value = Val::Int(whole);
        self.made_characters(&value, to, out)
    }

    /// The same of a date or a time.
    #[inline(always)]
    fn made_moment<E: EventOut>(
        &mut self,
        moment: Moment,
        to: u32,
        out: &mut E,
    ) -> Result<Option<u64>, Halt>
        requires learns { CanLearn (room_in self.old.config.elements self.old.config.outer) self.old.config.learned }
        ensures hands { HandsAny E.took E.broke result self.new (characters_made (value.moment moment) to self.old.config) out.old out.new }
        ensures setting { self.new.setting ≡ self.old.setting }
        ensures bytes { self.new.bytes ≡ self.old.bytes }
        ensures root { self.new.config.root ≡ self.old.config.root }
        ensures same { E.same out.old out.new }
        ensures later { E.stops out.old ≤ E.stops out.new }
        ensures stopped { IsErrOf result Halt.Stopped → Rose (E.stops out.old) (E.stops out.new) }
    {
        let value = Val::Mom(moment);
        self.made_characters(&value, to, out)
    }

    /// The same of octets.
    #[inline(always)]
    fn made_octets<E: EventOut>(
        &mut self,
        hex: bool,
        octets: Octets,
        to: u32,
        out: &mut E,
    ) -> Result<Option<u64>, Halt>
        requires learns { CanLearn (room_in self.old.config.elements self.old.config.outer) self.old.config.learned }
        ensures hands { HandsAny E.took E.broke result self.new (characters_made (value.binary hex octets) to self.old.config) out.old out.new }
        ensures setting { self.new.setting ≡ self.old.setting }
        ensures bytes { self.new.bytes ≡ self.old.bytes }
        ensures root { self.new.config.root ≡ self.old.config.root }
        ensures same { E.same out.old out.new }
        ensures later { E.stops out.old ≤ E.stops out.new }
        ensures stopped { IsErrOf result Halt.Stopped → Rose (E.stops out.old) (E.stops out.new) }
    {
        let value = Val::Bin { hex, octets };
        self.made_characters(&value, to, out)
    }

    /// CH, of a datatype, inside an element: [`typed_characters`](Stepper::typed_characters), with its answer in a room that
    /// is made on this way alone.
    #[inline(always)]
    fn typed_apart<E: EventOut>(
        &mut self,
        bit: u64,
        datatype: &Datatype,
        to: u32,
        out: &mut E,
    ) -> Result<Option<u64>, Halt>
        requires few { NoneLonger (2 ^ 31) self.old.config.tables }
        requires roomy { IsRoomy self.old.config.meter self.old.config.tables }
        requires name { IsName self.old.config.tables (innermost self.old.config.elements) }
        requires learns { CanLearn (room_in self.old.config.elements self.old.config.outer) self.old.config.learned }
        ensures hands { HandsAny E.took E.broke result self.new
            (making self.old.bytes bit (characters_plan self.old.setting nowhere self.old.config.elements (represented datatype.now) (leading_to to)) self.old.config) out.old out.new }
        ensures setting { self.new.setting ≡ self.old.setting }
        ensures bytes { self.new.bytes ≡ self.old.bytes }
        ensures root { OnFault result (self.new.config.root ≡ self.old.config.root) }
        ensures same { E.same out.old out.new }
        ensures later { E.stops out.old ≤ E.stops out.new }
        ensures stopped { IsErrOf result Halt.Stopped → Rose (E.stops out.old) (E.stops out.new) }
    {
        match self.typed_characters(bit, Alone::Nowhere, datatype, to, out) {
            Ok(fragment) => Ok(fragment),
            Err(halt) => Err(halt),
        }
    }

    /// CH, of a datatype that may be one of integers, inside an element: an integer is read without a room for any value.
    #[inline(always)]
    fn integer_inside<E: EventOut>(
        &mut self,
        bit: u64,
        datatype: &Datatype,
        to: u32,
        out: &mut E,
    ) -> Result<Option<u64>, Halt>
        requires few { NoneLonger (2 ^ 31) self.old.config.tables }
        requires roomy { IsRoomy self.old.config.meter self.old.config.tables }
        requires name { IsName self.old.config.tables (innermost self.old.config.elements) }
        requires learns { CanLearn (room_in self.old.config.elements self.old.config.outer) self.old.config.learned }
        ensures hands { HandsAny E.took E.broke result self.new
            (making self.old.bytes bit (characters_plan self.old.setting nowhere self.old.config.elements (represented datatype.now) (leading_to to)) self.old.config) out.old out.new }
        ensures setting { self.new.setting ≡ self.old.setting }
        ensures bytes { self.new.bytes ≡ self.old.bytes }
        ensures root { OnFault result (self.new.config.root ≡ self.old.config.root) }
        ensures same { E.same out.old out.new }
        ensures later { E.stops out.old ≤ E.stops out.new }
        ensures stopped { IsErrOf result Halt.Stopped → Rose (E.stops out.old) (E.stops out.new) }
    {
        let align = self.book.options().align();
        match short_integer(&mut self.input, datatype, align, &mut self.meter) {
            Some(whole) => self.made_integer(whole, to, out),
            None => self.typed_apart(bit, datatype, to, out),
        }
    }

    /// CH, of dates or times of a kind, inside an element: the most frequent one is read without a room for any value.
    #[inline(always)]
    fn moment_inside<E: EventOut>(
        &mut self,
        bit: u64,
        declared: &Datatype,
        kind: MomentKind,
        to: u32,
        out: &mut E,
    ) -> Result<Option<u64>, Halt>
        requires is { represented declared.now ≡ datatype.moment kind }
        requires few { NoneLonger (2 ^ 31) self.old.config.tables }
        requires roomy { IsRoomy self.old.config.meter self.old.config.tables }
        requires name { IsName self.old.config.tables (innermost self.old.config.elements) }
        requires learns { CanLearn (room_in self.old.config.elements self.old.config.outer) self.old.config.learned }
        ensures hands { HandsAny E.took E.broke result self.new
            (making self.old.bytes bit (characters_plan self.old.setting nowhere self.old.config.elements (represented declared.now) (leading_to to)) self.old.config) out.old out.new }
        ensures setting { self.new.setting ≡ self.old.setting }
        ensures bytes { self.new.bytes ≡ self.old.bytes }
        ensures root { OnFault result (self.new.config.root ≡ self.old.config.root) }
        ensures same { E.same out.old out.new }
        ensures later { E.stops out.old ≤ E.stops out.new }
        ensures stopped { IsErrOf result Halt.Stopped → Rose (E.stops out.old) (E.stops out.new) }
    {
        let align = self.book.options().align();
        match short_moment(&mut self.input, kind, align, &mut self.meter) {
            Some(moment) => self.made_moment(moment, to, out),
            None => self.typed_apart(bit, declared, to, out),
        }
    }

    /// CH, of octets, inside an element: few octets are read without a room for any value.
    #[inline(always)]
    fn octets_inside<E: EventOut>(
        &mut self,
        bit: u64,
        declared: &Datatype,
        hex: bool,
        to: u32,
        out: &mut E,
    ) -> Result<Option<u64>, Halt>
        requires is { represented declared.now ≡ datatype.binary hex }
        requires few { NoneLonger (2 ^ 31) self.old.config.tables }
        requires roomy { IsRoomy self.old.config.meter self.old.config.tables }
        requires name { IsName self.old.config.tables (innermost self.old.config.elements) }
        requires learns { CanLearn (room_in self.old.config.elements self.old.config.outer) self.old.config.learned }
        ensures hands { HandsAny E.took E.broke result self.new
            (making self.old.bytes bit (characters_plan self.old.setting nowhere self.old.config.elements (represented declared.now) (leading_to to)) self.old.config) out.old out.new }
        ensures setting { self.new.setting ≡ self.old.setting }
        ensures bytes { self.new.bytes ≡ self.old.bytes }
        ensures root { OnFault result (self.new.config.root ≡ self.old.config.root) }
        ensures same { E.same out.old out.new }
        ensures later { E.stops out.old ≤ E.stops out.new }
        ensures stopped { IsErrOf result Halt.Stopped → Rose (E.stops out.old) (E.stops out.new) }
    {
        match short_octets(self.alloc, &mut self.input, &mut self.meter) {
            Some(octets) => self.made_octets(hex, octets, to, out),
            None => self.typed_apart(bit, declared, to, out),
        }
    }

    /// CH, of a datatype, inside an element: [`typed_characters`](Stepper::typed_characters), on a way of its own for each
    /// datatype that is frequent.
    #[inline(always)]
    fn typed_event<E: EventOut>(
        &mut self,
        bit: u64,
        datatype: &Datatype,
        to: u32,
        out: &mut E,
    ) -> Result<Option<u64>, Halt>
        requires few { NoneLonger (2 ^ 31) self.old.config.tables }
        requires roomy { IsRoomy self.old.config.meter self.old.config.tables }
        requires name { IsName self.old.config.tables (innermost self.old.config.elements) }
        requires learns { CanLearn (room_in self.old.config.elements self.old.config.outer) self.old.config.learned }
        ensures hands { HandsAny E.took E.broke result self.new
            (making self.old.bytes bit (characters_plan self.old.setting nowhere self.old.config.elements (represented datatype.now) (leading_to to)) self.old.config) out.old out.new }
        ensures setting { self.new.setting ≡ self.old.setting }
        ensures bytes { self.new.bytes ≡ self.old.bytes }
        ensures root { OnFault result (self.new.config.root ≡ self.old.config.root) }
        ensures same { E.same out.old out.new }
        ensures later { E.stops out.old ≤ E.stops out.new }
        ensures stopped { IsErrOf result Halt.Stopped → Rose (E.stops out.old) (E.stops out.new) }
    {
        match datatype {
            Datatype::Small { .. } | Datatype::Unsigned | Datatype::Integer => {
                self.integer_inside(bit, datatype, to, out)
            }
            Datatype::Moment(kind) => self.moment_inside(bit, datatype, *kind, to, out),
            Datatype::Binary { hex } => self.octets_inside(bit, datatype, *hex, to, out),
            Datatype::Boolean { .. }
            | Datatype::Decimal
            | Datatype::Float
            | Datatype::List(_)
            | Datatype::Choice { .. }
            | Datatype::Text
            | Datatype::Chars(_)
            | Datatype::Name { .. } => self.typed_apart(bit, datatype, to, out),
        }
    }

    /// The same, apart. It answers whether there is nothing more to tell, and puts what there is in `seldom`: the frequent way
    /// writes no answer.
    #[inline(never)]
    fn typed_inside_apart<E: EventOut>(
        &mut self,
        bit: u64,
        datatype: &Datatype,
        to: u32,
        out: &mut E,
        seldom: &mut Result<Option<u64>, Halt>,
    ) -> bool
        requires few { NoneLonger (2 ^ 31) self.old.config.tables }
        requires roomy { IsRoomy self.old.config.meter self.old.config.tables }
        requires name { IsName self.old.config.tables (innermost self.old.config.elements) }
        requires learns { CanLearn (room_in self.old.config.elements self.old.config.outer) self.old.config.learned }
        ensures hands { HandsAny E.took E.broke (told_apart result seldom.new) self.new
            (making self.old.bytes bit (characters_plan self.old.setting nowhere self.old.config.elements (represented datatype.now) (leading_to to)) self.old.config) out.old out.new }
        ensures setting { self.new.setting ≡ self.old.setting }
        ensures bytes { self.new.bytes ≡ self.old.bytes }
        ensures root { OnFault (told_apart result seldom.new) (self.new.config.root ≡ self.old.config.root) }
        ensures same { E.same out.old out.new }
        ensures later { E.stops out.old ≤ E.stops out.new }
        ensures stopped { IsErrOf (told_apart result seldom.new) Halt.Stopped → Rose (E.stops out.old) (E.stops out.new) }
    {
        match self.typed_event(bit, datatype, to, out) {
            Ok(None) => true,
            Ok(Some(byte)) => {
                *seldom = Ok(Some(byte));
                false
            }
            Err(halt) => {
                *seldom = Err(halt);
                false
            }
        }
    }

    /// CH, of a datatype, inside an element, in a call of its own.
    #[inline(always)]
    pub fn typed_inside<E: EventOut>(
        &mut self,
        bit: u64,
        datatype: &Datatype,
        to: u32,
        out: &mut E,
    ) -> Result<Option<u64>, Halt>
        requires few { NoneLonger (2 ^ 31) self.old.config.tables }
        requires roomy { IsRoomy self.old.config.meter self.old.config.tables }
        requires name { IsName self.old.config.tables (innermost self.old.config.elements) }
        requires learns { CanLearn (room_in self.old.config.elements self.old.config.outer) self.old.config.learned }
        ensures hands { HandsAny E.took E.broke result self.new
            (making self.old.bytes bit (characters_plan self.old.setting nowhere self.old.config.elements (represented datatype.now) (leading_to to)) self.old.config) out.old out.new }
        ensures setting { self.new.setting ≡ self.old.setting }
        ensures bytes { self.new.bytes ≡ self.old.bytes }
        ensures root { OnFault result (self.new.config.root ≡ self.old.config.root) }
        ensures same { E.same out.old out.new }
        ensures later { E.stops out.old ≤ E.stops out.new }
        ensures stopped { IsErrOf result Halt.Stopped → Rose (E.stops out.old) (E.stops out.new) }
    {
        let mut seldom = Ok(None);
        if self.typed_inside_apart(bit, datatype, to, out, &mut seldom) {
            return Ok(None);
        }
        seldom
    }

    /// EE.
    #[tactic(auto, unfolding(exi_processing::specs::Handing::making))]
    #[inline(always)]
    pub fn end_element<E: EventOut>(
        &mut self,
        bit: u64,
        alone: Alone,
        out: &mut E,
    ) -> Result<Option<u64>, Halt>
        requires learns { CanLearn (room_in self.old.config.elements self.old.config.outer) self.old.config.learned }
        requires level { has_level self.old.config.elements self.old.config.outer ≡ true → 0 < self.old.config.meter.level }
        ensures hands { HandsAny E.took E.broke result self.new
            (making self.old.bytes bit (element_end_plan (alone_of alone)) self.old.config) out.old out.new }
        ensures setting { self.new.setting ≡ self.old.setting }
        ensures bytes { self.new.bytes ≡ self.old.bytes }
        ensures root { OnFault result (self.new.config.root ≡ self.old.config.root) }
        ensures same { E.same out.old out.new }
        ensures later { E.stops out.old ≤ E.stops out.new }
        ensures stopped { IsErrOf result Halt.Stopped → Rose (E.stops out.old) (E.stops out.new) }
    {
        alone.refuse(bit)?;
        learn(&mut self.overlay, &self.elements, self.outer, Learned::Ee)?;
        self.after_start = false;
        close(&mut self.elements, self.outer, &mut self.meter);
        see_end(out)?;
        Ok(None)
    }

    /// NS.
    #[tactic(auto, unfolding(exi_processing::specs::Handing::making))]
    #[inline(never)]
    pub fn declaration<E: EventOut>(
        &mut self,
        bit: u64,
        alone: Alone,
        to: u32,
        out: &mut E,
    ) -> Result<Option<u64>, Halt>
        requires few { NoneLonger (2 ^ 31) self.old.config.tables }
        ensures hands { HandsAny E.took E.broke result self.new
            (making self.old.bytes bit (declaration_plan self.old.setting (alone_of alone) (leading_to to)) self.old.config) out.old out.new }
        ensures setting { self.new.setting ≡ self.old.setting }
        ensures bytes { self.new.bytes ≡ self.old.bytes }
        ensures root { OnFault result (self.new.config.root ≡ self.old.config.root) }
        ensures same { E.same out.old out.new }
        ensures later { E.stops out.old ≤ E.stops out.new }
        ensures stopped { IsErrOf result Halt.Stopped → Rose (E.stops out.old) (E.stops out.new) }
    {
        let align = self.book.options().align();
        let declaration = read_declaration(
            self.alloc,
            &mut self.input,
            align,
            &mut self.tables,
            &mut self.meter,
        )?;
        alone.refuse(bit)?;
        self.after_start = false;
        go_to(&mut self.elements, &mut self.outer, to);
        let (uri, prefix) = declaration_texts(&self.tables, declaration);
        out.see(&EventRef::Ns {
            uri,
            prefix,
            element: declaration.element,
        })?;
        Ok(None)
    }

    /// SC. Answers the byte at which the fragment begins.
    #[tactic(auto, unfolding(exi_processing::specs::Handing::making))]
    #[inline(never)]
    pub fn self_contained<E: EventOut>(
        &mut self,
        bit: u64,
        alone: Alone,
        out: &mut E,
    ) -> Result<Option<u64>, Halt>
        ensures hands { HandsAny E.took E.broke result self.new
            (making self.old.bytes bit (self_contained_plan self.old.setting (alone_of alone) self.old.config.after_start) self.old.config) out.old out.new }
        ensures setting { self.new.setting ≡ self.old.setting }
        ensures bytes { self.new.bytes ≡ self.old.bytes }
        ensures root { OnFault result (self.new.config.root ≡ self.old.config.root) }
        ensures same { E.same out.old out.new }
        ensures later { E.stops out.old ≤ E.stops out.new }
        ensures stopped { IsErrOf result Halt.Stopped → Rose (E.stops out.old) (E.stops out.new) }
    {
        alone.refuse(bit)?;
        self.after_start = false;
        self.input.skip_to_byte();
        let byte = self.input.at() / 8;
        out.see(&EventRef::Sc { at: byte })?;
        Ok(Some(byte))
    }

    /// CM.
    #[tactic(auto, unfolding(exi_processing::specs::Handing::making))]
    #[inline(never)]
    pub fn comment<E: EventOut>(
        &mut self,
        bit: u64,
        alone: Alone,
        to: u32,
        out: &mut E,
    ) -> Result<Option<u64>, Halt>
        ensures hands { HandsAny E.took E.broke result self.new
            (making self.old.bytes bit (comment_plan self.old.setting (alone_of alone) (leading_to to)) self.old.config) out.old out.new }
        ensures setting { self.new.setting ≡ self.old.setting }
        ensures bytes { self.new.bytes ≡ self.old.bytes }
        ensures root { OnFault result (self.new.config.root ≡ self.old.config.root) }
        ensures same { E.same out.old out.new }
        ensures later { E.stops out.old ≤ E.stops out.new }
        ensures stopped { IsErrOf result Halt.Stopped → Rose (E.stops out.old) (E.stops out.new) }
    {
        let text = text(
            self.alloc,
            self.book,
            &mut self.input,
            &self.tables,
            &mut self.meter,
        )?;
        alone.refuse(bit)?;
        self.after_start = false;
        go_to(&mut self.elements, &mut self.outer, to);
        out.see(&EventRef::Cm(&text))?;
        Ok(None)
    }

    /// PI.
    #[tactic(auto, unfolding(exi_processing::specs::Handing::making, exi_processing::specs::Contents::both_at))]
    #[inline(never)]
    pub fn instruction<E: EventOut>(
        &mut self,
        bit: u64,
        alone: Alone,
        to: u32,
        out: &mut E,
    ) -> Result<Option<u64>, Halt>
        ensures hands { HandsAny E.took E.broke result self.new
            (making self.old.bytes bit (instruction_plan self.old.setting (alone_of alone) (leading_to to)) self.old.config) out.old out.new }
        ensures setting { self.new.setting ≡ self.old.setting }
        ensures bytes { self.new.bytes ≡ self.old.bytes }
        ensures root { OnFault result (self.new.config.root ≡ self.old.config.root) }
        ensures same { E.same out.old out.new }
        ensures later { E.stops out.old ≤ E.stops out.new }
        ensures stopped { IsErrOf result Halt.Stopped → Rose (E.stops out.old) (E.stops out.new) }
    {
        let target = text(
            self.alloc,
            self.book,
            &mut self.input,
            &self.tables,
            &mut self.meter,
        )?;
        let text = text(
            self.alloc,
            self.book,
            &mut self.input,
            &self.tables,
            &mut self.meter,
        )?;
        alone.refuse(bit)?;
        self.after_start = false;
        go_to(&mut self.elements, &mut self.outer, to);
        out.see(&EventRef::Pi {
            target: &target,
            text: &text,
        })?;
        Ok(None)
    }

    /// DT.
    #[tactic(auto, unfolding(exi_processing::specs::Handing::making, exi_processing::specs::Contents::both_at))]
    #[inline(never)]
    pub fn document_type<E: EventOut>(
        &mut self,
        bit: u64,
        alone: Alone,
        to: u32,
        out: &mut E,
    ) -> Result<Option<u64>, Halt>
        ensures hands { HandsAny E.took E.broke result self.new
            (making self.old.bytes bit (document_type_plan self.old.setting (alone_of alone) (leading_to to)) self.old.config) out.old out.new }
        ensures setting { self.new.setting ≡ self.old.setting }
        ensures bytes { self.new.bytes ≡ self.old.bytes }
        ensures root { OnFault result (self.new.config.root ≡ self.old.config.root) }
        ensures same { E.same out.old out.new }
        ensures later { E.stops out.old ≤ E.stops out.new }
        ensures stopped { IsErrOf result Halt.Stopped → Rose (E.stops out.old) (E.stops out.new) }
    {
        let name = text(
            self.alloc,
            self.book,
            &mut self.input,
            &self.tables,
            &mut self.meter,
        )?;
        let public = text(
            self.alloc,
            self.book,
            &mut self.input,
            &self.tables,
            &mut self.meter,
        )?;
        let system = text(
            self.alloc,
            self.book,
            &mut self.input,
            &self.tables,
            &mut self.meter,
        )?;
        let text = text(
            self.alloc,
            self.book,
            &mut self.input,
            &self.tables,
            &mut self.meter,
        )?;
        alone.refuse(bit)?;
        self.after_start = false;
        go_to(&mut self.elements, &mut self.outer, to);
        out.see(&EventRef::Dt {
            name: &name,
            public: &public,
            system: &system,
            text: &text,
        })?;
        Ok(None)
    }

    /// ER.
    #[tactic(auto, unfolding(exi_processing::specs::Handing::making))]
    #[inline(never)]
    pub fn entity<E: EventOut>(
        &mut self,
        bit: u64,
        alone: Alone,
        to: u32,
        out: &mut E,
    ) -> Result<Option<u64>, Halt>
        ensures hands { HandsAny E.took E.broke result self.new
            (making self.old.bytes bit (entity_plan self.old.setting (alone_of alone) (leading_to to)) self.old.config) out.old out.new }
        ensures setting { self.new.setting ≡ self.old.setting }
        ensures bytes { self.new.bytes ≡ self.old.bytes }
        ensures root { OnFault result (self.new.config.root ≡ self.old.config.root) }
        ensures same { E.same out.old out.new }
        ensures later { E.stops out.old ≤ E.stops out.new }
        ensures stopped { IsErrOf result Halt.Stopped → Rose (E.stops out.old) (E.stops out.new) }
    {
        let name = text(
            self.alloc,
            self.book,
            &mut self.input,
            &self.tables,
            &mut self.meter,
        )?;
        alone.refuse(bit)?;
        self.after_start = false;
        go_to(&mut self.elements, &mut self.outer, to);
        out.see(&EventRef::Er(&name))?;
        Ok(None)
    }
}
