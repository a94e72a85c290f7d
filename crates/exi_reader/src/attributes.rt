ghost use Rattle.std.specs.Prelude.{◌≡◌, ◌≤◌, ◌<◌, ◌-◌, ◌+◌, ◌^◌, None, true, IsErrOf};
ghost use Rattle.std.specs.Option.{option_copied};
ghost use Rattle.exi_names.specs.Datatypes.{represented};
ghost use Rattle.exi_names.specs.Datatypes as datatype;
ghost use Rattle.exi_names.specs.Events.{Rose};
ghost use Rattle.exi_tables.specs.Growth.{NoneLonger};
ghost use Rattle.exi_typed.specs.Places.{IsNameAt, name_in};
ghost use Rattle.exi_values.specs.Stops.{IsRoomy};
ghost use Rattle.exi_processing.specs.Changes.{room_in};
ghost use Rattle.exi_processing.specs.Contents.{acts_as_type, is_nil};
ghost use Rattle.exi_processing.specs.Handing.{CanLearn, HandsAny, IsTold, OnFault, alone_of, datatype_in, leading_to, making, telling_of, value_made, valued_made, valuing_in};
ghost use Rattle.exi_processing.specs.Plans.{attribute_plan};
ghost use Rattle.exi_processing.specs.Rules.{by_name};
ghost use Rattle.exi_processing.specs.Stacks.{HaveForm};

use crate::names::{read_type, told_name};
use crate::seen::{see_name, see_string, see_value};
use crate::stepper::Stepper;
use crate::texts::{nil_read, typed_value};
use exi_builtin::Learned;
use exi_names::{Datatype, EventOut};
use exi_processing::{
    Alone, Halt, Telling, Valuing, attribute_datatype, empty_by, go_to, is_nil, is_type,
    learn_name, retype,
};
use exi_tables::Tables;
use exi_typed::{NameAt, StringRead, name_ref, read_string};

impl<'a, T: Tables + Drop> Stepper<'a, T> {
    /// The value of an attribute that names the type by which its element goes on, whose name is read.
    #[tactic(auto, unfolding(exi_processing::specs::Handing::value_made))]
    #[inline(never)]
    fn type_value_apart<E: EventOut>(
        &mut self,
        bit: u64,
        alone: Alone,
        valuing: Valuing,
        name: NameAt,
        to: u32,
        out: &mut E,
    ) -> Result<Option<u64>, Halt>
        requires few { NoneLonger (2 ^ 31) self.old.config.tables }
        requires places { IsNameAt self.old.config.tables name }
        requires acts { acts_as_type (valuing_in valuing None) name.id ≡ true }
        ensures hands { HandsAny E.took E.broke result self.new
            (value_made self.old.setting self.old.bytes bit (alone_of alone) (valuing_in valuing None) (name_in self.old.config.tables name) to self.old.config) out.old out.new }
        ensures setting { self.new.setting ≡ self.old.setting }
        ensures bytes { self.new.bytes ≡ self.old.bytes }
        ensures root { OnFault result (self.new.config.root ≡ self.old.config.root) }
        ensures same { E.same out.old out.new }
        ensures later { E.stops out.old ≤ E.stops out.new }
        ensures stopped { IsErrOf result Halt.Stopped → Rose (E.stops out.old) (E.stops out.new) }
    {
        self.after_start = false;
        let found = read_type(
            self.alloc,
            self.book,
            &mut self.input,
            valuing,
            name,
            &mut self.tables,
            &mut self.meter,
        )?;
        alone.refuse(bit)?;
        retype(
            &mut self.elements,
            &mut self.outer,
            valuing,
            found.grammar,
            to,
        );
        let value = name_ref(&self.tables, found.name).copy()?;
        see_name(name_ref(&self.tables, name), value, out)?;
        Ok(None)
    }

    /// The same, copied out of the memory that the call answers in: the way of a string needs none.
    #[inline(always)]
    fn type_value<E: EventOut>(
        &mut self,
        bit: u64,
        alone: Alone,
        valuing: Valuing,
        name: NameAt,
        to: u32,
        out: &mut E,
    ) -> Result<Option<u64>, Halt>
        requires few { NoneLonger (2 ^ 31) self.old.config.tables }
        requires places { IsNameAt self.old.config.tables name }
        requires acts { acts_as_type (valuing_in valuing None) name.id ≡ true }
        ensures hands { HandsAny E.took E.broke result self.new
            (value_made self.old.setting self.old.bytes bit (alone_of alone) (valuing_in valuing None) (name_in self.old.config.tables name) to self.old.config) out.old out.new }
        ensures setting { self.new.setting ≡ self.old.setting }
        ensures bytes { self.new.bytes ≡ self.old.bytes }
        ensures root { OnFault result (self.new.config.root ≡ self.old.config.root) }
        ensures same { E.same out.old out.new }
        ensures later { E.stops out.old ≤ E.stops out.new }
        ensures stopped { IsErrOf result Halt.Stopped → Rose (E.stops out.old) (E.stops out.new) }
    {
        match self.type_value_apart(bit, alone, valuing, name, to, out) {
            Ok(fragment) => Ok(fragment),
            Err(halt) => Err(halt),
        }
    }

    /// The value of `xsi:nil`, whose name is read.
    #[tactic(auto, unfolding(exi_processing::specs::Handing::value_made, exi_processing::specs::Contents::attribute_value_at))]
    #[inline(never)]
    fn nil_value<E: EventOut>(
        &mut self,
        bit: u64,
        alone: Alone,
        name: NameAt,
        to: u32,
        out: &mut E,
    ) -> Result<Option<u64>, Halt>
        requires few { NoneLonger (2 ^ 31) self.old.config.tables }
        requires roomy { IsRoomy self.old.config.meter self.old.config.tables }
        requires places { IsNameAt self.old.config.tables name }
        requires nil { is_nil name.id ≡ true }
        requires forms { HaveForm self.old.config.elements }
        ensures hands { HandsAny E.took E.broke result self.new
            (value_made self.old.setting self.old.bytes bit (alone_of alone) by_name (name_in self.old.config.tables name) to self.old.config) out.old out.new }
        ensures setting { self.new.setting ≡ self.old.setting }
        ensures bytes { self.new.bytes ≡ self.old.bytes }
        ensures root { OnFault result (self.new.config.root ≡ self.old.config.root) }
        ensures same { E.same out.old out.new }
        ensures later { E.stops out.old ≤ E.stops out.new }
        ensures stopped { IsErrOf result Halt.Stopped → Rose (E.stops out.old) (E.stops out.new) }
    {
        self.after_start = false;
        let value = nil_read(
            self.alloc,
            self.book,
            &mut self.input,
            name.id,
            &mut self.tables,
            &mut self.meter,
        )?;
        alone.refuse(bit)?;
        empty_by(&mut self.elements, &value);
        see_value(name_ref(&self.tables, name), &value, out)?;
        Ok(None)
    }

    /// The value of an attribute that is a string, whose name is read.
    #[tactic(auto, unfolding(exi_processing::specs::Handing::valued_made, exi_values::specs::Valued::valued_at, exi_typed::specs::Items::item_at))]
    #[inline(always)]
    fn string_value<E: EventOut>(
        &mut self,
        bit: u64,
        alone: Alone,
        name: NameAt,
        to: u32,
        out: &mut E,
    ) -> Result<Option<u64>, Halt>
        requires few { NoneLonger (2 ^ 31) self.old.config.tables }
        requires places { IsNameAt self.old.config.tables name }
        ensures hands { HandsAny E.took E.broke result self.new
            (valued_made self.old.setting self.old.bytes bit (alone_of alone) datatype.text (name_in self.old.config.tables name) to self.old.config) out.old out.new }
        ensures setting { self.new.setting ≡ self.old.setting }
        ensures bytes { self.new.bytes ≡ self.old.bytes }
        ensures root { OnFault result (self.new.config.root ≡ self.old.config.root) }
        ensures same { E.same out.old out.new }
        ensures later { E.stops out.old ≤ E.stops out.new }
        ensures stopped { IsErrOf result Halt.Stopped → Rose (E.stops out.old) (E.stops out.new) }
    {
        self.after_start = false;
        go_to(&mut self.elements, &mut self.outer, to);
        let align = self.book.options().align();
        let text = read_string(
            self.alloc,
            &mut self.input,
            None,
            align,
            name.id,
            &self.tables,
            &mut self.meter,
        )?;
        alone.refuse(bit)?;
        let told = name_ref(&self.tables, name);
        match text {
            StringRead::Stands(text) => see_string(told, text, out)?,
            StringRead::Missed(text) => {
                see_string(told, &text, out)?;
                self.tables.add_value(name.id, text)?;
            }
        }
        Ok(None)
    }

    /// The value of an attribute of a datatype, whose name is read.
    #[tactic(auto, unfolding(exi_processing::specs::Handing::valued_made))]
    #[inline(always)]
    fn typed_attribute<E: EventOut>(
        &mut self,
        bit: u64,
        alone: Alone,
        datatype: &Datatype,
        name: NameAt,
        to: u32,
        out: &mut E,
    ) -> Result<Option<u64>, Halt>
        requires few { NoneLonger (2 ^ 31) self.old.config.tables }
        requires roomy { IsRoomy self.old.config.meter self.old.config.tables }
        requires places { IsNameAt self.old.config.tables name }
        ensures hands { HandsAny E.took E.broke result self.new
            (valued_made self.old.setting self.old.bytes bit (alone_of alone) (represented datatype.now) (name_in self.old.config.tables name) to self.old.config) out.old out.new }
        ensures setting { self.new.setting ≡ self.old.setting }
        ensures bytes { self.new.bytes ≡ self.old.bytes }
        ensures root { OnFault result (self.new.config.root ≡ self.old.config.root) }
        ensures same { E.same out.old out.new }
        ensures later { E.stops out.old ≤ E.stops out.new }
        ensures stopped { IsErrOf result Halt.Stopped → Rose (E.stops out.old) (E.stops out.new) }
    {
        self.after_start = false;
        go_to(&mut self.elements, &mut self.outer, to);
        let value = typed_value(
            self.alloc,
            self.book,
            &mut self.input,
            datatype,
            name.id,
            &mut self.tables,
            &mut self.meter,
        )?;
        alone.refuse(bit)?;
        see_value(name_ref(&self.tables, name), &value, out)?;
        Ok(None)
    }

    /// The value of an attribute of a datatype, or a string where there is none, whose name is read.
    #[inline(never)]
    fn declared_value<E: EventOut>(
        &mut self,
        bit: u64,
        alone: Alone,
        datatype: Option<&Datatype>,
        name: NameAt,
        to: u32,
        out: &mut E,
    ) -> Result<Option<u64>, Halt>
        requires few { NoneLonger (2 ^ 31) self.old.config.tables }
        requires roomy { IsRoomy self.old.config.meter self.old.config.tables }
        requires places { IsNameAt self.old.config.tables name }
        ensures hands { HandsAny E.took E.broke result self.new
            (valued_made self.old.setting self.old.bytes bit (alone_of alone) (datatype_in (option_copied datatype.entry)) (name_in self.old.config.tables name) to self.old.config) out.old out.new }
        ensures setting { self.new.setting ≡ self.old.setting }
        ensures bytes { self.new.bytes ≡ self.old.bytes }
        ensures root { OnFault result (self.new.config.root ≡ self.old.config.root) }
        ensures same { E.same out.old out.new }
        ensures later { E.stops out.old ≤ E.stops out.new }
        ensures stopped { IsErrOf result Halt.Stopped → Rose (E.stops out.old) (E.stops out.new) }
    {
        match datatype {
            None | Some(Datatype::Text) => self.string_value(bit, alone, name, to, out),
            Some(datatype) => self.typed_attribute(bit, alone, datatype, name, to, out),
        }
    }

    /// The value of an attribute whose name is read, in a grammar of a schema: `xsi:type` and `xsi:nil` have theirs, a
    /// global attribute has its datatype, and any other a string.
    #[inline(never)]
    #[tactic(auto, unfolding(exi_processing::specs::Handing::value_made, exi_processing::specs::Handing::valued_made, exi_processing::specs::Contents::attribute_value_at))]
    fn value_by_name<E: EventOut>(
        &mut self,
        bit: u64,
        alone: Alone,
        name: NameAt,
        to: u32,
        out: &mut E,
    ) -> Result<Option<u64>, Halt>
        requires few { NoneLonger (2 ^ 31) self.old.config.tables }
        requires roomy { IsRoomy self.old.config.meter self.old.config.tables }
        requires places { IsNameAt self.old.config.tables name }
        requires forms { HaveForm self.old.config.elements }
        ensures hands { HandsAny E.took E.broke result self.new
            (value_made self.old.setting self.old.bytes bit (alone_of alone) by_name (name_in self.old.config.tables name) to self.old.config) out.old out.new }
        ensures setting { self.new.setting ≡ self.old.setting }
        ensures bytes { self.new.bytes ≡ self.old.bytes }
        ensures root { OnFault result (self.new.config.root ≡ self.old.config.root) }
        ensures same { E.same out.old out.new }
        ensures later { E.stops out.old ≤ E.stops out.new }
        ensures stopped { IsErrOf result Halt.Stopped → Rose (E.stops out.old) (E.stops out.new) }
    {
        if is_type(name.id) {
            return self.type_value(bit, alone, Valuing::ByName, name, to, out);
        }
        if is_nil(name.id) {
            return self.nil_value(bit, alone, name, to, out);
        }
        let book = self.book;
        let datatype = attribute_datatype(book, name_ref(&self.tables, name));
        self.declared_value(bit, alone, datatype, name, to, out)
    }

    /// AT.
    #[tactic(auto, unfolding(exi_processing::specs::Handing::making, exi_processing::specs::Handing::value_made, exi_processing::specs::Handing::valued_made, exi_processing::specs::Contents::attribute_value_at, exi_processing::specs::Contents::both_at))]
    #[inline(always)]
    pub fn attribute<E: EventOut>(
        &mut self,
        bit: u64,
        alone: Alone,
        telling: Telling,
        valuing: Valuing,
        datatype: Option<&Datatype>,
        to: u32,
        out: &mut E,
    ) -> Result<Option<u64>, Halt>
        requires few { NoneLonger (2 ^ 31 - 2) self.old.config.tables }
        requires roomy { NoneLonger (2 ^ 31 - 2 ^ 28 - 2 + self.old.config.meter.used.text) self.old.config.tables }
        requires known { IsTold telling self.old.config.tables }
        requires learns { CanLearn (room_in self.old.config.elements self.old.config.outer) self.old.config.learned }
        requires forms { HaveForm self.old.config.elements }
        ensures hands { HandsAny E.took E.broke result self.new
            (making self.old.bytes bit (attribute_plan self.old.setting (alone_of alone) (telling_of telling) (valuing_in valuing (option_copied datatype.entry)) (leading_to to)) self.old.config) out.old out.new }
        ensures setting { self.new.setting ≡ self.old.setting }
        ensures bytes { self.new.bytes ≡ self.old.bytes }
        ensures root { OnFault result (self.new.config.root ≡ self.old.config.root) }
        ensures same { E.same out.old out.new }
        ensures later { E.stops out.old ≤ E.stops out.new }
        ensures stopped { IsErrOf result Halt.Stopped → Rose (E.stops out.old) (E.stops out.new) }
    {
        let name = told_name(
            self.alloc,
            self.book,
            &mut self.input,
            telling,
            &mut self.tables,
            &mut self.meter,
        )?;
        let used = Learned::At(name.id);
        learn_name(&mut self.overlay, &self.elements, self.outer, telling, used)?;
        match valuing {
            Valuing::Typed => self.declared_value(bit, alone, datatype, name, to, out),
            Valuing::ByName => self.value_by_name(bit, alone, name, to, out),
            Valuing::Untyped => {
                if is_type(name.id) {
                    return self.type_value(bit, alone, Valuing::Untyped, name, to, out);
                }
                self.string_value(bit, alone, name, to, out)
            }
        }
    }
}
