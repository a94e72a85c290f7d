ghost use Rattle.std.specs.Prelude.{◌≡◌, ◌≤◌, None, IsErrOf};
ghost use Rattle.exi_names.specs.Events.{Rose};
ghost use Rattle.exi_names.specs.Datatypes as datatype;
ghost use Rattle.exi_names.specs.Datatypes.{represented};
ghost use Rattle.exi_processing.specs.Handing.{HandsAny, HasLevels, HasNames, HasRoom, IsSteady, OnFault, alone_of, making, rule_in, telling_of, told_apart};
ghost use Rattle.exi_processing.specs.OneEvent.{followed, moved_limit, one};
ghost use Rattle.exi_processing.specs.Plans.{alone_in, nowhere, plan_on};
ghost use Rattle.exi_processing.specs.Rules.{attribute, built_in_terminal, characters, element, end_element, untyped};
ghost use Rattle.exi_gram.specs.Books.{IsStateOf};
ghost use Rattle.exi_processing.specs.Configurations.{built_in, in_book, rules_of};
ghost use Rattle.exi_builtin.specs.Learning.{IsRoom, state_behind};
ghost use Rattle.exi_processing.specs.Stacks.{HaveForm};
ghost use Rattle.exi_processing.specs.declared.halt.Halt.TheVariants as halt;

use crate::stepper::Stepper;
use exi_bits::{Fault, Kind};
use exi_builtin::{Learnable, Room};
use exi_names::{Datatype, EventOut};
use exi_processing::{
    Alone, Charges, Content, Halt, Rule, State, Telling, Valuing, alone_in, state_behind,
};
use exi_tables::Tables;

/// A limit of text that is passed within an event has the event's first bit.
#[cold]
#[inline(never)]
fn at_event(bit: u64, fault: Fault) -> Fault
    ensures { result ≡ moved_limit bit fault }
{
    match fault.kind {
        Kind::TextLimit => Fault {
            kind: Kind::TextLimit,
            bit,
        },
        _ => fault,
    }
}

/// The same, as what ends a turn: only a fault makes room for it.
#[inline(always)]
fn halt_at_event(bit: u64, fault: Fault) -> Halt
    ensures { result ≡ halt.Fault (moved_limit bit fault) }
{
    Halt::Fault(at_event(bit, fault))
}

impl<'a, T: Tables + Drop> Stepper<'a, T> {
    /// What stands behind an event's code. Answers the byte of a fragment that begins.
    #[inline(always)]
    fn content<E: EventOut>(
        &mut self,
        bit: u64,
        alone: Alone,
        rule: Rule<'_>,
        out: &mut E,
    ) -> Result<Option<u64>, Halt>
        requires room { HasRoom self.old.config }
        requires levels { HasLevels self.old.config }
        requires names { HasNames self.old.config (rule_in rule).on }
        requires forms { HaveForm self.old.config.elements }
        ensures hands { HandsAny E.took E.broke result self.new
            (making self.old.bytes bit (plan_on self.old.setting (alone_of alone) self.old.config (rule_in rule.entry) (rule_in rule.entry).on) self.old.config) out.old out.new }
        ensures setting { self.new.setting ≡ self.old.setting }
        ensures bytes { self.new.bytes ≡ self.old.bytes }
        ensures root { OnFault result (self.new.config.root ≡ self.old.config.root) }
        ensures same { E.same out.old out.new }
        ensures later { E.stops out.old ≤ E.stops out.new }
        ensures stopped { IsErrOf result Halt.Stopped → Rose (E.stops out.old) (E.stops out.new) }
    {
        let to = rule.to;
        match rule.on {
            Content::StartDocument => self.start_document(bit, alone, to, out),
            Content::EndDocument => self.end_document(bit, alone, out),
            Content::Element(name) => self.element(bit, alone, name, to, rule.inner, out),
            Content::Attribute(name, valuing) => {
                self.attribute(bit, alone, name, valuing, rule.datatype, to, out)
            }
            Content::Characters => match rule.datatype {
                None => self.characters(bit, alone, to, out),
                Some(datatype) => self.typed_characters(bit, alone, datatype, to, out),
            },
            Content::EndElement => self.end_element(bit, alone, out),
            Content::Declaration => self.declaration(bit, alone, to, out),
            Content::SelfContained => self.self_contained(bit, alone, out),
            Content::Comment => self.comment(bit, alone, to, out),
            Content::Instruction => self.instruction(bit, alone, to, out),
            Content::DocumentType => self.document_type(bit, alone, to, out),
            Content::Entity => self.entity(bit, alone, to, out),
        }
    }

    /// What stands behind an event's code, with what is asked and charged before. Answers the byte of a fragment that
    /// begins.
    #[cold]
    #[inline(never)]
    fn follow<E: EventOut>(
        &mut self,
        bit: u64,
        alone: Alone,
        rule: Rule<'_>,
        out: &mut E,
    ) -> Result<Option<u64>, Halt>
        requires room { HasRoom self.old.config }
        requires levels { HasLevels self.old.config }
        requires names { HasNames self.old.config (rule_in rule).on }
        requires forms { HaveForm self.old.config.elements }
        ensures hands { HandsAny E.took E.broke result self.new
            (followed self.old.bytes bit (plan_on self.old.setting (alone_of alone) self.old.config (rule_in rule.entry) (rule_in rule.entry).on) self.old.config) out.old out.new }
        ensures setting { self.new.setting ≡ self.old.setting }
        ensures bytes { self.new.bytes ≡ self.old.bytes }
        ensures root { OnFault result (self.new.config.root ≡ self.old.config.root) }
        ensures same { E.same out.old out.new }
        ensures later { E.stops out.old ≤ E.stops out.new }
        ensures stopped { IsErrOf result Halt.Stopped → Rose (E.stops out.old) (E.stops out.new) }
    {
        let charges = Charges::of(rule.on, alone, self.after_start);
        if let Err(fault) = charges.pay(&mut self.meter, bit) {
            return Err(Halt::Fault(fault));
        }
        match self.content(bit, alone, rule, out) {
            Ok(fragment) => Ok(fragment),
            Err(Halt::Fault(fault)) => Err(halt_at_event(bit, fault)),
            Err(Halt::Memory) => Err(Halt::Memory),
            Err(Halt::Stopped) => Err(Halt::Stopped),
        }
    }

    /// [`follow`](Stepper::follow), for an event of a kind that is seldom. The rule is copied, so that those of other
    /// kinds need no memory.
    #[inline(always)]
    fn follow_seldom<E: EventOut>(
        &mut self,
        bit: u64,
        alone: Alone,
        rule: Rule<'_>,
        out: &mut E,
    ) -> Result<Option<u64>, Halt>
        requires room { HasRoom self.old.config }
        requires levels { HasLevels self.old.config }
        requires names { HasNames self.old.config (rule_in rule).on }
        requires forms { HaveForm self.old.config.elements }
        ensures hands { HandsAny E.took E.broke result self.new
            (followed self.old.bytes bit (plan_on self.old.setting (alone_of alone) self.old.config (rule_in rule.entry) (rule_in rule.entry).on) self.old.config) out.old out.new }
        ensures setting { self.new.setting ≡ self.old.setting }
        ensures bytes { self.new.bytes ≡ self.old.bytes }
        ensures root { OnFault result (self.new.config.root ≡ self.old.config.root) }
        ensures same { E.same out.old out.new }
        ensures later { E.stops out.old ≤ E.stops out.new }
        ensures stopped { IsErrOf result Halt.Stopped → Rose (E.stops out.old) (E.stops out.new) }
    {
        match self.follow(bit, alone, rule.copied(), out) {
            Ok(fragment) => Ok(fragment),
            Err(halt) => Err(halt),
        }
    }

    /// [`follow`](Stepper::follow), for an element's start.
    #[inline(always)]
    fn follow_element<E: EventOut>(
        &mut self,
        bit: u64,
        telling: Telling,
        to: u32,
        inner: Option<u32>,
        out: &mut E,
    ) -> Result<Option<u64>, Halt>
        requires room { HasRoom self.old.config }
        requires levels { HasLevels self.old.config }
        requires names { HasNames self.old.config (element (telling_of telling)) }
        requires forms { HaveForm self.old.config.elements }
        ensures hands { HandsAny E.took E.broke result self.new
            (followed self.old.bytes bit (plan_on self.old.setting nowhere self.old.config (record { on = element (telling_of telling); to = to; inner = inner }) (element (telling_of telling))) self.old.config) out.old out.new }
        ensures setting { self.new.setting ≡ self.old.setting }
        ensures bytes { self.new.bytes ≡ self.old.bytes }
        ensures root { OnFault result (self.new.config.root ≡ self.old.config.root) }
        ensures same { E.same out.old out.new }
        ensures later { E.stops out.old ≤ E.stops out.new }
        ensures stopped { IsErrOf result Halt.Stopped → Rose (E.stops out.old) (E.stops out.new) }
    {
        let charges = Charges::of(Content::Element(telling), Alone::Nowhere, self.after_start);
        if let Err(fault) = charges.pay(&mut self.meter, bit) {
            return Err(Halt::Fault(fault));
        }
        match self.element(bit, Alone::Nowhere, telling, to, inner, out) {
            Ok(fragment) => Ok(fragment),
            Err(Halt::Fault(fault)) => Err(halt_at_event(bit, fault)),
            Err(Halt::Memory) => Err(Halt::Memory),
            Err(Halt::Stopped) => Err(Halt::Stopped),
        }
    }

    /// [`follow`](Stepper::follow), for an attribute.
    #[inline(always)]
    fn follow_attribute<E: EventOut>(
        &mut self,
        bit: u64,
        telling: Telling,
        to: u32,
        out: &mut E,
    ) -> Result<Option<u64>, Halt>
        requires room { HasRoom self.old.config }
        requires levels { HasLevels self.old.config }
        requires names { HasNames self.old.config (attribute (telling_of telling) untyped) }
        requires forms { HaveForm self.old.config.elements }
        ensures hands { HandsAny E.took E.broke result self.new
            (followed self.old.bytes bit (plan_on self.old.setting nowhere self.old.config (record { on = attribute (telling_of telling) untyped; to = to; inner = None }) (attribute (telling_of telling) untyped)) self.old.config) out.old out.new }
        ensures setting { self.new.setting ≡ self.old.setting }
        ensures bytes { self.new.bytes ≡ self.old.bytes }
        ensures root { OnFault result (self.new.config.root ≡ self.old.config.root) }
        ensures same { E.same out.old out.new }
        ensures later { E.stops out.old ≤ E.stops out.new }
        ensures stopped { IsErrOf result Halt.Stopped → Rose (E.stops out.old) (E.stops out.new) }
    {
        let charges = Charges::of(
            Content::Attribute(telling, Valuing::Untyped),
            Alone::Nowhere,
            self.after_start,
        );
        if let Err(fault) = charges.pay(&mut self.meter, bit) {
            return Err(Halt::Fault(fault));
        }
        match self.attribute(
            bit,
            Alone::Nowhere,
            telling,
            Valuing::Untyped,
            None,
            to,
            out,
        ) {
            Ok(fragment) => Ok(fragment),
            Err(Halt::Fault(fault)) => Err(halt_at_event(bit, fault)),
            Err(Halt::Memory) => Err(Halt::Memory),
            Err(Halt::Stopped) => Err(Halt::Stopped),
        }
    }

    /// [`follow`](Stepper::follow), for characters that are a string.
    #[inline(always)]
    fn follow_characters<E: EventOut>(
        &mut self,
        bit: u64,
        to: u32,
        out: &mut E,
    ) -> Result<Option<u64>, Halt>
        requires room { HasRoom self.old.config }
        requires levels { HasLevels self.old.config }
        requires names { HasNames self.old.config (characters datatype.text) }
        requires forms { HaveForm self.old.config.elements }
        ensures hands { HandsAny E.took E.broke result self.new
            (followed self.old.bytes bit (plan_on self.old.setting nowhere self.old.config (record { on = characters datatype.text; to = to; inner = None }) (characters datatype.text)) self.old.config) out.old out.new }
        ensures setting { self.new.setting ≡ self.old.setting }
        ensures bytes { self.new.bytes ≡ self.old.bytes }
        ensures root { OnFault result (self.new.config.root ≡ self.old.config.root) }
        ensures same { E.same out.old out.new }
        ensures later { E.stops out.old ≤ E.stops out.new }
        ensures stopped { IsErrOf result Halt.Stopped → Rose (E.stops out.old) (E.stops out.new) }
    {
        let charges = Charges::of(Content::Characters, Alone::Nowhere, self.after_start);
        if let Err(fault) = charges.pay(&mut self.meter, bit) {
            return Err(Halt::Fault(fault));
        }
        match self.characters(bit, Alone::Nowhere, to, out) {
            Ok(fragment) => Ok(fragment),
            Err(Halt::Fault(fault)) => Err(halt_at_event(bit, fault)),
            Err(Halt::Memory) => Err(Halt::Memory),
            Err(Halt::Stopped) => Err(Halt::Stopped),
        }
    }

    /// [`follow`](Stepper::follow), for characters of a datatype.
    #[inline(always)]
    fn follow_typed<E: EventOut>(
        &mut self,
        bit: u64,
        datatype: &Datatype,
        to: u32,
        out: &mut E,
    ) -> Result<Option<u64>, Halt>
        requires room { HasRoom self.old.config }
        requires levels { HasLevels self.old.config }
        requires names { HasNames self.old.config (characters (represented datatype.now)) }
        requires forms { HaveForm self.old.config.elements }
        ensures hands { HandsAny E.took E.broke result self.new
            (followed self.old.bytes bit (plan_on self.old.setting nowhere self.old.config (record { on = characters (represented datatype.now); to = to; inner = None }) (characters (represented datatype.now))) self.old.config) out.old out.new }
        ensures setting { self.new.setting ≡ self.old.setting }
        ensures bytes { self.new.bytes ≡ self.old.bytes }
        ensures root { OnFault result (self.new.config.root ≡ self.old.config.root) }
        ensures same { E.same out.old out.new }
        ensures later { E.stops out.old ≤ E.stops out.new }
        ensures stopped { IsErrOf result Halt.Stopped → Rose (E.stops out.old) (E.stops out.new) }
    {
        let charges = Charges::of(Content::Characters, Alone::Nowhere, self.after_start);
        if let Err(fault) = charges.pay(&mut self.meter, bit) {
            return Err(Halt::Fault(fault));
        }
        match self.typed_inside(bit, datatype, to, out) {
            Ok(fragment) => Ok(fragment),
            Err(Halt::Fault(fault)) => Err(halt_at_event(bit, fault)),
            Err(Halt::Memory) => Err(Halt::Memory),
            Err(Halt::Stopped) => Err(Halt::Stopped),
        }
    }

    /// [`follow`](Stepper::follow), for an element's end.
    #[inline(always)]
    fn follow_end<E: EventOut>(
        &mut self,
        bit: u64,
        to: u32,
        out: &mut E,
    ) -> Result<Option<u64>, Halt>
        requires room { HasRoom self.old.config }
        requires levels { HasLevels self.old.config }
        requires names { HasNames self.old.config (end_element) }
        requires forms { HaveForm self.old.config.elements }
        ensures hands { HandsAny E.took E.broke result self.new
            (followed self.old.bytes bit (plan_on self.old.setting nowhere self.old.config (record { on = end_element; to = to; inner = None }) (end_element)) self.old.config) out.old out.new }
        ensures setting { self.new.setting ≡ self.old.setting }
        ensures bytes { self.new.bytes ≡ self.old.bytes }
        ensures root { OnFault result (self.new.config.root ≡ self.old.config.root) }
        ensures same { E.same out.old out.new }
        ensures later { E.stops out.old ≤ E.stops out.new }
        ensures stopped { IsErrOf result Halt.Stopped → Rose (E.stops out.old) (E.stops out.new) }
    {
        let charges = Charges::of(Content::EndElement, Alone::Nowhere, self.after_start);
        if let Err(fault) = charges.pay(&mut self.meter, bit) {
            return Err(Halt::Fault(fault));
        }
        match self.end_element(bit, Alone::Nowhere, out) {
            Ok(fragment) => Ok(fragment),
            Err(Halt::Fault(fault)) => Err(halt_at_event(bit, fault)),
            Err(Halt::Memory) => Err(Halt::Memory),
            Err(Halt::Stopped) => Err(Halt::Stopped),
        }
    }

    /// [`follow`](Stepper::follow), on a way of its own for each kind of event that is frequent: what hangs on the kind
    /// is then known there.
    #[inline(always)]
    fn follow_by_kind<E: EventOut>(
        &mut self,
        bit: u64,
        alone: Alone,
        rule: Rule<'_>,
        out: &mut E,
    ) -> Result<Option<u64>, Halt>
        requires room { HasRoom self.old.config }
        requires levels { HasLevels self.old.config }
        requires names { HasNames self.old.config (rule_in rule).on }
        requires forms { HaveForm self.old.config.elements }
        ensures hands { HandsAny E.took E.broke result self.new
            (followed self.old.bytes bit (plan_on self.old.setting (alone_of alone) self.old.config (rule_in rule.entry) (rule_in rule.entry).on) self.old.config) out.old out.new }
        ensures setting { self.new.setting ≡ self.old.setting }
        ensures bytes { self.new.bytes ≡ self.old.bytes }
        ensures root { OnFault result (self.new.config.root ≡ self.old.config.root) }
        ensures same { E.same out.old out.new }
        ensures later { E.stops out.old ≤ E.stops out.new }
        ensures stopped { IsErrOf result Halt.Stopped → Rose (E.stops out.old) (E.stops out.new) }
    {
        match alone {
            Alone::Nowhere => {}
            Alone::AtStart | Alone::AtFirst | Alone::AtEnd => {
                return self.follow_seldom(bit, alone, rule, out);
            }
        }
        match rule.on {
            Content::Element(telling) => {
                self.follow_element(bit, telling, rule.to, rule.inner, out)
            }
            Content::Attribute(telling, Valuing::Untyped) => {
                self.follow_attribute(bit, telling, rule.to, out)
            }
            Content::Attribute(_, Valuing::Typed | Valuing::ByName) => {
                self.follow_seldom(bit, alone, rule, out)
            }
            Content::Characters => match rule.datatype {
                None => self.follow_characters(bit, rule.to, out),
                Some(datatype) => self.follow_typed(bit, datatype, rule.to, out),
            },
            Content::EndElement => self.follow_end(bit, rule.to, out),
            Content::StartDocument
            | Content::EndDocument
            | Content::Declaration
            | Content::SelfContained
            | Content::Comment
            | Content::Instruction
            | Content::DocumentType
            | Content::Entity => self.follow_seldom(bit, alone, rule, out),
        }
    }

    /// [`follow`](Stepper::follow), for a production of a built-in grammar, inside an element. Each kind that is frequent
    /// is matched once, here.
    #[inline(always)]
    fn follow_built_in<E: EventOut>(
        &mut self,
        bit: u64,
        room: Room,
        production: Learnable,
        out: &mut E,
    ) -> Result<Option<u64>, Halt>
        requires room { HasRoom self.old.config }
        requires levels { HasLevels self.old.config }
        requires names { HasNames self.old.config (built_in_terminal production) }
        requires forms { HaveForm self.old.config.elements }
        ensures hands { HandsAny E.took E.broke result self.new
            (followed self.old.bytes bit (plan_on self.old.setting nowhere self.old.config (record { on = built_in_terminal production; to = state_behind room production; inner = None }) (built_in_terminal production)) self.old.config) out.old out.new }
        ensures setting { self.new.setting ≡ self.old.setting }
        ensures bytes { self.new.bytes ≡ self.old.bytes }
        ensures root { OnFault result (self.new.config.root ≡ self.old.config.root) }
        ensures same { E.same out.old out.new }
        ensures later { E.stops out.old ≤ E.stops out.new }
        ensures stopped { IsErrOf result Halt.Stopped → Rose (E.stops out.old) (E.stops out.new) }
    {
        let to = state_behind(room, production);
        match production {
            Learnable::Known(name, false) => {
                self.follow_element(bit, Telling::Known(name), to, None, out)
            }
            Learnable::Known(name, true) => {
                let telling = Telling::Known(name);
                self.follow_attribute(bit, telling, to, out)
            }
            Learnable::Ch(_) => self.follow_characters(bit, to, out),
            Learnable::Ee(_) => self.follow_end(bit, to, out),
            Learnable::SeAny
            | Learnable::AtAny
            | Learnable::Ed
            | Learnable::Ns
            | Learnable::Sc
            | Learnable::Er
            | Learnable::Cm
            | Learnable::Pi => {
                let rule = Rule::of_built_in(production, to);
                self.follow_seldom(bit, Alone::Nowhere, rule, out)
            }
        }
    }

    /// One event inside an element whose grammar is built in.
    #[inline(always)]
    fn built_in_step<E: EventOut>(
        &mut self,
        bit: u64,
        room: Room,
        out: &mut E,
    ) -> Result<Option<u64>, Halt>
        requires steady { IsSteady self.old }
        requires bit { bit ≡ self.old.config.place }
        requires room { IsRoom self.old.config.learned room }
        requires rules { rules_of self.old.setting self.old.config ≡ built_in self.old.setting self.old.config.learned room }
        requires inside { alone_in self.old.config.elements self.old.config.outer ≡ nowhere }
        ensures hands { HandsAny E.took E.broke result self.new (one self.old.setting self.old.bytes self.old.config) out.old out.new }
        ensures setting { self.new.setting ≡ self.old.setting }
        ensures bytes { self.new.bytes ≡ self.old.bytes }
        ensures root { OnFault result (self.new.config.root ≡ self.old.config.root) }
        ensures same { E.same out.old out.new }
        ensures later { E.stops out.old ≤ E.stops out.new }
        ensures stopped { IsErrOf result Halt.Stopped → Rose (E.stops out.old) (E.stops out.new) }
    {
        match self.built_in_production(room) {
            Ok(production) => self.follow_built_in(bit, room, production, out),
            Err(fault) => Err(Halt::Fault(fault)),
        }
    }

    /// One event inside an element whose grammar is a schema's: what its production reads is matched once.
    #[inline(always)]
    fn book_step<E: EventOut>(
        &mut self,
        bit: u64,
        grammar: u32,
        state: u32,
        out: &mut E,
    ) -> Result<Option<u64>, Halt>
        requires steady { IsSteady self.old }
        requires bit { bit ≡ self.old.config.place }
        requires exists { IsStateOf self.old.setting grammar state }
        requires rules { rules_of self.old.setting self.old.config ≡ in_book self.old.setting grammar state }
        requires inside { alone_in self.old.config.elements self.old.config.outer ≡ nowhere }
        ensures hands { HandsAny E.took E.broke result self.new (one self.old.setting self.old.bytes self.old.config) out.old out.new }
        ensures setting { self.new.setting ≡ self.old.setting }
        ensures bytes { self.new.bytes ≡ self.old.bytes }
        ensures root { OnFault result (self.new.config.root ≡ self.old.config.root) }
        ensures same { E.same out.old out.new }
        ensures later { E.stops out.old ≤ E.stops out.new }
        ensures stopped { IsErrOf result Halt.Stopped → Rose (E.stops out.old) (E.stops out.new) }
    {
        match self.book_rule(grammar, state) {
            Ok(rule) => self.follow_by_kind(bit, Alone::Nowhere, rule, out),
            Err(fault) => Err(Halt::Fault(fault)),
        }
    }

    /// One event, by any rule.
    #[inline(always)]
    fn any_event<E: EventOut>(&mut self, bit: u64, out: &mut E) -> Result<Option<u64>, Halt>
        requires steady { IsSteady self.old }
        requires bit { bit ≡ self.old.config.place }
        ensures hands { HandsAny E.took E.broke result self.new (one self.old.setting self.old.bytes self.old.config) out.old out.new }
        ensures setting { self.new.setting ≡ self.old.setting }
        ensures bytes { self.new.bytes ≡ self.old.bytes }
        ensures root { OnFault result (self.new.config.root ≡ self.old.config.root) }
        ensures same { E.same out.old out.new }
        ensures later { E.stops out.old ≤ E.stops out.new }
        ensures stopped { IsErrOf result Halt.Stopped → Rose (E.stops out.old) (E.stops out.new) }
    {
        if let Some(element) = self.elements.innermost() {
            if let State::Informed { grammar, state, .. } = element.state {
                return self.book_step(bit, grammar, state, out);
            }
        }
        let alone = alone_in(&self.elements, self.outer);
        let rule = match self.rule() {
            Ok(rule) => rule,
            Err(fault) => return Err(Halt::Fault(fault)),
        };
        self.follow_seldom(bit, alone, rule, out)
    }

    /// The same, apart, so that [`step`](Stepper::step) is small enough to be taken in line. It answers whether there is nothing
    /// more to tell, and puts what there is in `seldom`: the frequent way writes no answer.
    #[inline(never)]
    fn any_step_apart<E: EventOut>(
        &mut self,
        bit: u64,
        out: &mut E,
        seldom: &mut Result<Option<u64>, Halt>,
    ) -> bool
        requires steady { IsSteady self.old }
        requires bit { bit ≡ self.old.config.place }
        ensures hands { HandsAny E.took E.broke (told_apart result seldom.new) self.new (one self.old.setting self.old.bytes self.old.config) out.old out.new }
        ensures setting { self.new.setting ≡ self.old.setting }
        ensures bytes { self.new.bytes ≡ self.old.bytes }
        ensures root { OnFault (told_apart result seldom.new) (self.new.config.root ≡ self.old.config.root) }
        ensures same { E.same out.old out.new }
        ensures later { E.stops out.old ≤ E.stops out.new }
        ensures stopped { IsErrOf (told_apart result seldom.new) Halt.Stopped → Rose (E.stops out.old) (E.stops out.new) }
    {
        match self.any_event(bit, out) {
            Ok(None) => true,
            Ok(Some(byte)) => {
                *seldom = Ok(Some(byte));
                false
            }
            Err(halt) => {
                *seldom = Err(halt);
                false
            }
        }
    }

    /// One event, by any rule, in a call of its own.
    #[inline(always)]
    fn any_step<E: EventOut>(&mut self, bit: u64, out: &mut E) -> Result<Option<u64>, Halt>
        requires steady { IsSteady self.old }
        requires bit { bit ≡ self.old.config.place }
        ensures hands { HandsAny E.took E.broke result self.new (one self.old.setting self.old.bytes self.old.config) out.old out.new }
        ensures setting { self.new.setting ≡ self.old.setting }
        ensures bytes { self.new.bytes ≡ self.old.bytes }
        ensures root { OnFault result (self.new.config.root ≡ self.old.config.root) }
        ensures same { E.same out.old out.new }
        ensures later { E.stops out.old ≤ E.stops out.new }
        ensures stopped { IsErrOf result Halt.Stopped → Rose (E.stops out.old) (E.stops out.new) }
    {
        let mut seldom = Ok(None);
        if self.any_step_apart(bit, out, &mut seldom) {
            return Ok(None);
        }
        seldom
    }

    /// One event.
    #[inline(always)]
    pub fn step<E: EventOut>(&mut self, out: &mut E) -> Result<Option<u64>, Halt>
        requires steady { IsSteady self.old }
        ensures hands { HandsAny E.took E.broke result self.new (one self.old.setting self.old.bytes self.old.config) out.old out.new }
        ensures setting { self.new.setting ≡ self.old.setting }
        ensures bytes { self.new.bytes ≡ self.old.bytes }
        ensures root { OnFault result (self.new.config.root ≡ self.old.config.root) }
        ensures same { E.same out.old out.new }
        ensures later { E.stops out.old ≤ E.stops out.new }
        ensures stopped { IsErrOf result Halt.Stopped → Rose (E.stops out.old) (E.stops out.new) }
    {
        let bit = self.input.at();
        if let Some(element) = self.elements.innermost() {
            if let State::BuiltIn(room) = element.state {
                return self.built_in_step(bit, room, out);
            }
        }
        self.any_step(bit, out)
    }
}
