ghost use Rattle.std.specs.Prelude.{◌≡◌, IfOk, IfSome, OnOk, true};
ghost use Rattle.exi_builtin.specs.Learning.{IsRoom};
ghost use Rattle.exi_gram.specs.Books.{IsStateOf};
ghost use Rattle.exi_gram.specs.Codes.{code_bits};
ghost use Rattle.exi_gram.specs.Laws.{codes};
ghost use Rattle.exi_gram.specs.Switches.{align_of};
ghost use Rattle.exi_processing.specs.Configurations.{alone_rules, built_in, in_book, outer_rules, rules_of};
ghost use Rattle.exi_processing.specs.Handing.{AreThere, IsThere, alone_of};
ghost use Rattle.exi_processing.specs.Plans.{alone_in, nowhere};
ghost use Rattle.exi_processing.specs.declared.rule.Content.TheVariants as content;
ghost use Rattle.std.specs.Option.{is_some};
ghost use Rattle.exi_pen.specs.Pages.{Begins, BeginsKind, IsReady, attribute_wanted, characters_wanted, no_element_for, with_bits};
ghost use Rattle.exi_choice.specs.Choices.{Finds, IsWay, wanting, way_parts};
ghost use Rattle.exi_names.specs.Seen.{seen};
ghost use Rattle.exi_names.specs.Shown.{named};
ghost use Rattle.exi_toll.specs.Charges.{charge_event, charge_level};

use exi_bits::BitOut;
use exi_builtin::{Overlay, Room};
use exi_choice::laws::chosen_suits;
use exi_choice::{
    Fit, Found, Valued, Wanted, Way, find_built_in, find_in_book, find_start, place_told,
};
use exi_gram::{Book, write_code};
use exi_meter::Meter;
use exi_names::{NameRef, QName, Val};
use exi_processing::{
    Alone, Asides, Charges, Content, Elements, Outer, Rule, Spare, Start, State, Telling, Valuing,
    alone_in,
};
use exi_tables::{FirstTables, Tables};
use exi_toll::{PutStop, Toll};
use std::alloc::{AllocError, Global};
use std::marker::Model;

/// A writer between two events, or behind SC: its fragment is not entered.
#[derive(Drop)]
pub struct Pen<'a, T: Tables + Drop> {
    pub alloc: Global,
    pub book: &'a Book,
    pub start: Start,
    pub out: BitOut,
    pub meter: Meter,
    pub tables: T,
    pub elements: Elements,
    pub outer: Outer,
    pub overlay: Overlay,
    pub after_start: bool,
    pub root: Option<QName>,
    pub aside: Asides<T>,
    pub first: FirstTables,
    pub spare: Option<Spare<T>>,
}

/// A production whose code is written.
#[derive(Drop)]
pub struct Begun<'a> {
    /// The production.
    pub rule: Rule<'a>,
    /// What is written of the event's value.
    pub value: Fit,
}

/// Whether what is no element is refused in the place of a fragment's element.
fn is_no_element(wanted: Content, alone: Alone) -> bool
    ensures { result ≡ is_some (no_element_for wanted (alone_of alone)) }
{
    match wanted {
        Content::Element(_) => false,
        _ => alone == Alone::AtFirst,
    }
}

/// Charges what comes before an event's content.
#[inline(always)]
fn pay_charges(toll: &mut Toll, charges: Charges)
    ensures { toll.new ≡ charge_level charges.entered (charge_event charges.counted toll.old) }
{
    if charges.counted {
        toll.event();
    }
    if charges.entered {
        toll.enter();
    }
}

impl<'a, T: Tables + Drop> Model for Pen<'a, T> {
    ghost use Rattle.std.specs.Prelude.{◌≡◌, length};
    ghost use Rattle.exi_bits.specs.Written.{IsWholeBytes};
    ghost use Rattle.exi_gram.specs.Switches.{align_of};
    ghost use Rattle.exi_pen.specs.Pages.{Page};

    ghost Value = { Page };

    ghost use Rattle.exi_names.proofs.Codes.{representation_code};
    ghost use Rattle.std.specs.Coded.{codes};

    ghost coded = { Prim.hlevel (codes, representation_code) };

    ghost view = { λ p. record {
      setting = p.book.now;
      bits = p.out;
      config = record {
        start = p.start;
        place = length p.out;
        meter = p.meter;
        tables = T.held p.tables;
        elements = p.elements;
        outer = p.outer;
        learned = p.overlay;
        after_start = p.after_start;
        root = p.root;
        aside = p.aside;
      };
    } };

    ghost invariant = { λ p. IsWholeBytes (align_of p.book.now.options) p.out × (p.first ≡ p.book.now.schema.names) };
}

impl<'a, T: Tables + Drop> Pen<'a, T> {
    /// The production that suits an event in the content of a fragment that stands for one element.
    fn find_alone(&self, wanted: Wanted<'_>) -> Result<Option<Found<'a>>, AllocError>
        requires there { self.now.setting.schema.known ≡ true → IsStateOf self.now.setting 1 1 }
        ensures { IfOk result (λ found. Finds self.now.setting self.now.config.learned (wanting wanted.entry) (alone_rules self.now.setting self.now.config.learned) found) }
    {
        let (alloc, book) = (self.alloc, self.book);
        if book.schema().is_known() {
            find_in_book(alloc, book, 1, 1, wanted)
        } else {
            find_built_in(alloc, book, &self.overlay, Room::Fragment, wanted)
        }
    }

    /// The production that suits an event outside of all elements.
    fn find_outside(&self, wanted: Wanted<'_>) -> Result<Option<Found<'a>>, AllocError>
        requires there { IsThere self.now.setting self.now.config.outer }
        ensures { IfOk result (λ found. Finds self.now.setting self.now.config.learned (wanting wanted.entry) (outer_rules self.now.setting self.now.config.learned self.now.config.outer) found) }
    {
        let (alloc, book) = (self.alloc, self.book);
        match self.outer {
            Outer::Book { grammar, state } => { find_in_book(alloc, book, grammar, state, wanted) }
            Outer::FragmentStart | Outer::AloneStart => Ok(find_start(wanted)),
            Outer::FragmentContent => {
                find_built_in(alloc, book, &self.overlay, Room::Fragment, wanted)
            }
            Outer::AloneFirst | Outer::AloneOver => self.find_alone(wanted),
            Outer::Ended => Ok(None),
        }
    }

    /// Writes the code of a production.
    #[inline(always)]
    pub fn put_code(&mut self, way: Way) -> Result<(), AllocError>
        requires way { IsWay self.old.setting self.old.config.learned (rules_of self.old.setting self.old.config) way }
        ensures ok { OnOk result (self.new ≡ with_bits self.old (code_bits (align_of self.old.setting.options) (codes (rules_of self.old.setting self.old.config)) (way_parts self.old.setting way))) }
        ensures meter { self.new.config.meter ≡ self.old.config.meter }
    {
        match way {
            Way::Nothing => Ok(()),
            Way::BuiltIn(room, code) => {
                let options = self.book.options();
                self.overlay.write_code(&mut self.out, room, code, options)
            }
            Way::Book {
                grammar,
                state,
                place,
            } => write_code(&mut self.out, self.book, grammar, state, place),
        }
    }

    /// Writes the code of the production that was found for an event, where it may stand here.
    #[inline(always)]
    fn begin_by(
        &mut self,
        wanted: Wanted<'_>,
        found: Option<Found<'a>>,
        toll: &mut Toll,
    ) -> Result<Begun<'a>, PutStop>
        requires ready { IsReady self.old }
        requires found { Finds self.old.setting self.old.config.learned (wanting wanted) (rules_of self.old.setting self.old.config) found }
        ensures begins { Begins (wanting wanted.entry) result self.old self.new toll.old toll.new }
        ensures meter { self.new.config.meter ≡ self.old.config.meter }
    {
        chosen_suits();
        let Some(found) = found else {
            return Err(PutStop::NotDerived);
        };
        let Found { choice, value } = found;
        let alone = alone_in(&self.elements, self.outer);
        let charges = Charges::of(choice.rule.on, alone, self.after_start);
        if charges.barred.is_some()
            || charges.misplaced.is_some()
            || is_no_element(wanted.on, alone)
        {
            return Err(PutStop::NotDerived);
        }
        pay_charges(toll, charges);
        self.put_code(choice.way)?;
        Ok(Begun {
            rule: choice.rule,
            value,
        })
    }

    /// Begins an event outside of all elements.
    #[cold]
    #[inline(never)]
    fn begin_outside(&mut self, wanted: Wanted<'_>, toll: &mut Toll) -> Result<Begun<'a>, PutStop>
        requires ready { IsReady self.old }
        requires rules { rules_of self.old.setting self.old.config ≡ outer_rules self.old.setting self.old.config.learned self.old.config.outer }
        ensures begins { Begins (wanting wanted.entry) result self.old self.new toll.old toll.new }
        ensures meter { self.new.config.meter ≡ self.old.config.meter }
    {
        let found = self.find_outside(wanted)?;
        self.begin_by(wanted, found, toll)
    }

    /// Begins an event in a state of the book.
    #[inline(always)]
    fn begin_in_book(
        &mut self,
        grammar: u32,
        state: u32,
        wanted: Wanted<'_>,
        toll: &mut Toll,
    ) -> Result<Begun<'a>, PutStop>
        requires ready { IsReady self.old }
        requires exists { IsStateOf self.old.setting grammar state }
        requires rules { rules_of self.old.setting self.old.config ≡ in_book self.old.setting grammar state }
        ensures begins { Begins (wanting wanted.entry) result self.old self.new toll.old toll.new }
        ensures meter { self.new.config.meter ≡ self.old.config.meter }
    {
        let found = find_in_book(self.alloc, self.book, grammar, state, wanted)?;
        self.begin_by(wanted, found, toll)
    }

    /// The built-in state in which the innermost element is, where there is one.
    #[inline(always)]
    pub fn room(&self) -> Option<Room>
        requires there { AreThere self.now.setting self.now.config.learned self.now.config.elements }
        ensures inside { IfSome result (λ room. alone_in self.now.config.elements self.now.config.outer ≡ nowhere) }
        ensures room { IfSome result (λ room. IsRoom self.now.config.learned room) }
        ensures rules { IfSome result (λ room. rules_of self.now.setting self.now.config ≡ built_in self.now.setting self.now.config.learned room) }
    {
        match self.elements.innermost() {
            Some(element) => match element.state {
                State::BuiltIn(room) => Some(room),
                State::Informed { .. } => None,
            },
            None => None,
        }
    }

    /// Begins an event in a built-in state.
    #[inline(always)]
    fn begin_in_room(
        &mut self,
        room: Room,
        wanted: Wanted<'_>,
        toll: &mut Toll,
    ) -> Result<Begun<'a>, PutStop>
        requires ready { IsReady self.old }
        requires room { IsRoom self.old.config.learned room }
        requires rules { rules_of self.old.setting self.old.config ≡ built_in self.old.setting self.old.config.learned room }
        ensures begins { Begins (wanting wanted.entry) result self.old self.new toll.old toll.new }
        ensures meter { self.new.config.meter ≡ self.old.config.meter }
    {
        let (alloc, book) = (self.alloc, self.book);
        let found = find_built_in(alloc, book, &self.overlay, room, wanted)?;
        self.begin_by(wanted, found, toll)
    }

    /// Finds the production that suits an event, and writes its code. Each sort of state goes its own way to the end, so that
    /// what is found need not be moved together.
    #[inline(always)]
    pub fn begin(&mut self, wanted: Wanted<'_>, toll: &mut Toll) -> Result<Begun<'a>, PutStop>
        requires ready { IsReady self.old }
        ensures begins { Begins (wanting wanted.entry) result self.old self.new toll.old toll.new }
        ensures meter { self.new.config.meter ≡ self.old.config.meter }
    {
        match self.elements.innermost() {
            Some(element) => match element.state {
                State::BuiltIn(room) => {
                    let (alloc, book) = (self.alloc, self.book);
                    let found = find_built_in(alloc, book, &self.overlay, room, wanted)?;
                    self.begin_by(wanted, found, toll)
                }
                State::Informed { grammar, state, .. } => {
                    self.begin_in_book(grammar, state, wanted, toll)
                }
            },
            None => self.begin_outside(wanted, toll),
        }
    }

    /// The same, for an event without a value: its production.
    #[inline(never)]
    pub fn begin_kind(&mut self, on: Content, toll: &mut Toll) -> Result<Rule<'a>, PutStop>
        requires ready { IsReady self.old }
        ensures begins { BeginsKind on result self.old self.new toll.old toll.new }
        ensures meter { self.new.config.meter ≡ self.old.config.meter }
    {
        let wanted = Wanted {
            on,
            valued: Valued::Nothing,
        };
        Ok(self.begin(wanted, toll)?.rule)
    }

    /// The same, where it is likely in a state of the book.
    #[inline(always)]
    fn begin_kind_by(&mut self, on: Content, toll: &mut Toll) -> Result<Rule<'a>, PutStop>
        requires ready { IsReady self.old }
        ensures begins { BeginsKind on result self.old self.new toll.old toll.new }
        ensures meter { self.new.config.meter ≡ self.old.config.meter }
    {
        if let Some(element) = self.elements.innermost() {
            if let State::Informed { grammar, state, .. } = element.state {
                let wanted = Wanted {
                    on,
                    valued: Valued::Nothing,
                };
                return Ok(self.begin_in_book(grammar, state, wanted, toll)?.rule);
            }
        }
        self.begin_kind(on, toll)
    }

    /// The same, where it is likely in a state of the book, for SE.
    #[inline(always)]
    fn begin_element_by(&mut self, told: Telling, toll: &mut Toll) -> Result<Rule<'a>, PutStop>
        requires ready { IsReady self.old }
        ensures begins { BeginsKind (content.Element told) result self.old self.new toll.old toll.new }
        ensures meter { self.new.config.meter ≡ self.old.config.meter }
    {
        self.begin_kind_by(Content::Element(told), toll)
    }

    /// The same, where it is likely in a state of the book, for EE.
    #[inline(always)]
    fn begin_end_by(&mut self, toll: &mut Toll) -> Result<Rule<'a>, PutStop>
        requires ready { IsReady self.old }
        ensures begins { BeginsKind content.EndElement result self.old self.new toll.old toll.new }
        ensures meter { self.new.config.meter ≡ self.old.config.meter }
    {
        self.begin_kind_by(Content::EndElement, toll)
    }

    /// The same, for SE, of whose name a code can tell so much: a built-in state goes its own way, on which what is found stays
    /// in pieces.
    #[inline(always)]
    pub fn begin_element(&mut self, told: Telling, toll: &mut Toll) -> Result<Rule<'a>, PutStop>
        requires ready { IsReady self.old }
        ensures begins { BeginsKind (content.Element told) result self.old self.new toll.old toll.new }
        ensures meter { self.new.config.meter ≡ self.old.config.meter }
    {
        if let Some(room) = self.room() {
            let wanted = Wanted {
                on: Content::Element(told),
                valued: Valued::Nothing,
            };
            return Ok(self.begin_in_room(room, wanted, toll)?.rule);
        }
        self.begin_element_by(told, toll)
    }

    /// The same, for EE.
    #[inline(always)]
    pub fn begin_end(&mut self, toll: &mut Toll) -> Result<Rule<'a>, PutStop>
        requires ready { IsReady self.old }
        ensures begins { BeginsKind content.EndElement result self.old self.new toll.old toll.new }
        ensures meter { self.new.config.meter ≡ self.old.config.meter }
    {
        if let Some(room) = self.room() {
            let wanted = Wanted {
                on: Content::EndElement,
                valued: Valued::Nothing,
            };
            return Ok(self.begin_in_room(room, wanted, toll)?.rule);
        }
        self.begin_end_by(toll)
    }

    /// The same, for an attribute, wherever it stands.
    #[cold]
    #[inline(never)]
    fn begin_any_attribute(
        &mut self,
        told: Telling,
        name: NameRef<'_>,
        value: &Val,
        toll: &mut Toll,
    ) -> Result<Begun<'a>, PutStop>
        requires ready { IsReady self.old }
        ensures begins { Begins (attribute_wanted told (named name.entry) (seen value.now)) result self.old self.new toll.old toll.new }
        ensures meter { self.new.config.meter ≡ self.old.config.meter }
    {
        let valued = Valued::Attribute {
            id: place_told(told),
            name,
            value,
        };
        let on = Content::Attribute(told, Valuing::Untyped);
        self.begin(Wanted { on, valued }, toll)
    }

    /// The same, where it is likely in a state of the book.
    #[inline(always)]
    fn begin_attribute_by(
        &mut self,
        told: Telling,
        name: NameRef<'_>,
        value: &Val,
        toll: &mut Toll,
    ) -> Result<Begun<'a>, PutStop>
        requires ready { IsReady self.old }
        ensures begins { Begins (attribute_wanted told (named name.entry) (seen value.now)) result self.old self.new toll.old toll.new }
        ensures meter { self.new.config.meter ≡ self.old.config.meter }
    {
        if let Some(element) = self.elements.innermost() {
            if let State::Informed { grammar, state, .. } = element.state {
                let valued = Valued::Attribute {
                    id: place_told(told),
                    name,
                    value,
                };
                let on = Content::Attribute(told, Valuing::Untyped);
                return self.begin_in_book(grammar, state, Wanted { on, valued }, toll);
            }
        }
        self.begin_any_attribute(told, name, value, toll)
    }

    /// The same, for an attribute, of whose name a code can tell so much.
    #[inline(always)]
    pub fn begin_attribute(
        &mut self,
        told: Telling,
        name: NameRef<'_>,
        value: &Val,
        toll: &mut Toll,
    ) -> Result<Begun<'a>, PutStop>
        requires ready { IsReady self.old }
        ensures begins { Begins (attribute_wanted told (named name.entry) (seen value.now)) result self.old self.new toll.old toll.new }
        ensures meter { self.new.config.meter ≡ self.old.config.meter }
    {
        if let Some(room) = self.room() {
            let valued = Valued::Attribute {
                id: place_told(told),
                name,
                value,
            };
            let on = Content::Attribute(told, Valuing::Untyped);
            return self.begin_in_room(room, Wanted { on, valued }, toll);
        }
        self.begin_attribute_by(told, name, value, toll)
    }

    /// The same, for characters, wherever they stand.
    #[cold]
    #[inline(never)]
    fn begin_any_characters(&mut self, value: &Val, toll: &mut Toll) -> Result<Begun<'a>, PutStop>
        requires ready { IsReady self.old }
        ensures begins { Begins (characters_wanted (seen value.now)) result self.old self.new toll.old toll.new }
        ensures meter { self.new.config.meter ≡ self.old.config.meter }
    {
        let wanted = Wanted {
            on: Content::Characters,
            valued: Valued::Characters(value),
        };
        self.begin(wanted, toll)
    }

    /// The same, where they are likely in a state of the book.
    #[inline(always)]
    fn begin_characters_by(&mut self, value: &Val, toll: &mut Toll) -> Result<Begun<'a>, PutStop>
        requires ready { IsReady self.old }
        ensures begins { Begins (characters_wanted (seen value.now)) result self.old self.new toll.old toll.new }
        ensures meter { self.new.config.meter ≡ self.old.config.meter }
    {
        if let Some(element) = self.elements.innermost() {
            if let State::Informed { grammar, state, .. } = element.state {
                let wanted = Wanted {
                    on: Content::Characters,
                    valued: Valued::Characters(value),
                };
                return self.begin_in_book(grammar, state, wanted, toll);
            }
        }
        self.begin_any_characters(value, toll)
    }

    /// The same, for characters.
    #[inline(always)]
    pub fn begin_characters(&mut self, value: &Val, toll: &mut Toll) -> Result<Begun<'a>, PutStop>
        requires ready { IsReady self.old }
        ensures begins { Begins (characters_wanted (seen value.now)) result self.old self.new toll.old toll.new }
        ensures meter { self.new.config.meter ≡ self.old.config.meter }
    {
        if let Some(room) = self.room() {
            let wanted = Wanted {
                on: Content::Characters,
                valued: Valued::Characters(value),
            };
            return self.begin_in_room(room, wanted, toll);
        }
        self.begin_characters_by(value, toll)
    }
}
