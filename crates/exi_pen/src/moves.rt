ghost use Rattle.std.specs.Prelude.{◌≡◌, ◌<◌, Ok, OnOk, true};
ghost use Rattle.exi_names.specs.Seen.{seen};
ghost use Rattle.exi_names.specs.Shown.{named};
ghost use Rattle.exi_processing.specs.Changes.{has_level};
ghost use Rattle.exi_processing.specs.Contents.{named_type};
ghost use Rattle.exi_processing.specs.Stacks.{HaveForm};
ghost use Rattle.std.specs.Option.{option_copied};
ghost use Rattle.exi_processing.specs.Handing.{HasLevels, alone_of, root_at, rule_in, telling_of, valuing_in};
ghost use Rattle.exi_pen.specs.Pages.{CanGrow, Ends, KeepsLevel, attribute_page, closed_page, effected_page, ending_page, learned_page, moved_page, opened_page, padded_page};
ghost use Rattle.exi_choice.specs.Fitting.{as_type, declaring};
ghost use Rattle.exi_pen.specs.Told.{IsDeclaredAt, effect_as, told_in, valuing_on};

use crate::pen::Pen;
use exi_builtin::Learned;
use exi_choice::Declared;
use exi_names::{NameId, NameRef, QName, Val};
use exi_processing::{
    Alone, Asides, Content, Rule, Telling, Valuing, alone_in, close, empty_by, go_to, learn,
    learn_name, open, opener, retype,
};
use exi_tables::Tables;
use exi_toll::{PutStop, Toll};
use std::alloc::AllocError;

/// How a production tells the name of an element or an attribute.
pub fn telling(rule: Rule<'_>) -> Telling
    ensures { telling_of result ≡ told_in (rule_in rule.entry).on }
{
    match rule.on {
        Content::Element(name) | Content::Attribute(name, _) => name,
        Content::StartDocument
        | Content::EndDocument
        | Content::Characters
        | Content::EndElement
        | Content::Declaration
        | Content::SelfContained
        | Content::Comment
        | Content::Instruction
        | Content::DocumentType
        | Content::Entity => Telling::Spelled,
    }
}

/// What a production says of the value of an attribute.
pub fn valuing(rule: Rule<'_>) -> Valuing
    ensures { valuing_in result (option_copied rule.entry.datatype) ≡ valuing_on (rule_in rule.entry).on }
{
    match rule.on {
        Content::Attribute(_, valuing) => valuing,
        Content::StartDocument
        | Content::EndDocument
        | Content::Element(_)
        | Content::Characters
        | Content::EndElement
        | Content::Declaration
        | Content::SelfContained
        | Content::Comment
        | Content::Instruction
        | Content::DocumentType
        | Content::Entity => Valuing::Untyped,
    }
}

/// Where writing began at a fragment, the name of its element is kept.
fn keep_root<T: Tables + Drop>(
    alone: Alone,
    aside: &Asides<T>,
    root: &mut Option<QName>,
    name: NameRef<'_>,
) -> Result<(), AllocError>
    ensures { OnOk result (root.new ≡ root_at (alone_of alone) aside.now (named name.entry) root.old) }
{
    if alone == Alone::AtFirst && aside.len() == 0 {
        *root = Some(name.copy()?);
    }
    Ok(())
}

impl<'a, T: Tables + Drop> Pen<'a, T> {
    /// Nothing is charged yet.
    pub fn toll(&self) -> Toll
        ensures { result ≡ Ok self.now.config.meter }
    {
        Toll::of(self.meter)
    }

    /// An event ends: its charges are made, and the state that follows is this one.
    pub fn go_on(&mut self, toll: Toll, to: u32) -> Result<(), PutStop>
        ensures { Ends result self.new toll (moved_page to self.old) }
    {
        toll.settle(&mut self.meter)?;
        self.after_start = false;
        go_to(&mut self.elements, &mut self.outer, to);
        Ok(())
    }

    /// The same, where the state learns from the use of a name that is told so.
    pub fn learn_on(
        &mut self,
        toll: Toll,
        telling: Telling,
        used: Learned,
        to: u32,
    ) -> Result<(), PutStop>
        requires room { CanGrow self.old.config }
        ensures { Ends result self.new toll (learned_page (telling_of telling) used to self.old) }
    {
        toll.settle(&mut self.meter)?;
        self.after_start = false;
        learn_name(&mut self.overlay, &self.elements, self.outer, telling, used)?;
        go_to(&mut self.elements, &mut self.outer, to);
        Ok(())
    }

    /// The same, behind an attribute, which may name the type by which its element goes on, or empty it.
    pub fn attribute_on(
        &mut self,
        toll: Toll,
        rule: Rule<'_>,
        declared: Declared<'_>,
        id: NameId,
        value: &Val,
    ) -> Result<(), PutStop>
        requires room { CanGrow self.old.config }
        requires forms { HaveForm self.old.config.elements }
        requires declared { IsDeclaredAt self.old.setting.schema (valuing_on (rule_in rule).on) id (declaring declared) }
        ensures { Ends result self.new toll (attribute_page (told_in (rule_in rule.entry).on) (valuing_on (rule_in rule.entry).on) (rule_in rule.entry).to id (seen value.now) self.old) }
    {
        toll.settle(&mut self.meter)?;
        self.after_start = false;
        let told = telling(rule);
        let used = Learned::At(id);
        learn_name(&mut self.overlay, &self.elements, self.outer, told, used)?;
        self.follow(rule, declared, value);
        Ok(())
    }

    /// The state behind an attribute whose value is represented so.
    fn follow(&mut self, rule: Rule<'_>, declared: Declared<'_>, value: &Val)
        requires forms { HaveForm self.old.config.elements }
        ensures { self.new ≡ effected_page (effect_as self.old.setting (declaring declared.entry) (valuing_on (rule_in rule.entry).on) (seen value.now)) (rule_in rule.entry).to self.old }
    {
        match declared {
            Declared::Type => self.retype(rule, value),
            Declared::Nil => empty_by(&mut self.elements, value),
            Declared::Datatype(_) => go_to(&mut self.elements, &mut self.outer, rule.to),
        }
    }

    /// The innermost element goes on with the grammar of the type that a value names, where there is one.
    fn retype(&mut self, rule: Rule<'_>, value: &Val)
        ensures { self.new ≡ effected_page (effect_as self.old.setting as_type (valuing_on (rule_in rule.entry).on) (seen value.now)) (rule_in rule.entry).to self.old }
    {
        let grammar = self.type_named(value);
        let valuing = valuing(rule);
        retype(
            &mut self.elements,
            &mut self.outer,
            valuing,
            grammar,
            rule.to,
        );
    }

    /// The grammar of the type that a value names, where there is one.
    pub fn type_named(&self, value: &Val) -> Option<u32>
        ensures { result ≡ named_type self.now.setting (seen value.now) }
    {
        match value {
            Val::Name(name) => self.book.type_grammar(name.as_ref()),
            Val::Text(_)
            | Val::Bool { .. }
            | Val::Int(_)
            | Val::Dec { .. }
            | Val::Flo { .. }
            | Val::Mom(_)
            | Val::Bin { .. }
            | Val::Items(_) => None,
        }
    }

    /// The same, where an element of this name is opened.
    pub fn open_on(
        &mut self,
        toll: Toll,
        rule: Rule<'_>,
        id: NameId,
        name: NameRef<'_>,
    ) -> Result<(), PutStop>
        requires room { CanGrow self.old.config }
        ensures { Ends result self.new toll (opened_page (told_in (rule_in rule.entry).on) (rule_in rule.entry).to (rule_in rule.entry).inner (record { id = id; name = named name.entry }) self.old) }
    {
        toll.settle(&mut self.meter)?;
        let alone = alone_in(&self.elements, self.outer);
        keep_root(alone, &self.aside, &mut self.root, name)?;
        let used = Learned::Se(id);
        learn_name(
            &mut self.overlay,
            &self.elements,
            self.outer,
            telling(rule),
            used,
        )?;
        go_to(&mut self.elements, &mut self.outer, rule.to);
        let inner = opener(self.book, name, rule.inner);
        open(&mut self.overlay, &mut self.elements, id, inner)?;
        self.after_start = alone.is_event();
        Ok(())
    }

    /// The same, where the innermost element is closed.
    pub fn close_on(&mut self, toll: Toll) -> Result<(), PutStop>
        requires room { CanGrow self.old.config }
        requires level { has_level self.old.config.elements self.old.config.outer ≡ true → 0 < self.old.config.meter.level }
        requires kept { KeepsLevel self.old.config.meter toll }
        ensures { Ends result self.new toll (closed_page self.old) }
    {
        toll.settle(&mut self.meter)?;
        self.after_start = false;
        learn(&mut self.overlay, &self.elements, self.outer, Learned::Ee)?;
        close(&mut self.elements, self.outer, &mut self.meter);
        Ok(())
    }

    /// The same, behind ED.
    pub fn end_on(&mut self, toll: Toll) -> Result<(), PutStop>
        requires levels { HasLevels self.old.config }
        requires kept { KeepsLevel self.old.config.meter toll }
        ensures { Ends result self.new toll (ending_page self.old) }
    {
        toll.settle(&mut self.meter)?;
        self.after_start = false;
        let alone = alone_in(&self.elements, self.outer);
        self.end(alone);
        Ok(())
    }

    /// The same, behind SC: the fragment begins at the next whole byte.
    pub fn pad_on(&mut self, toll: Toll) -> Result<(), PutStop>
        ensures { Ends result self.new toll (padded_page self.old) }
    {
        toll.settle(&mut self.meter)?;
        self.after_start = false;
        self.out.pad();
        Ok(())
    }
}
