ghost use Rattle.std.specs.Prelude.{ℕ, ◌≡◌, Some};
ghost use Rattle.exi_names.specs.Events as event;
ghost use Rattle.exi_names.specs.Seen.{seen};
ghost use Rattle.exi_names.specs.Shown.{named};
ghost use Rattle.exi_choice.specs.Fitting.{fitted};
ghost use Rattle.exi_choice.specs.Wanted.{told_of};
ghost use Rattle.exi_pen.specs.Pages.{IsReady, Writes, WritesFragment, by_chosen};
ghost use Rattle.exi_writing.specs.Pruned.{pruned_name, pruned_value};

use crate::moves::telling;
use crate::pen::Pen;
use exi_builtin::Learned;
use exi_choice::Fit;
use exi_choice::laws::chosen_suits;
use exi_names::{NameRef, Txt, Val};
use exi_pieces::can_be_spelled;
use exi_processing::{Content, Telling, Valuing, is_type};
use exi_tables::Tables;
use exi_toll::PutStop;

/// What is written of a value.
fn fitted<'e>(fit: &'e Fit, value: &'e Val) -> &'e Val
    ensures { Some (seen result.now) ≡ fitted (seen value.now) (Some fit.now) }
{
    match fit {
        Fit::Own => value,
        Fit::Other(other) => other,
    }
}

impl<'a, T: Tables + Drop> Pen<'a, T> {
    /// SD.
    pub fn start_document(&mut self) -> Result<(), PutStop>
        requires ready { IsReady self.old }
        ensures writes { Writes result self.old self.new (by_chosen self.old.setting self.old.config event.sd) }
    {
        let mut toll = self.toll();
        let rule = self.begin_kind(Content::StartDocument, &mut toll)?;
        self.go_on(toll, rule.to)
    }

    /// ED.
    pub fn end_document(&mut self) -> Result<(), PutStop>
        requires ready { IsReady self.old }
        ensures writes { Writes result self.old self.new (by_chosen self.old.setting self.old.config event.ed) }
    {
        let mut toll = self.toll();
        self.begin_kind(Content::EndDocument, &mut toll)?;
        self.end_on(toll)
    }

    /// SE.
    pub fn element(&mut self, name: NameRef<'_>) -> Result<(), PutStop>
        requires ready { IsReady self.old }
        ensures writes { Writes result self.old self.new (by_chosen self.old.setting self.old.config (event.se (pruned_name self.old.setting.options (named name.entry)))) }
    {
        let name = self.kept(name);
        let place = self.told_of(name);
        if let Telling::Known(id) = place {
            if let Some(choice) = self.special(Content::Element(place)) {
                if self.is_whole(name) {
                    return self.element_by(choice, id, name);
                }
            }
        }
        self.element_apart(name, place)
    }

    /// The same, by any production, where the name is as it is kept, and a code can tell so much of it.
    #[inline(never)]
    fn element_apart(&mut self, name: NameRef<'_>, place: Telling) -> Result<(), PutStop>
        requires ready { IsReady self.old }
        requires place { place ≡ told_of self.old.config.tables (named name) }
        ensures writes { Writes result self.old self.new (by_chosen self.old.setting self.old.config (event.se (named name.entry))) }
    {
        if self.is_other(name) {
            chosen_suits();
            return Err(PutStop::NotDerived);
        }
        let mut toll = self.toll();
        let rule = self.begin_element(place, &mut toll)?;
        let told = telling(rule);
        let id = self.put_told(&mut toll, told, name)?;
        self.open_on(toll, rule, id, name)
    }

    /// EE.
    pub fn end_element(&mut self) -> Result<(), PutStop>
        requires ready { IsReady self.old }
        ensures writes { Writes result self.old self.new (by_chosen self.old.setting self.old.config event.ee) }
    {
        if let Some(choice) = self.special(Content::EndElement) {
            return self.end_by(choice);
        }
        self.end_apart()
    }

    /// The same, by any production.
    #[inline(never)]
    fn end_apart(&mut self) -> Result<(), PutStop>
        requires ready { IsReady self.old }
        ensures writes { Writes result self.old self.new (by_chosen self.old.setting self.old.config event.ee) }
    {
        let mut toll = self.toll();
        self.begin_end(&mut toll)?;
        self.close_on(toll)
    }

    /// AT.
    pub fn attribute(&mut self, name: NameRef<'_>, value: &Val) -> Result<(), PutStop>
        requires ready { IsReady self.old }
        ensures writes { Writes result self.old self.new (by_chosen self.old.setting self.old.config (event.at (pruned_name self.old.setting.options (named name.entry)) (pruned_value self.old.setting.options (seen value.now)))) }
    {
        let name = self.kept(name);
        let told = self.told_of(name);
        if let (Telling::Known(id), Val::Text(text)) = (told, value) {
            let on = Content::Attribute(told, Valuing::Untyped);
            if let Some(choice) = self.special(on) {
                if !is_type(id) && self.is_whole(name) && can_be_spelled(text) {
                    return self.attribute_by(choice, id, name, text);
                }
            }
        }
        self.attribute_apart(name, told, value)
    }

    /// The same, by any production, and of any value, where the name is as it is kept, and a code can tell so much of it.
    #[inline(never)]
    fn attribute_apart(
        &mut self,
        name: NameRef<'_>,
        told: Telling,
        value: &Val,
    ) -> Result<(), PutStop>
        requires ready { IsReady self.old }
        requires told { told ≡ told_of self.old.config.tables (named name) }
        ensures writes { Writes result self.old self.new (by_chosen self.old.setting self.old.config (event.at (named name.entry) (pruned_value self.old.setting.options (seen value.now)))) }
    {
        let mut toll = self.toll();
        let begun = self.begin_attribute(told, name, value, &mut toll)?;
        let rule = begun.rule;
        let tells = telling(rule);
        let id = self.put_told(&mut toll, tells, name)?;
        let declared = self.declared(rule, told, name);
        let fit = fitted(&begun.value, value);
        self.put_declared(&mut toll, declared, id, fit)?;
        self.attribute_on(toll, rule, declared, id, fit)
    }

    /// CH.
    pub fn characters(&mut self, value: &Val) -> Result<(), PutStop>
        requires ready { IsReady self.old }
        ensures writes { Writes result self.old self.new (by_chosen self.old.setting self.old.config (event.ch (pruned_value self.old.setting.options (seen value.now)))) }
    {
        if let Some(choice) = self.special(Content::Characters) {
            if let Val::Text(text) = value {
                if can_be_spelled(text) {
                    return self.characters_by(choice, text);
                }
            }
        }
        self.characters_apart(value)
    }

    /// The same, by any production, and of any value.
    #[inline(never)]
    fn characters_apart(&mut self, value: &Val) -> Result<(), PutStop>
        requires ready { IsReady self.old }
        ensures writes { Writes result self.old self.new (by_chosen self.old.setting self.old.config (event.ch (pruned_value self.old.setting.options (seen value.now)))) }
    {
        let mut toll = self.toll();
        let begun = self.begin_characters(value, &mut toll)?;
        let rule = begun.rule;
        let name = self.inside();
        let fit = fitted(&begun.value, value);
        self.put_by(&mut toll, rule.datatype, name, fit)?;
        self.learn_on(toll, Telling::Spelled, Learned::Ch, rule.to)
    }

    /// NS.
    pub fn declaration(&mut self, uri: &Txt, prefix: &Txt, element: bool) -> Result<(), PutStop>
        requires ready { IsReady self.old }
        ensures writes { Writes result self.old self.new (by_chosen self.old.setting self.old.config (event.ns uri.now prefix.now element)) }
    {
        let mut toll = self.toll();
        let rule = self.begin_kind(Content::Declaration, &mut toll)?;
        self.put_declaration(&mut toll, uri, prefix, element)?;
        self.go_on(toll, rule.to)
    }

    /// SC. The fragment begins at the next whole byte, and is not entered yet.
    pub fn self_contained(&mut self) -> Result<(), PutStop>
        requires ready { IsReady self.old }
        ensures writes { (byte : ℕ) → WritesFragment result self.old self.new (by_chosen self.old.setting self.old.config (event.sc byte)) }
    {
        let mut toll = self.toll();
        self.begin_kind(Content::SelfContained, &mut toll)?;
        self.pad_on(toll)
    }

    /// CM.
    pub fn comment(&mut self, text: &Txt) -> Result<(), PutStop>
        requires ready { IsReady self.old }
        ensures writes { Writes result self.old self.new (by_chosen self.old.setting self.old.config (event.cm text.now)) }
    {
        let mut toll = self.toll();
        let rule = self.begin_kind(Content::Comment, &mut toll)?;
        self.put_literal(&mut toll, text)?;
        self.go_on(toll, rule.to)
    }

    /// PI.
    pub fn instruction(&mut self, target: &Txt, text: &Txt) -> Result<(), PutStop>
        requires ready { IsReady self.old }
        ensures writes { Writes result self.old self.new (by_chosen self.old.setting self.old.config (event.pi target.now text.now)) }
    {
        let mut toll = self.toll();
        let rule = self.begin_kind(Content::Instruction, &mut toll)?;
        self.put_literal(&mut toll, target)?;
        self.put_literal(&mut toll, text)?;
        self.go_on(toll, rule.to)
    }

    /// DT.
    pub fn document_type(
        &mut self,
        name: &Txt,
        public: &Txt,
        system: &Txt,
        text: &Txt,
    ) -> Result<(), PutStop>
        requires ready { IsReady self.old }
        ensures writes { Writes result self.old self.new (by_chosen self.old.setting self.old.config (event.dt name.now public.now system.now text.now)) }
    {
        let mut toll = self.toll();
        let rule = self.begin_kind(Content::DocumentType, &mut toll)?;
        self.put_literal(&mut toll, name)?;
        self.put_literal(&mut toll, public)?;
        self.put_literal(&mut toll, system)?;
        self.put_literal(&mut toll, text)?;
        self.go_on(toll, rule.to)
    }

    /// ER.
    pub fn entity(&mut self, name: &Txt) -> Result<(), PutStop>
        requires ready { IsReady self.old }
        ensures writes { Writes result self.old self.new (by_chosen self.old.setting self.old.config (event.er name.now)) }
    {
        let mut toll = self.toll();
        let rule = self.begin_kind(Content::Entity, &mut toll)?;
        self.put_literal(&mut toll, name)?;
        self.go_on(toll, rule.to)
    }
}
