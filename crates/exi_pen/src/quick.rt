ghost use Rattle.std.specs.Prelude.{◌≡◌, ◌<◌, ◌^◌, IfSome, OnOk, Some, false, true};
ghost use Rattle.exi_builtin.specs.declared.learnable.Learned.TheVariants as used;
ghost use Rattle.exi_choice.specs.Choices.{IsWay};
ghost use Rattle.exi_builtin.specs.Learning.{is_type};
ghost use Rattle.exi_choice.specs.Wanted.{special_terminal, told_of};
ghost use Rattle.exi_names.specs.Events as event;
ghost use Rattle.exi_names.specs.Seen as shape;
ghost use Rattle.exi_names.specs.Shown.{named};
ghost use Rattle.exi_pen.specs.Pages.{CanGrow, Ends, IsReady, IsSpecial, Writes, at_config, by_chosen, is_whole, opened_here, paid_page, text_page, way_page};
ghost use Rattle.exi_processing.specs.Changes.{closed, has_level, learns, moves};
ghost use Rattle.exi_processing.specs.Configurations.{rules_of};
ghost use Rattle.exi_processing.specs.Handing.{AreThere, rule_in};
ghost use Rattle.exi_processing.specs.Plans.{alone_in, nowhere};
ghost use Rattle.exi_processing.specs.declared.rule.Content.TheVariants as content;
ghost use Rattle.exi_processing.specs.declared.rule.Telling.TheVariants as told;
ghost use Rattle.exi_processing.specs.declared.rule.Valuing.TheVariants as valuing;
ghost use Rattle.exi_tables.specs.Growth.{NoneLonger};
ghost use Rattle.exi_tables.specs.Partitions.{IsName};
ghost use Rattle.exi_writing.specs.Pieces.{can_be_spelled};

use crate::pen::Pen;
use exi_builtin::Learned;
use exi_choice::laws::chosen_suits;
use exi_choice::{Choice, Way, choose_special};
use exi_names::{NameId, NameRef, Txt};
use exi_pieces::{can_be_spelled, pay_name};
use exi_processing::{Content, Rule, close, go_to, keeps_prefixes, learn, open, opener};
use exi_tables::Tables;
use exi_toll::{PutStop, Toll};
use exi_typed::write_string;
use std::alloc::AllocError;

impl<'a, T: Tables + Drop> Pen<'a, T> {
    /// The production for an event alone, where the innermost element is in a built-in state that has one.
    #[inline(always)]
    pub fn special(&self, wanted: Content) -> Option<Choice<'a>>
        requires there { AreThere self.now.setting self.now.config.learned self.now.config.elements }
        ensures special { IfSome result (λ choice. IsSpecial self.now wanted choice) }
        ensures inside { IfSome result (λ choice. alone_in self.now.config.elements self.now.config.outer ≡ nowhere) }
        ensures on { IfSome result (λ choice. Some (rule_in choice.rule).on ≡ special_terminal wanted) }
    {
        let Some(room) = self.room() else {
            return None;
        };
        choose_special(self.book, &self.overlay, room, wanted)
    }

    /// Makes the charges of an event, and then writes its code: so the meter need not be kept beside.
    #[inline(always)]
    fn pay_and_code(&mut self, way: Way, toll: Toll) -> Result<(), PutStop>
        requires way { IsWay self.old.setting self.old.config.learned (rules_of self.old.setting self.old.config) way }
        ensures { Ends result self.new toll (paid_page (way_page self.old way)) }
    {
        toll.settle(&mut self.meter)?;
        self.after_start = false;
        self.put_code(way)?;
        Ok(())
    }

    /// Writes a string under a name. It has a spelling, and is charged.
    #[inline(always)]
    fn put_text(&mut self, name: NameId, text: &Txt) -> Result<(), AllocError>
        requires can { can_be_spelled text.now ≡ true }
        requires name { IsName self.old.config.tables name }
        requires few { NoneLonger (2 ^ 31) self.old.config.tables }
        ensures { OnOk result (self.new ≡ text_page name text.now self.old) }
    {
        let align = self.book.options().align();
        let tables = &mut self.tables;
        write_string(self.alloc, &mut self.out, text, None, align, name, tables)?;
        Ok(())
    }

    /// The state learns from a use, and goes on.
    #[inline(always)]
    fn learn_here(&mut self, used: Learned, to: u32) -> Result<(), AllocError>
        requires room { CanGrow self.old.config }
        ensures { OnOk result (self.new ≡ at_config self.old (moves to (learns used self.old.config))) }
    {
        learn(&mut self.overlay, &self.elements, self.outer, used)?;
        go_to(&mut self.elements, &mut self.outer, to);
        Ok(())
    }

    /// The state that follows is this one.
    #[inline(always)]
    fn go_here(&mut self, to: u32)
        ensures { self.new ≡ at_config self.old (moves to self.old.config) }
    {
        go_to(&mut self.elements, &mut self.outer, to);
    }

    /// The state learns from an end, and the innermost element is closed.
    #[inline(always)]
    fn close_here(&mut self) -> Result<(), AllocError>
        requires room { CanGrow self.old.config }
        requires level { has_level self.old.config.elements self.old.config.outer ≡ true → 0 < self.old.config.meter.level }
        ensures { OnOk result (self.new ≡ at_config self.old (closed (learns used.Ee self.old.config))) }
    {
        learn(&mut self.overlay, &self.elements, self.outer, Learned::Ee)?;
        close(&mut self.elements, self.outer, &mut self.meter);
        Ok(())
    }

    /// EE, by the production for it alone.
    #[inline(always)]
    pub fn end_by(&mut self, choice: Choice<'a>) -> Result<(), PutStop>
        requires ready { IsReady self.old }
        requires special { IsSpecial self.old content.EndElement choice }
        requires inside { alone_in self.old.config.elements self.old.config.outer ≡ nowhere }
        requires on { Some (rule_in choice.rule).on ≡ special_terminal content.EndElement }
        ensures writes { Writes result self.old self.new (by_chosen self.old.setting self.old.config event.ee) }
    {
        chosen_suits();
        let mut toll = self.toll();
        toll.event();
        self.pay_and_code(choice.way, toll)?;
        self.close_here()?;
        Ok(())
    }

    /// CH of a text that has a spelling, by the production for it alone.
    #[inline(always)]
    pub fn characters_by(&mut self, choice: Choice<'a>, text: &Txt) -> Result<(), PutStop>
        requires ready { IsReady self.old }
        requires special { IsSpecial self.old content.Characters choice }
        requires inside { alone_in self.old.config.elements self.old.config.outer ≡ nowhere }
        requires on { Some (rule_in choice.rule).on ≡ special_terminal content.Characters }
        requires can { can_be_spelled text.now ≡ true }
        ensures writes { Writes result self.old self.new (by_chosen self.old.setting self.old.config (event.ch (shape.text text.now))) }
    {
        chosen_suits();
        let mut toll = self.toll();
        toll.event();
        toll.text(text.count());
        self.pay_and_code(choice.way, toll)?;
        let name = self.inside();
        self.put_text(name, text)?;
        self.learn_here(Learned::Ch, choice.rule.to)?;
        Ok(())
    }

    /// Whether a name's texts have a spelling, and it has no prefix to be written: no bits are needed then where the code tells it.
    #[inline(always)]
    pub fn is_whole(&self, name: NameRef<'_>) -> bool
        ensures { result ≡ is_whole self.now (named name.entry) }
    {
        name.prefix.is_none()
            && !keeps_prefixes(self.book.options())
            && can_be_spelled(name.uri)
            && can_be_spelled(name.local)
    }

    /// The state follows that a production leads to, and an element is opened whose name the code told.
    #[inline(always)]
    fn open_here(&mut self, rule: Rule<'_>, id: NameId, name: NameRef<'_>) -> Result<(), AllocError>
        requires room { CanGrow self.old.config }
        ensures { OnOk result (self.new ≡ at_config self.old (opened_here self.old.setting (rule_in rule.entry) id (named name.entry) self.old.config)) }
    {
        go_to(&mut self.elements, &mut self.outer, rule.to);
        let inner = opener(self.book, name, rule.inner);
        open(&mut self.overlay, &mut self.elements, id, inner)?;
        self.after_start = true;
        Ok(())
    }

    /// SE, by the production for its name alone, which stands at these places.
    #[inline(always)]
    pub fn element_by(
        &mut self,
        choice: Choice<'a>,
        id: NameId,
        name: NameRef<'_>,
    ) -> Result<(), PutStop>
        requires ready { IsReady self.old }
        requires special { IsSpecial self.old (content.Element (told.Known id)) choice }
        requires inside { alone_in self.old.config.elements self.old.config.outer ≡ nowhere }
        requires on { Some (rule_in choice.rule).on ≡ special_terminal (content.Element (told.Known id)) }
        requires tells { told_of self.old.config.tables (named name) ≡ told.Known id }
        requires whole { is_whole self.old (named name) ≡ true }
        ensures writes { Writes result self.old self.new (by_chosen self.old.setting self.old.config (event.se (named name.entry))) }
    {
        chosen_suits();
        let mut toll = self.toll();
        toll.event();
        toll.enter();
        pay_name(&mut toll, name);
        self.pay_and_code(choice.way, toll)?;
        self.open_here(choice.rule, id, name)?;
        Ok(())
    }

    /// AT of a text that has a spelling, by the production for its name alone, which stands at these places and is not
    /// `xsi:type`.
    #[inline(always)]
    pub fn attribute_by(
        &mut self,
        choice: Choice<'a>,
        id: NameId,
        name: NameRef<'_>,
        text: &Txt,
    ) -> Result<(), PutStop>
        requires ready { IsReady self.old }
        requires special { IsSpecial self.old (content.Attribute (told.Known id) valuing.Untyped) choice }
        requires inside { alone_in self.old.config.elements self.old.config.outer ≡ nowhere }
        requires on { Some (rule_in choice.rule).on ≡ special_terminal (content.Attribute (told.Known id) valuing.Untyped) }
        requires tells { told_of self.old.config.tables (named name) ≡ told.Known id }
        requires whole { is_whole self.old (named name) ≡ true }
        requires string { is_type id ≡ false }
        requires can { can_be_spelled text.now ≡ true }
        ensures writes { Writes result self.old self.new (by_chosen self.old.setting self.old.config (event.at (named name.entry) (shape.text text.now))) }
    {
        chosen_suits();
        let mut toll = self.toll();
        toll.event();
        pay_name(&mut toll, name);
        toll.text(text.count());
        self.pay_and_code(choice.way, toll)?;
        self.put_text(id, text)?;
        self.go_here(choice.rule.to);
        Ok(())
    }
}
