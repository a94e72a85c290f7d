ghost use Rattle.std.specs.Prelude.{◌≡◌, None, true};
ghost use Rattle.exi_builtin.specs.Learning.{IsRoom, state_behind};
ghost use Rattle.exi_gram.specs.Books.{IsStateOf};
ghost use Rattle.exi_processing.specs.Configurations.{alone_rules, built_in, in_book, outer_rules, rules_in};
ghost use Rattle.exi_processing.specs.Handing.{AreThere, IsThere, Picks, PicksBuiltIn, rule_in};
ghost use Rattle.exi_processing.specs.Rules.{start_document};

use crate::stepper::Stepper;
use exi_bits::{Fault, Kind};
use exi_builtin::{Learnable, Room};
use exi_gram::read_code;
use exi_processing::{Content, Outer, Rule, State, state_behind};
use exi_tables::Tables;

/// SD of a fragment, whose code takes no bits.
#[inline(always)]
fn fragment_start<'a>() -> Rule<'a>
    ensures { rule_in result ≡ record { on = start_document; to = 1; inner = None } }
{
    Rule {
        on: Content::StartDocument,
        to: 1,
        inner: None,
        datatype: None,
    }
}

impl<'a, T: Tables + Drop> Stepper<'a, T> {
    /// The learned or undeclared production whose code comes next, among those of a state of the built-in grammars.
    #[inline(always)]
    pub fn built_in_production(&mut self, room: Room) -> Result<Learnable, Fault>
        requires room { IsRoom self.old.config.learned room }
        ensures picks { PicksBuiltIn room result self.old self.new }
    {
        let options = self.book.options();
        let production = match self.overlay.read_code(&mut self.input, room, options) {
            Ok(production) => production,
            Err(fault) => return Err(fault),
        };
        Ok(production)
    }

    /// The production whose code comes next, among those of a state of the built-in grammars.
    #[inline(always)]
    fn built_in_rule(&mut self, room: Room) -> Result<Rule<'a>, Fault>
        requires room { IsRoom self.old.config.learned room }
        ensures picks { Picks result self.old self.new (built_in self.old.setting self.old.config.learned room) }
    {
        match self.built_in_production(room) {
            Ok(production) => Ok(Rule::of_built_in(production, state_behind(room, production))),
            Err(fault) => Err(fault),
        }
    }

    /// The production whose code comes next, among those of a state of the book.
    #[inline(always)]
    pub fn book_rule(&mut self, grammar: u32, state: u32) -> Result<Rule<'a>, Fault>
        requires exists { IsStateOf self.old.setting grammar state }
        ensures picks { Picks result self.old self.new (in_book self.old.setting grammar state) }
    {
        let book = self.book;
        let place = match read_code(&mut self.input, book, grammar, state) {
            Ok(place) => place,
            Err(fault) => return Err(fault),
        };
        let coded = &book.state(grammar, state).coded()[place as usize];
        Ok(Rule::of_book(&coded.production, coded.named))
    }

    /// The production whose code comes next in the content of a fragment that stands for one element.
    fn alone_rule(&mut self) -> Result<Rule<'a>, Fault>
        requires there { self.old.setting.schema.known ≡ true → IsStateOf self.old.setting 1 1 }
        ensures picks { Picks result self.old self.new (alone_rules self.old.setting self.old.config.learned) }
    {
        if self.book.schema().is_known() {
            self.book_rule(1, 1)
        } else {
            self.built_in_rule(Room::Fragment)
        }
    }

    /// The production whose code comes next, outside of all elements.
    #[cold]
    #[inline(never)]
    fn outer_rule_apart(&mut self) -> Result<Rule<'a>, Fault>
        requires there { IsThere self.old.setting self.old.config.outer }
        ensures picks { Picks result self.old self.new (outer_rules self.old.setting self.old.config.learned self.old.config.outer) }
    {
        match self.outer {
            Outer::Book { grammar, state } => self.book_rule(grammar, state),
            Outer::FragmentStart | Outer::AloneStart => Ok(fragment_start()),
            Outer::FragmentContent => self.built_in_rule(Room::Fragment),
            Outer::AloneFirst | Outer::AloneOver => self.alone_rule(),
            Outer::Ended => Err(Fault {
                kind: Kind::NoCode,
                bit: self.input.at(),
            }),
        }
    }

    /// The same, copied out of the memory that the call answers in: the way inside elements needs none.
    #[inline(always)]
    fn outer_rule(&mut self) -> Result<Rule<'a>, Fault>
        requires there { IsThere self.old.setting self.old.config.outer }
        ensures picks { Picks result self.old self.new (outer_rules self.old.setting self.old.config.learned self.old.config.outer) }
    {
        match self.outer_rule_apart() {
            Ok(rule) => Ok(rule.copied()),
            Err(fault) => Err(fault),
        }
    }

    /// The production whose code comes next.
    #[inline(always)]
    pub fn rule(&mut self) -> Result<Rule<'a>, Fault>
        requires outer { IsThere self.old.setting self.old.config.outer }
        requires elements { AreThere self.old.setting self.old.config.learned self.old.config.elements }
        ensures picks { Picks result self.old self.new (rules_in self.old.setting self.old.config.learned self.old.config.elements self.old.config.outer) }
    {
        match self.elements.innermost() {
            Some(element) => match element.state {
                State::BuiltIn(room) => self.built_in_rule(room),
                State::Informed { grammar, state, .. } => self.book_rule(grammar, state),
            },
            None => self.outer_rule(),
        }
    }
}
