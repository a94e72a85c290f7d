ghost use Rattle.std.specs.Prelude.{◌≡◌, ◌<◌, ◌^◌, ◌∷◌, ◌++◌, [], None, ◌↔◌, All, length, map, IsTrue, IfOk, OnOk, OnErr};
ghost use Rattle.exi_bits.specs.Bits.{IsAligned};
ghost use Rattle.exi_bits.specs.Unsigned.{Reads};
ghost use Rattle.exi_bits.specs.Written.{IsWholeBytes};
ghost use Rattle.exi_gram.specs.Codes.{code_at, code_bits, coded};
ghost use Rattle.exi_gram.specs.Laws.{codes};
ghost use Rattle.exi_items.specs.Fronts.{HoldsFront};
ghost use Rattle.exi_gram.specs.Switches.{align_of};
ghost use Rattle.std.specs.Option.{option_map};
ghost use Rattle.exi_gram.specs.Tables.{parts_of};
ghost use Rattle.exi_builtin.specs.CodeParts.{coded_of};
ghost use Rattle.exi_builtin.specs.LeastCodes.{IsCodeOf, first_code, is_it};
ghost use Rattle.exi_builtin.specs.Marks.{IsLearned};
ghost use Rattle.exi_builtin.specs.Learning.{
  IsRoom,
  after_use,
  grammar_number,
  grammar_place,
  in_front,
  is_new,
  learned_in,
  new_grammar,
  nothing_learned,
  productions,
  with_grammar,
};

use crate::code_list::{CodeList, codes_behind};
use crate::grammar_list::GrammarList;
use crate::learnable::{Learnable, Learned, Room};
use crate::learned_list::LearnedList;
use crate::least_code::least_code;
use crate::name_index::LookUp;
use crate::reading::read_behind;
use crate::uses::{added_by, stands_written};
use crate::writing::write_behind;
use exi_bits::{BitIn, BitOut, Fault};
use exi_gram::{Code, Options};
use exi_names::{NameId, NameMap};
use std::alloc::{AllocError, Global};
use std::marker::Model;

/// What the built-in grammars learned in one body or one self-contained fragment (EXI 1.0, sections
/// 8.4.2 and 8.4.3).
///
/// A contract sees it as a `Learning`. A call that answers an error leaves it as it was. By [`LookUp::ByName`] no call but
/// [`Overlay::codes`] looks at more than eight learned productions; by [`LookUp::ByCode`] neither reading nor learning does.
#[derive(Drop)]
pub struct Overlay {
    alloc: Global,
    look_up: LookUp,
    numbers: NameMap<u32>,
    grammars: GrammarList,
    fragment: LearnedList,
}

impl Model for Overlay {
    ghost use Rattle.exi_builtin.specs.Learning.{Learning};
    ghost use Rattle.exi_builtin.specs.Kept.{IsNumbered};

    ghost Value = { Learning };

    ghost view = { λ o. record { grammars = o.grammars; fragment = o.fragment } };

    ghost invariant = { λ o. IsNumbered o.grammars o.numbers };
}

impl Overlay {
    /// Nothing learned, for productions that are looked up so.
    pub fn new(alloc: Global, look_up: LookUp) -> Overlay
        ensures { result ≡ nothing_learned }
    {
        Overlay {
            alloc,
            look_up,
            numbers: NameMap::new(alloc),
            grammars: GrammarList::new(alloc),
            fragment: LearnedList::new(alloc),
        }
    }

    /// Forgets all that was learned, and keeps the memory of it for what is learned next. It takes no memory, and its time grows
    /// with what was learned.
    pub fn clear(&mut self)
        ensures { self.new ≡ nothing_learned }
    {
        self.numbers = NameMap::new(self.alloc);
        self.grammars.clear();
        self.fragment.clear();
    }

    /// The number of the grammar of a name's elements, which is made where the name is new (EXI 1.0,
    /// section 8.4.3). There have to be fewer than 2^31 grammars.
    ///
    /// # Errors
    ///
    /// `AllocError` where memory is refused; nothing is then changed.
    #[inline(always)]
    pub fn grammar(&mut self, name: NameId) -> Result<u32, AllocError>
        requires { length self.old.grammars < 2 ^ 31 }
        ensures number { IfOk result (λ number. number ≡ grammar_number self.old name) }
        ensures made { OnOk result (self.new ≡ with_grammar self.old name) }
        ensures within { IfOk result (λ number. number < length self.new.grammars) }
        ensures err { OnErr result (self.new ≡ self.old) }
    {
        match self.numbers.get(name) {
            Some(number) => Ok(*number),
            None => self.make(name),
        }
    }

    /// Makes the grammar of a new name and gives its number.
    #[cold]
    #[inline(never)]
    fn make(&mut self, name: NameId) -> Result<u32, AllocError>
        requires room { length self.old.grammars < 2 ^ 31 }
        requires absent { grammar_place self.old name ≡ None }
        ensures number { IfOk result (λ number. number ≡ length self.old.grammars) }
        ensures made { OnOk result (self.new ≡ record self.old {
          grammars = self.old.grammars ++ new_grammar name ∷ [];
        }) }
        ensures err { OnErr result (self.new ≡ self.old) }
    {
        let number = self.grammars.len();
        self.grammars.push(self.alloc, name)?;
        match self.numbers.insert(self.alloc, name, number) {
            Ok(()) => Ok(number),
            Err(error) => {
                self.grammars.pop();
                Err(error)
            }
        }
    }

    /// How many grammars there are.
    #[inline]
    pub fn grammars(&self) -> u32
        ensures { result ≡ length self.now.grammars }
    {
        self.grammars.len()
    }

    /// Whether the number of a state is one that [`Overlay::grammar`] gave.
    #[inline]
    pub fn is_room(&self, room: Room) -> bool
        ensures { IsTrue result ↔ IsRoom self.now room }
    {
        match room {
            Room::StartTag(number) | Room::Content(number) => number < self.grammars(),
            Room::Fragment => true,
        }
    }

    /// How many productions a state learned.
    #[inline]
    pub fn learned(&self, room: Room) -> u32
        requires { IsRoom self.now room }
        ensures count { result ≡ length (learned_in self.now room) }
        ensures only { All IsLearned (learned_in self.now room) }
    {
        self.learned_list(room).len()
    }

    /// What a state learned.
    #[inline(always)]
    fn learned_list(&self, room: Room) -> &LearnedList
        requires { IsRoom self.now room }
        ensures { result.now ≡ learned_in self.now room }
    {
        match room {
            Room::StartTag(number) => &self.grammars.at(number).start_tag,
            Room::Content(number) => &self.grammars.at(number).content,
            Room::Fragment => &self.fragment,
        }
    }

    /// The productions of a state that the options leave, with their codes (EXI 1.0, sections 6.2 and 8.3).
    /// The number of the state has to be one that [`Overlay::grammar`] gave.
    ///
    /// # Errors
    ///
    /// `AllocError` where memory is refused.
    pub fn codes(&self, room: Room, options: &Options) -> Result<CodeList, AllocError>
        requires { IsRoom self.now room }
        ensures { IfOk result (λ list. map coded_of list
            ≡ coded (productions options.now self.now room)) }
    {
        codes_behind(self.alloc, self.learned_list(room), room, options)
    }

    /// Reads a code of a state (EXI 1.0, section 6.2) and gives its production. The number of the state has
    /// to be one that [`Overlay::grammar`] gave. Takes no memory.
    ///
    /// # Errors
    ///
    /// At the first bit of a part of the code: `Short` where the bits end, `NoCode` where no production has
    /// the part. The place is then unchanged.
    #[inline(always)]
    pub fn read_code(
        &self,
        input: &mut BitIn<'_>,
        room: Room,
        options: &Options,
    ) -> Result<Learnable, Fault>
        requires room { IsRoom self.now room }
        requires aligned { IsAligned (align_of options.now) input.old }
        ensures read { Reads (λ x. x) result input.old input.new
            (code_at (align_of options.now) (productions options.now self.now room) input.old) }
        ensures bytes { input.new.bytes ≡ input.old.bytes }
        ensures aligned { IsAligned (align_of options.now) input.new }
    {
        let bit = input.at();
        match read_behind(input, self.learned_list(room), room, options) {
            Ok(production) => Ok(production),
            Err(fault) => {
                input.go_to_bit(bit);
                Err(fault)
            }
        }
    }

    /// The code of a production in a state (EXI 1.0, section 6.2), the least where it was learned more than
    /// once, and none where the state does not have it. The number of the state has to be one that
    /// [`Overlay::grammar`] gave. At most eight learned productions are looked at; among more the name is looked
    /// up by hash, or by [`LookUp::ByCode`] all are looked at. No memory is taken.
    #[inline(always)]
    pub fn code_of(&self, room: Room, production: Learnable, options: &Options) -> Option<Code>
        requires { IsRoom self.now room }
        ensures { option_map parts_of result
            ≡ first_code (is_it production) (coded (productions options.now self.now room)) }
    {
        least_code(self.learned_list(room), room, production, options)
    }

    /// Writes a code that the state has, as [`Overlay::read_code`] reads it. The number of the state has to be one
    /// that [`Overlay::grammar`] gave, and under [`Align::Bytes`](exi_bits::Align) there have to be whole bytes of bits.
    ///
    /// # Errors
    ///
    /// `AllocError` where memory is refused. The bits then end with a front of the code, maybe none of it.
    #[inline(always)]
    pub fn write_code(
        &self,
        out: &mut BitOut,
        room: Room,
        code: Code,
        options: &Options,
    ) -> Result<(), AllocError>
        requires room { IsRoom self.now room }
        requires code { IsCodeOf (productions options.now self.now room) (parts_of code) }
        requires aligned { IsWholeBytes (align_of options.now) out.old }
        ensures ok { OnOk result (out.new ≡ out.old ++ code_bits (align_of options.now) (codes (productions options.now self.now room)) (parts_of code)) }
        ensures err { OnErr result (HoldsFront out.old (code_bits (align_of options.now) (codes (productions options.now self.now room)) (parts_of code)) out.new) }
        ensures aligned { IsWholeBytes (align_of options.now) out.new }
    {
        write_behind(out, self.learned_list(room), room, code, options)
    }

    /// Learns from a use in a state, and tells whether a production was added: false where the use is of CH,
    /// EE or AT(xsi:type) and the state has a production of one part for it. The number of the state has to
    /// be one that [`Overlay::grammar`] gave, and fewer than 2^31 productions may have been learned there.
    ///
    /// # Errors
    ///
    /// `AllocError` where memory is refused; nothing is then changed.
    #[inline(always)]
    pub fn learn(&mut self, room: Room, used: Learned) -> Result<bool, AllocError>
        requires room { IsRoom self.old room }
        requires few { length (learned_in self.old room) < 2 ^ 31 }
        ensures added { IfOk result (λ added. added ≡ is_new self.old room used) }
        ensures learned { OnOk result (self.new ≡ after_use self.old room used) }
        ensures err { OnErr result (self.new ≡ self.old) }
    {
        if stands_written(room, used) || self.learned_list(room).stands(used) {
            return Ok(false);
        }
        self.add(room, added_by(used))?;
        Ok(true)
    }

    /// Adds a production in front of those of a state.
    #[cold]
    #[inline(never)]
    fn add(&mut self, room: Room, production: Learnable) -> Result<(), AllocError>
        requires room { IsRoom self.old room }
        requires few { length (learned_in self.old room) < 2 ^ 31 }
        requires learned { IsLearned production }
        ensures ok { OnOk result (self.new ≡ in_front self.old room production) }
        ensures err { OnErr result (self.new ≡ self.old) }
    {
        match room {
            Room::StartTag(number) => {
                self.grammars
                    .learn_in_start_tag(number, production, self.look_up, self.alloc)
            }
            Room::Content(number) => {
                self.grammars
                    .learn_in_content(number, production, self.look_up, self.alloc)
            }
            Room::Fragment => self.fragment.push(production, self.look_up, self.alloc),
        }
    }
}
