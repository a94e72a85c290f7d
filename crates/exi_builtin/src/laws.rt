//! What learning keeps. Each law is a function that does nothing: what it ensures is the law.

ghost use Rattle.std.specs.Prelude.{◌≡◌, ◌≢◌, ◌∷◌, ℕ, Some, None, false, true};
ghost use Rattle.exi_gram.specs.Codes.{IsClosedUp};
ghost use Rattle.exi_gram.specs.declared.options.Options.{Options};
ghost use Rattle.exi_names.specs.declared.names.NameId.{NameId};
ghost use Rattle.exi_builtin.specs.declared.learnable.Learned.{Learned};
ghost use Rattle.exi_builtin.specs.declared.learnable.Room.{Room};
ghost use Rattle.exi_builtin.specs.LeastCodes.{ItIsSame, ReadsAreTwo, TwoAreRead};
ghost use Rattle.exi_builtin.specs.Learning.{
  IsRoom,
  Learning,
  RulesAreProductions,
  added_by,
  after_use,
  grammar_number,
  grammar_place,
  is_new,
  is_type,
  learned_in,
  productions,
  with_grammar,
};

use crate::learnable::{Learned, Room};

/// Law: what a state learns gets the code 0 of one part, and all that had a code of one part stands
/// behind it, in its order; longer codes tell the same behind their first part. Other states learn
/// nothing by it, and nothing is learned where the production stands already.
pub fn learns_in_front()
    ensures firsts { (o : Options) (l : Learning) (r : Room) (used : Learned) →
        IsRoom l r → is_new l r used ≡ true →
        (productions o (after_use l r used) r).firsts ≡ added_by used ∷ (productions o l r).firsts }
    ensures seconds { (o : Options) (l : Learning) (r other : Room) (used : Learned) →
        (productions o (after_use l r used) other).seconds ≡ (productions o l other).seconds }
    ensures others { (o : Options) (l : Learning) (r other : Room) (used : Learned) →
        other ≢ r → productions o (after_use l r used) other ≡ productions o l other }
    ensures nothing { (l : Learning) (r : Room) (used : Learned) →
        is_new l r used ≡ false → after_use l r used ≡ l }
{}

/// Law: an element, and an attribute other than xsi:type, is added at each use; CH, EE and
/// AT(xsi:type) are added once only.
pub fn adds_once()
    ensures elements { (l : Learning) (r : Room) (name : NameId) →
        is_new l r (Learned.Se name) ≡ true }
    ensures attributes { (l : Learning) (r : Room) (name : NameId) → is_type name ≡ false →
        is_new l r (Learned.At name) ≡ true }
    ensures types { (l : Learning) (r : Room) (name : NameId) → IsRoom l r → is_type name ≡ true →
        is_new (after_use l r (Learned.At name)) r (Learned.At name) ≡ false }
    ensures characters { (l : Learning) (r : Room) → IsRoom l r →
        is_new (after_use l r Learned.Ch) r Learned.Ch ≡ false }
    ensures ends { (l : Learning) (r : Room) → IsRoom l r →
        is_new (after_use l r Learned.Ee) r Learned.Ee ≡ false }
{}

/// Law: a name's grammar has a number that it keeps, and with it the states that were made; a new
/// grammar changes no state that was made.
pub fn keeps_grammars()
    ensures made { (l : Learning) (name : NameId) →
        grammar_place (with_grammar l name) name ≡ Some (grammar_number l name) }
    ensures places { (l : Learning) (name other : NameId) (place : ℕ) →
        grammar_place l other ≡ Some place →
        grammar_place (with_grammar l name) other ≡ Some place }
    ensures places_after_use { (l : Learning) (r : Room) (used : Learned) (name : NameId) →
        grammar_place (after_use l r used) name ≡ grammar_place l name }
    ensures rooms { (l : Learning) (name : NameId) (r : Room) →
        IsRoom l r → IsRoom (with_grammar l name) r }
    ensures rooms_after_use { (l : Learning) (r other : Room) (used : Learned) →
        IsRoom l other → IsRoom (after_use l r used) other }
    ensures learned { (l : Learning) (name : NameId) (r : Room) →
        IsRoom l r → learned_in (with_grammar l name) r ≡ learned_in l r }
{}

/// Law: the rules of a state, each with the state behind it and the grammar that it opens, are those of its
/// productions, in their places; so what is read by productions is read by rules.
pub fn rules_are_productions()
    ensures { RulesAreProductions }
{}

/// Law: what reads an event is one of the two productions of its kind, so whoever asks for the codes of
/// these has left none out; and a production is looked for as itself.
pub fn reads_are_two()
    ensures reads { ReadsAreTwo }
    ensures read { TwoAreRead }
    ensures same { ItIsSame }
{}

/// Law: under no options is a group of the productions of a state left empty.
pub fn is_closed_up()
    ensures { (o : Options) (l : Learning) (r : Room) → IsClosedUp (productions o l r) }
{}
