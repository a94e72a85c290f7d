ghost use Rattle.std.specs.Prelude.{◌≡◌, ◌<◌, ◌^◌, [], ◌∷◌, ◌++◌, true, false, Some, MatchOption, IfOk, OnOk, OnErr, length, option_map};
ghost use Rattle.exi_lexical.specs.Values.{value};
ghost use Rattle.exi_names.specs.Datatypes.{list, represented, text};
ghost use Rattle.exi_names.specs.Forms.{int_of};
ghost use Rattle.exi_names.specs.Seen.{seen};
ghost use Rattle.xsd_bounds.specs.Bounds.{integer_in};
ghost use Rattle.xsd_model.specs.Parts.{AreForms, representations};
ghost use Rattle.xsd_restrictions.specs.Restrictions.{form_at, is_list};

use exi_gram::Items;
use exi_lexical::value_of;
use exi_names::{Datatype, Txt, Val, Whole};
use std::alloc::{AllocError, Global};
use std::marker::Model;
use xsd_model::Form;

/// How the values of simple types are represented, each representation at its place.
#[derive(Debug, Drop)]
pub struct Forms {
    forms: Items<Form>,
}

impl Model for Forms {
    ghost use Rattle.std.specs.Prelude.{List};
    ghost use Rattle.exi_names.specs.Datatypes.{Representation};
    ghost use Rattle.xsd_model.specs.Parts.{AreForms, representations};

    ghost Value = { List Representation };

    ghost use Rattle.exi_names.proofs.Codes.{representation_code};
    ghost use Rattle.std.specs.Coded.{coded_list};

    ghost coded = { coded_list representation_code };

    ghost view = { λ f. representations f.forms };

    ghost invariant = { λ f. AreForms 0 f.forms };
}

/// The value, where it is an integer.
fn integer(value: &Val) -> Option<Whole>
    ensures { option_map int_of result ≡ integer_in (Some (seen value.now)) }
{
    match value {
        Val::Int(n) => Some(Whole::new(n.minus, n.size)),
        Val::Text(_)
        | Val::Bool { .. }
        | Val::Dec { .. }
        | Val::Flo { .. }
        | Val::Mom(_)
        | Val::Bin { .. }
        | Val::Items(_)
        | Val::Name(_) => None,
    }
}

/// The integer that a text is as a datatype has it.
fn integer_as(alloc: Global, datatype: &Datatype, text: &Txt) -> Result<Option<Whole>, AllocError>
    ensures { IfOk result (λ n. option_map int_of n ≡ integer_in (value (represented datatype.now) text.now)) }
{
    match value_of(alloc, datatype, text)? {
        Some(value) => Ok(integer(&value)),
        None => Ok(None),
    }
}

impl Forms {
    /// No representations.
    pub fn new(alloc: Global) -> Forms
        ensures { result ≡ [] }
    {
        Forms {
            forms: Items::new(alloc),
        }
    }

    /// How many there are.
    pub fn len(&self) -> usize
        ensures { result ≡ length self.now }
    {
        self.forms.as_slice().len()
    }

    /// Puts a datatype that is no list at the end. Its place is the answer.
    ///
    /// # Errors
    ///
    /// `AllocError` where memory is refused; the forms are then unchanged.
    pub fn push_item(&mut self, datatype: Datatype) -> Result<u32, AllocError>
        requires few { length self.old < 2 ^ 32 }
        ensures place { IfOk result (λ i. i ≡ length self.old) }
        ensures ok { OnOk result (self.new ≡ self.old ++ represented datatype ∷ []) }
        ensures err { OnErr result (self.new ≡ self.old) }
    {
        let place = self.len() as u32;
        self.forms.push(Form::Item(datatype))?;
        Ok(place)
    }

    /// Puts the form of strings at the end. Its place is the answer.
    pub(crate) fn push_text(&mut self) -> Result<u32, AllocError>
        requires few { length self.old < 2 ^ 32 }
        ensures place { IfOk result (λ i. i ≡ length self.old) }
        ensures ok { OnOk result (self.new ≡ self.old ++ text ∷ []) }
        ensures err { OnErr result (self.new ≡ self.old) }
    {
        self.push_item(Datatype::Text)
    }

    /// Puts the list of items of the form at a place at the end. Its place is the answer.
    ///
    /// # Errors
    ///
    /// `AllocError` where memory is refused; the forms are then unchanged.
    pub fn push_list(&mut self, item: u32) -> Result<u32, AllocError>
        requires few { length self.old < 2 ^ 32 }
        requires there { item < length self.old }
        ensures place { IfOk result (λ i. i ≡ length self.old) }
        ensures ok { OnOk result (self.new ≡ self.old ++ list (form_at self.old item) ∷ []) }
        ensures err { OnErr result (self.new ≡ self.old) }
    {
        let place = self.len() as u32;
        self.forms.push(Form::List(item))?;
        Ok(place)
    }

    /// The datatype of the form at a place, where it is no list.
    fn datatype(&self, place: u32) -> Option<&Datatype>
        requires there { place < length self.now }
        ensures { MatchOption result (is_list (form_at self.now place) ≡ true) (λ d. form_at self.now place ≡ represented d.now) }
    {
        match &self.forms.as_slice()[place as usize] {
            Form::Item(datatype) => Some(datatype),
            Form::List(_) => None,
        }
    }

    /// The value of a text as the form at a place has it, which is no list.
    ///
    /// # Errors
    ///
    /// `AllocError` where memory is refused.
    pub fn value(&self, alloc: Global, place: u32, text: &Txt) -> Result<Option<Val>, AllocError>
        requires there { place < length self.now }
        requires item { is_list (form_at self.now place) ≡ false }
        ensures { IfOk result (λ v. option_map seen v ≡ value (form_at self.now place) text.now) }
    {
        match self.datatype(place) {
            Some(datatype) => value_of(alloc, datatype, text),
            None => Ok(None),
        }
    }

    /// The integer that a text is as the form at a place has it; a list is none.
    ///
    /// # Errors
    ///
    /// `AllocError` where memory is refused.
    pub fn integer(
        &self,
        alloc: Global,
        place: u32,
        text: &Txt,
    ) -> Result<Option<Whole>, AllocError>
        requires there { place < length self.now }
        ensures { IfOk result (λ n. option_map int_of n ≡ integer_in (value (form_at self.now place) text.now)) }
    {
        match self.datatype(place) {
            Some(datatype) => integer_as(alloc, datatype, text),
            None => Ok(None),
        }
    }

    /// The forms.
    pub fn into_items(self) -> Items<Form>
        ensures forms { representations result ≡ self }
        ensures before { AreForms 0 result }
    {
        self.forms
    }
}
