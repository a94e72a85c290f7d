ghost use Rattle.std.specs.Prelude.{◌≡◌, ◌+◌, ◌<◌, ◌^◌, false, IfOk, None, length, option_map};
ghost use Rattle.exi_names.specs.Datatypes.{represented, text};
ghost use Rattle.xsd_bounds.specs.Bounds.{stands_at};
ghost use Rattle.xsd_bounds.specs.Plain.{family_form, least_of, most_of};
ghost use Rattle.xsd_restrictions.specs.declared.entry.Kind.TheVariants as kind;
ghost use Rattle.xsd_restrictions.specs.Entries.{Grew, IsEntry, simple_at};
ghost use Rattle.xsd_restrictions.specs.Restrictions.{any_simple_but, atomic, built_in_simple, family_but, form_at, listed, united};

use crate::forms::Forms;
use exi_names::{Alphabet, Datatype};
use std::alloc::AllocError;
use xsd_bounds::{Bound, family_form, least_of, most_of};
use xsd_builtins::{Family, family_of};

/// How the values of a simple type are put together.
#[derive(Clone, Copy, Debug, PartialEq, Eq)]
pub enum Kind {
    /// Each is one value.
    Atomic,
    /// Each is a list of items.
    Listed,
    /// Each is a value of one of several types.
    United,
}

/// A simple type.
#[derive(Debug, Drop)]
pub struct Entry {
    /// How its values are put together.
    pub kind: Kind,
    /// Those of the built-in type that its derivation begins with.
    pub family: Family,
    /// The least integer, where there is one.
    pub least: Option<Bound>,
    /// The greatest integer, where there is one.
    pub most: Option<Bound>,
    /// Whether a step of its derivation has a pattern.
    pub patterned: bool,
    /// The characters that patterns leave, where they leave a set.
    pub letters: Option<Alphabet>,
    /// Whether its values are enumerated, and it is atomic.
    pub enumerated: bool,
    /// The place of how its values are represented.
    pub form: u32,
}

impl Entry {
    /// The datatype of its values where they are not enumerated.
    ///
    /// # Errors
    ///
    /// `AllocError` where memory is refused.
    pub(crate) fn plain(&self) -> Result<Datatype, AllocError>
        ensures { IfOk result (λ d. represented d ≡ family_form (option_map stands_at self.now.least) (option_map stands_at self.now.most) self.now.patterned self.now.letters self.now.family) }
    {
        family_form(
            self.family,
            self.least,
            self.most,
            self.patterned,
            &self.letters,
        )
    }
}

/// An entry of a kind and a family with the bounds of a built-in type, represented as the form at a place.
fn entry_of(kind: Kind, family: Family, form: u32) -> Entry
    ensures kind { result.kind ≡ kind }
    ensures family { result.family ≡ family }
    ensures least { option_map stands_at result.least ≡ least_of family }
    ensures most { option_map stands_at result.most ≡ most_of family }
    ensures patterned { result.patterned ≡ false }
    ensures letters { result.letters ≡ None }
    ensures enumerated { result.enumerated ≡ false }
    ensures form { result.form ≡ form }
{
    Entry {
        kind,
        family,
        least: least_of(family),
        most: most_of(family),
        patterned: false,
        letters: None,
        enumerated: false,
        form,
    }
}

/// An atomic type without an enumeration, by its bounds and patterns.
pub(crate) fn with_plain(forms: &mut Forms, narrowed: Entry) -> Result<Entry, AllocError>
    requires few { length forms.old < 2 ^ 32 }
    requires atomic { narrowed.kind ≡ kind.Atomic }
    requires plain { narrowed.enumerated ≡ false }
    ensures simple { IfOk result (λ e. simple_at forms.new e ≡ simple_at forms.old narrowed) }
    ensures kept { IfOk result (λ e. IsEntry forms.new e) }
    ensures more { Grew forms.old forms.new }
{
    let datatype = narrowed.plain()?;
    let form = forms.push_item(datatype)?;
    Ok(Entry { form, ..narrowed })
}

/// An atomic type of a family: its form goes behind the others.
fn plain_entry(forms: &mut Forms, family: Family) -> Result<Entry, AllocError>
    requires few { length forms.old < 2 ^ 32 }
    ensures simple { IfOk result (λ e. simple_at forms.new e ≡ family_but atomic family) }
    ensures kept { IfOk result (λ e. IsEntry forms.new e) }
    ensures more { Grew forms.old forms.new }
{
    with_plain(forms, entry_of(Kind::Atomic, family, 0))
}

/// A type of a family whose values are lists of strings.
fn strings_entry(forms: &mut Forms, family: Family) -> Result<Entry, AllocError>
    requires few { length forms.old + 1 < 2 ^ 32 }
    ensures simple { IfOk result (λ e. simple_at forms.new e ≡ family_but (listed text) family) }
    ensures kept { IfOk result (λ e. IsEntry forms.new e) }
    ensures more { Grew forms.old forms.new }
{
    let item = forms.push_text()?;
    let form = forms.push_list(item)?;
    Ok(entry_of(Kind::Listed, family, form))
}

/// The built-in type at a place.
///
/// # Errors
///
/// `AllocError` where memory is refused.
pub fn built_in(forms: &mut Forms, place: u32) -> Result<Entry, AllocError>
    requires few { length forms.old + 1 < 2 ^ 32 }
    ensures simple { IfOk result (λ e. simple_at forms.new e ≡ built_in_simple place) }
    ensures kept { IfOk result (λ e. IsEntry forms.new e) }
    ensures more { Grew forms.old forms.new }
{
    match family_of(place) {
        Family::Lists => strings_entry(forms, Family::Lists),
        family => plain_entry(forms, family),
    }
}

/// A type of which nothing is known but that its values are single.
///
/// # Errors
///
/// `AllocError` where memory is refused.
pub fn unknown(forms: &mut Forms) -> Result<Entry, AllocError>
    requires few { length forms.old < 2 ^ 32 }
    ensures simple { IfOk result (λ e. simple_at forms.new e ≡ any_simple_but atomic) }
    ensures kept { IfOk result (λ e. IsEntry forms.new e) }
    ensures more { Grew forms.old forms.new }
{
    plain_entry(forms, Family::Others)
}

/// A union: its values are strings.
///
/// # Errors
///
/// `AllocError` where memory is refused.
pub fn union(forms: &mut Forms) -> Result<Entry, AllocError>
    requires few { length forms.old < 2 ^ 32 }
    ensures simple { IfOk result (λ e. simple_at forms.new e ≡ any_simple_but united) }
    ensures kept { IfOk result (λ e. IsEntry forms.new e) }
    ensures more { Grew forms.old forms.new }
{
    let form = forms.push_text()?;
    Ok(entry_of(Kind::United, Family::Others, form))
}

/// A type whose values are lists of those of the form at a place.
///
/// # Errors
///
/// `AllocError` where memory is refused.
pub fn list_of(forms: &mut Forms, item: u32) -> Result<Entry, AllocError>
    requires few { length forms.old < 2 ^ 32 }
    requires there { item < length forms.old }
    ensures simple { IfOk result (λ e. simple_at forms.new e ≡ any_simple_but (listed (form_at forms.old item))) }
    ensures kept { IfOk result (λ e. IsEntry forms.new e) }
    ensures more { Grew forms.old forms.new }
{
    let form = forms.push_list(item)?;
    Ok(entry_of(Kind::Listed, Family::Others, form))
}
