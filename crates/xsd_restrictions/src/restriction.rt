//! What a restriction is, given its base.

ghost use Rattle.std.specs.Prelude.{◌≡◌, ◌<◌, ◌^◌, ◌||◌, false, Some, IfOk, [], ◌∷◌, length, option_to_list};
ghost use Rattle.std.specs.List.{flat_map};
ghost use Rattle.exi_names.specs.Datatypes.{choice, represented};
ghost use Rattle.xsd_nodes.specs.Nodes.{children};
ghost use Rattle.xsd_nodes.specs.declared.part.Part.TheVariants as part;
ghost use Rattle.xsd_restrictions.specs.declared.entry.Kind.TheVariants as kind;
ghost use Rattle.xsd_restrictions.specs.Entries.{Grew, IsEntry, is_plain, simple_at};
ghost use Rattle.xsd_restrictions.specs.Restrictions.{facet_value, form_of, is_some_facet, letters_or, narrowed, plain_form, restricted, with_values};

use crate::entry::{Entry, Kind, with_plain};
use crate::facets::{least_at, letters_at, most_at, values_at};
use crate::forms::Forms;
use exi_names::{Alphabet, Datatype};
use std::alloc::{AllocError, Global};
use xsd_document::Document;
use xsd_nodes::Part;

/// The base with the bounds and the patterns of the restriction at a place.
fn narrowed(
    alloc: Global,
    document: &Document<'_>,
    forms: &Forms,
    place: u32,
    base: &Entry,
) -> Result<Entry, AllocError>
    requires base { IsEntry forms.now base.now }
    ensures simple { IfOk result (λ e. simple_at forms.now e ≡ narrowed document.now place (simple_at forms.now base.now)) }
    ensures kind { IfOk result (λ e. e.kind ≡ base.now.kind) }
    ensures enumerated { IfOk result (λ e. e.enumerated ≡ base.now.enumerated) }
    ensures form { IfOk result (λ e. e.form ≡ base.now.form) }
    // where its form does not change, it has it
    ensures kept { IfOk result (λ e. is_plain base.now ≡ false → IsEntry forms.now e) }
{
    let (patterned, letters) = letters_of_step(alloc, document, place, base)?;
    Ok(Entry {
        kind: base.kind,
        family: base.family,
        least: least_at(alloc, document, forms, base.form, place, base.least)?,
        most: most_at(alloc, document, forms, base.form, place, base.most)?,
        patterned,
        letters,
        enumerated: base.enumerated,
        form: base.form,
    })
}

/// Whether there is a pattern, at the restriction at a place or before, and the characters that the last patterns leave.
fn letters_of_step(
    alloc: Global,
    document: &Document<'_>,
    place: u32,
    base: &Entry,
) -> Result<(bool, Option<Alphabet>), AllocError>
    ensures patterned { IfOk result (λ r. r.0 ≡ (base.now.patterned || is_some_facet (children document.now (part.Pattern ∷ []) place))) }
    ensures letters { IfOk result (λ r. r.1 ≡ letters_or document.now base.now.letters (children document.now (part.Pattern ∷ []) place)) }
{
    let facets = document.children(alloc, &[Part::Pattern], place)?;
    if facets.is_empty() {
        let letters = match &base.letters {
            Some(letters) => Some(letters.copy()?),
            None => None,
        };
        return Ok((base.patterned, letters));
    }
    let letters = letters_at(alloc, document.nodes(), facets.as_slice())?;
    Ok((true, letters.into_alphabet(alloc)?))
}

/// The enumeration of facets on a base that is atomic.
fn choice(
    alloc: Global,
    document: &Document<'_>,
    forms: &Forms,
    facets: &[u32],
    base: &Entry,
) -> Result<Datatype, AllocError>
    requires base { IsEntry forms.now base.now }
    requires atomic { base.now.kind ≡ kind.Atomic }
    ensures { IfOk result (λ d. represented d ≡ choice (plain_form (simple_at forms.now base.now)) (flat_map (λ f. option_to_list (facet_value document.now (form_of (simple_at forms.now base.now)) f)) facets.now)) }
{
    let values = values_at(alloc, document.nodes(), forms, base.form, facets)?;
    Ok(Datatype::Choice {
        base: Box::new(alloc, base.plain()?)?,
        values,
    })
}

/// An atomic type with the enumeration of facets on its base.
fn with_choice(
    alloc: Global,
    document: &Document<'_>,
    forms: &mut Forms,
    facets: &[u32],
    base: &Entry,
    narrowed: Entry,
) -> Result<Entry, AllocError>
    requires few { length forms.old < 2 ^ 32 }
    requires base { IsEntry forms.old base.now }
    requires atomic { base.now.kind ≡ kind.Atomic }
    requires same { narrowed.kind ≡ base.now.kind }
    ensures simple { IfOk result (λ e. simple_at forms.new e ≡ with_values (Some (plain_form (simple_at forms.old base.now), flat_map (λ f. option_to_list (facet_value document.now (form_of (simple_at forms.old base.now)) f)) facets.now)) (simple_at forms.old narrowed)) }
    ensures kept { IfOk result (λ e. IsEntry forms.new e) }
    ensures more { Grew forms.old forms.new }
{
    let datatype = choice(alloc, document, forms, facets, base)?;
    let form = forms.push_item(datatype)?;
    Ok(Entry {
        enumerated: true,
        form,
        ..narrowed
    })
}

/// What the restriction at a place is, given its base.
///
/// # Errors
///
/// `AllocError` where memory is refused.
pub fn restrict(
    alloc: Global,
    document: &Document<'_>,
    forms: &mut Forms,
    place: u32,
    base: &Entry,
) -> Result<Entry, AllocError>
    requires few { length forms.old < 2 ^ 32 }
    requires base { IsEntry forms.old base.now }
    ensures simple { IfOk result (λ e. simple_at forms.new e ≡ restricted document.now place (simple_at forms.old base.now)) }
    ensures kept { IfOk result (λ e. IsEntry forms.new e) }
    ensures more { Grew forms.old forms.new }
{
    let narrowed = narrowed(alloc, document, forms, place, base)?;
    match base.kind {
        Kind::Listed | Kind::United => Ok(narrowed),
        Kind::Atomic => {
            let facets = document.children(alloc, &[Part::Enumeration], place)?;
            if !facets.is_empty() {
                with_choice(alloc, document, forms, facets.as_slice(), base, narrowed)
            } else if base.enumerated {
                Ok(narrowed)
            } else {
                with_plain(forms, narrowed)
            }
        }
    }
}
