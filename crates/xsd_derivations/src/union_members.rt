//! The member types of a union.

ghost use Rattle.std.specs.Prelude.{◌≡◌, true, [], ◌∷◌, ◌++◌, ◌<◌, IfOk, IfSome, MatchOption, length, map};
ghost use Rattle.exi_lexical.specs.Spaces.{IsBehindWord, has_no_space, is_space, words, without_front};
ghost use Rattle.xsd_derivations.specs.Derivations.{member_named, members, named_members};

use std::alloc::{AllocError, Global};
use xsd_components::{Schema, TypeAt};
use xsd_names::{letters_of, text_of};
use xsd_nodes::{AttributeName, Part, text_at};

/// Whether this is a tab, a line feed, a carriage return or a space.
#[tactic(auto, unfolding(exi_lexical::specs::Spaces::is_space))]
fn is_white(c: char) -> bool
    ensures { result ≡ is_space c }
{
    matches!(c as u32, 9 | 10 | 13 | 32)
}

/// The characters from the first on that is no white space.
fn skip_front(letters: &[char]) -> &[char]
    ensures { result.now ≡ without_front letters.now }
{
    for (index, c) in letters.iter().enumerate() {
        if !is_white(*c) {
            return &letters[index..];
        }
    }
    &[]
}

/// The characters up to the first white space, and what follows.
fn cut(letters: &[char]) -> (&[char], &[char])
    ensures parts { letters.now ≡ result.0.now ++ result.1.now }
    ensures word { has_no_space result.0.now ≡ true }
    ensures rest { IsBehindWord result.1.now }
{
    for (index, c) in letters.iter().enumerate() {
        if is_white(*c) {
            return letters.split_at(index);
        }
    }
    (letters, &[])
}

/// The first word and what follows it, and nothing where there is only white space.
fn next_word(letters: &[char]) -> Option<(&[char], &[char])>
    ensures words { MatchOption result (words letters.now ≡ []) (λ p. words letters.now ≡ p.0.now ∷ words p.1.now) }
    ensures shorter { IfSome result (λ p. length p.1.now < length letters.now) }
{
    let rest = skip_front(letters);
    if rest.is_empty() {
        return None;
    }
    Some(cut(rest))
}

/// The simple types that the words name in the element at a place.
fn named_in(
    alloc: Global,
    schema: &Schema<'_>,
    place: u32,
    letters: &[char],
) -> Result<Vec<Option<TypeAt>>, AllocError>
    ensures { IfOk result (λ v. v.items ≡ map (member_named schema.now place) (words letters.now)) }
{
    let mut found = Vec::new(alloc);
    let mut rest = letters;
    while let Some((word, behind)) = next_word(rest) {
        let text = text_of(alloc, word)?;
        let named = schema.named_type(alloc, place, &text)?;
        found.push(schema.simple_only(named))?;
        rest = behind;
    }
    Ok(found)
}

/// The member types that a union names.
fn named_members(
    alloc: Global,
    schema: &Schema<'_>,
    place: u32,
) -> Result<Vec<Option<TypeAt>>, AllocError>
    ensures { IfOk result (λ v. v.items ≡ named_members schema.now place) }
{
    match text_at(schema.document().nodes(), AttributeName::MemberTypes, place) {
        Some(text) => {
            let letters = letters_of(alloc, text)?;
            named_in(alloc, schema, place, letters.as_slice())
        }
        None => named_in(alloc, schema, place, &[]),
    }
}

/// The member types of the union at a place: those that it names, and then those that stand within.
///
/// # Errors
///
/// `AllocError` where memory is refused.
pub fn members(
    alloc: Global,
    schema: &Schema<'_>,
    place: u32,
) -> Result<Vec<Option<TypeAt>>, AllocError>
    ensures { IfOk result (λ v. v.items ≡ members schema.now place) }
{
    let mut found = named_members(alloc, schema, place)?;
    let held = schema
        .document()
        .children(alloc, &[Part::SimpleType], place)?;
    for child in held.as_slice() {
        found.push(Some(TypeAt::Node(*child)))?;
    }
    Ok(found)
}
