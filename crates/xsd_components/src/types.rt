//! The types that a document names, and how each is derived.

ghost use Rattle.std.specs.Prelude.{◌≡◌, IfOk, Some};
ghost use Rattle.std.specs.Str.{bytes_eq};
ghost use Rattle.xsd_tree.specs.Trees.{xsd};
ghost use Rattle.xsd_components.specs.References.{base, built_in_of, complex_only, component_of, derivation, inline, is_simple, item, named_component, named_type, or_inline, simple_only, text_names, text_names_type, type_of_name};
ghost use Rattle.xsd_nodes.specs.Nodes.{child_of, text_at};

use crate::schema::Schema;
use crate::type_at::TypeAt;
use exi_names::{QName, Txt};
use std::alloc::{AllocError, Global};
use xsd_builtins::{ANY_TYPE, place_of};
use xsd_names::named;
use xsd_nodes::{AttributeName, Part, holder, is_at, is_part, is_text, text_at};

/// The namespace of XML Schema.
const XSD: &str = "http://www.w3.org/2001/XMLSchema";

/// Whether the name is of XML Schema.
fn is_of_xsd(name: &QName) -> bool
    ensures { result ≡ bytes_eq name.now.uri xsd }
{
    is_text(&name.uri, XSD)
}

/// The place of the built-in type of this name.
fn built_in_of(name: &QName) -> Option<u32>
    ensures { result ≡ built_in_of name.now }
{
    if is_of_xsd(name) {
        place_of(&name.local)
    } else {
        None
    }
}

impl<'a> Schema<'a> {
    /// The place of the component that a text in the element at a place names.
    ///
    /// # Errors
    ///
    /// `AllocError` where memory is refused.
    pub fn named_component(
        &self,
        alloc: Global,
        kind: &[Part],
        place: u32,
        text: &Txt,
    ) -> Result<Option<u32>, AllocError>
        ensures { IfOk result (λ c. c ≡ named_component self.now kind.now place text.now) }
    {
        match named(alloc, self.document().nodes(), place, text)? {
            Some(name) => Ok(self.component(kind, &name)),
            None => Ok(None),
        }
    }

    /// The place of the component that an attribute of the element at a place names; nothing where it has no such attribute.
    ///
    /// # Errors
    ///
    /// `AllocError` where memory is refused.
    pub fn text_names(
        &self,
        alloc: Global,
        kind: &[Part],
        place: u32,
        attribute: AttributeName,
    ) -> Result<Option<u32>, AllocError>
        ensures { IfOk result (λ c. c ≡ text_names self.now kind.now place (text_at self.now attribute place)) }
    {
        match text_at(self.document().nodes(), attribute, place) {
            Some(text) => self.named_component(alloc, kind, place, text),
            None => Ok(None),
        }
    }

    /// The type of this name: the built-in one, or else the first that is declared.
    pub fn type_of_name(&self, name: &QName) -> Option<TypeAt>
        ensures { result ≡ type_of_name self.now (Some name.now) }
    {
        match built_in_of(name) {
            Some(place) => Some(TypeAt::Built(place)),
            None => match self.component(&[Part::SimpleType, Part::ComplexType], name) {
                Some(place) => Some(TypeAt::Node(place)),
                None => None,
            },
        }
    }

    /// The type that a text in the element at a place names.
    ///
    /// # Errors
    ///
    /// `AllocError` where memory is refused.
    pub fn named_type(
        &self,
        alloc: Global,
        place: u32,
        text: &Txt,
    ) -> Result<Option<TypeAt>, AllocError>
        ensures { IfOk result (λ t. t ≡ named_type self.now place text.now) }
    {
        match named(alloc, self.document().nodes(), place, text)? {
            Some(name) => Ok(self.type_of_name(&name)),
            None => Ok(None),
        }
    }

    /// The type that an attribute of the element at a place names; nothing where it has no such attribute.
    ///
    /// # Errors
    ///
    /// `AllocError` where memory is refused.
    pub fn text_names_type(
        &self,
        alloc: Global,
        place: u32,
        attribute: AttributeName,
    ) -> Result<Option<TypeAt>, AllocError>
        ensures { IfOk result (λ t. t ≡ text_names_type self.now place (text_at self.now attribute place)) }
    {
        match text_at(self.document().nodes(), attribute, place) {
            Some(text) => self.named_type(alloc, place, text),
            None => Ok(None),
        }
    }

    /// Whether the type is simple.
    pub fn is_simple(&self, of: TypeAt) -> bool
        ensures { result ≡ is_simple self.now of }
    {
        match of {
            TypeAt::Built(place) => place != ANY_TYPE,
            TypeAt::Node(place) => !is_at(self.document().nodes(), Part::ComplexType, place),
        }
    }

    /// The type, where it is simple.
    pub fn simple_only(&self, of: Option<TypeAt>) -> Option<TypeAt>
        ensures { result ≡ simple_only self.now of }
    {
        match of {
            Some(simple) => {
                if self.is_simple(simple) {
                    Some(simple)
                } else {
                    None
                }
            }
            None => None,
        }
    }

    /// The type, where it is complex.
    pub fn complex_only(&self, of: Option<TypeAt>) -> Option<TypeAt>
        ensures { result ≡ complex_only self.now of }
    {
        match of {
            Some(complex) => {
                if self.is_simple(complex) {
                    None
                } else {
                    Some(complex)
                }
            }
            None => None,
        }
    }

    /// The place of the first of these parts that the element at a place holds, where there is such a place.
    fn child_of(&self, parts: &[Part], place: Option<u32>) -> Option<u32>
        ensures { result ≡ child_of self.now parts.now place }
    {
        match place {
            Some(place) => self.document().child(parts, place),
            None => None,
        }
    }

    /// The place of the element that says how the type of the element at a place is derived.
    pub fn derivation(&self, place: u32) -> Option<u32>
        ensures { result ≡ derivation self.now place }
    {
        let document = self.document();
        if is_at(document.nodes(), Part::SimpleType, place) {
            document.child(&[Part::Restriction, Part::List, Part::Union], place)
        } else if is_at(document.nodes(), Part::ComplexType, place) {
            let content = document.child(&[Part::SimpleContent, Part::ComplexContent], place);
            self.child_of(&[Part::Restriction, Part::Extension], content)
        } else if is_at(document.nodes(), Part::Restriction, place) {
            Some(place)
        } else {
            None
        }
    }

    /// The type that stands within the element at a place.
    pub fn inline(&self, place: u32) -> Option<TypeAt>
        ensures { result ≡ inline self.now place }
    {
        match self.document().child(&[Part::SimpleType], place) {
            Some(place) => Some(TypeAt::Node(place)),
            None => None,
        }
    }

    /// The type that an attribute of the element at a place names, or where it has no such attribute, the one that stands
    /// within.
    fn or_inline(
        &self,
        alloc: Global,
        place: u32,
        attribute: AttributeName,
    ) -> Result<Option<TypeAt>, AllocError>
        ensures { IfOk result (λ t. t ≡ or_inline self.now place (text_at self.now attribute place)) }
    {
        match text_at(self.document().nodes(), attribute, place) {
            Some(text) => self.named_type(alloc, place, text),
            None => Ok(self.inline(place)),
        }
    }

    /// The base of the restriction or extension at a place: the type that it names; in a simple type else the one that stands
    /// within. Where a simple or a complex type has to stand, another does not count.
    ///
    /// # Errors
    ///
    /// `AllocError` where memory is refused.
    pub fn base(&self, alloc: Global, place: u32) -> Result<Option<TypeAt>, AllocError>
        ensures { IfOk result (λ t. t ≡ base self.now place) }
    {
        let holder = holder(self.document().nodes(), place);
        if is_part(Part::SimpleType, holder) {
            let found = self.or_inline(alloc, place, AttributeName::Base)?;
            Ok(self.simple_only(found))
        } else if is_part(Part::ComplexContent, holder) {
            let found = self.text_names_type(alloc, place, AttributeName::Base)?;
            Ok(self.complex_only(found))
        } else {
            self.text_names_type(alloc, place, AttributeName::Base)
        }
    }

    /// The type of the items of the list at a place: the one that it names, or else the one that stands within.
    ///
    /// # Errors
    ///
    /// `AllocError` where memory is refused.
    pub fn item(&self, alloc: Global, place: u32) -> Result<Option<TypeAt>, AllocError>
        ensures { IfOk result (λ t. t ≡ item self.now place) }
    {
        let found = self.or_inline(alloc, place, AttributeName::ItemType)?;
        Ok(self.simple_only(found))
    }
}
