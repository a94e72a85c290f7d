ghost use Rattle.std.specs.Prelude.{◌≡◌, [], ◌∷◌};
ghost use Rattle.exi_builtin.specs.LeastCodes.{general, special};

use crate::learnable::Learnable;
use exi_names::NameId;

/// What an event is, as far as a code tells it (EXI 1.0, section 4).
#[derive(Clone, Copy, Debug, PartialEq, Eq)]
pub enum EventKind {
    /// The start of an element of this name.
    Element(NameId),
    /// An attribute of this name.
    Attribute(NameId),
    /// Characters.
    Characters,
    /// The end of an element.
    EndElement,
    /// The end of the fragment.
    EndDocument,
    /// A namespace declaration.
    Namespace,
    /// A self-contained fragment.
    SelfContained,
    /// An entity reference.
    Entity,
    /// A comment.
    Comment,
    /// A processing instruction.
    Instruction,
}

impl EventKind {
    /// The productions that read such an event: the one for it alone, which was learned or has a code of
    /// one part, and then the one for all events of its kind. They may be the same.
    pub fn productions(self) -> [Learnable; 2]
        ensures { result ≡ special self ∷ general self ∷ [] }
    {
        match self {
            EventKind::Element(name) => [Learnable::Known(name, false), Learnable::SeAny],
            EventKind::Attribute(name) => [Learnable::Known(name, true), Learnable::AtAny],
            EventKind::Characters => [Learnable::Ch(true), Learnable::Ch(false)],
            EventKind::EndElement => [Learnable::Ee(true), Learnable::Ee(false)],
            EventKind::EndDocument => [Learnable::Ed, Learnable::Ed],
            EventKind::Namespace => [Learnable::Ns, Learnable::Ns],
            EventKind::SelfContained => [Learnable::Sc, Learnable::Sc],
            EventKind::Entity => [Learnable::Er, Learnable::Er],
            EventKind::Comment => [Learnable::Cm, Learnable::Cm],
            EventKind::Instruction => [Learnable::Pi, Learnable::Pi],
        }
    }
}
