//! The states of the options document.

ghost use Rattle.std.specs.Prelude.{◌≡◌, ◌≤◌, length};
ghost use Rattle.exi_options.specs.Document.{codes};

use exi_bits::Part;
use exi_gram::OptionFlags;

/// An element or an attribute of the options document that holds others, or a boolean.
#[derive(Clone, Copy, Debug, PartialEq, Eq)]
pub enum Element {
    /// All of them.
    Header,
    /// What is told seldom.
    Lesscommon,
    /// What is told more seldom.
    Uncommon,
    /// How the numbers of the stream lie.
    Alignment,
    /// What is preserved.
    Preserve,
    /// What is told often.
    Common,
    /// That there is no schema: the attribute `xsi:nil`.
    Nil,
}

/// What a code of the options document stands for.
#[derive(Clone, Copy, Debug, PartialEq, Eq)]
pub enum Sign {
    /// The start of an element that holds others.
    Opens(Element),
    /// The end of an element.
    Ends,
    /// An empty element that switches an option on.
    Switch(OptionFlags),
    /// The empty element that tells a byte-aligned stream.
    Byte,
    /// The size of blocks; an Unsigned Integer follows.
    BlockSize,
    /// The most characters of a value that the string tables take; an Unsigned Integer follows.
    ValueMaxLength,
    /// How many values the string tables hold; an Unsigned Integer follows.
    ValuePartitionCapacity,
    /// The start of the element that names the schema.
    SchemaId,
    /// The schema's name; a string follows.
    Text,
    /// That `xsi:nil` is false.
    False,
    /// That `xsi:nil` is true: there is no schema.
    True,
    /// A part that is not supported.
    Refused(Part),
}

/// Where in the options document a code stands: in an element, or behind an element in it.
#[derive(Clone, Copy, Debug, PartialEq, Eq)]
pub enum State {
    Document,
    Header,
    HeaderAfterLesscommon,
    HeaderAfterCommon,
    HeaderAfterStrict,
    Lesscommon,
    LesscommonAfterUncommon,
    LesscommonAfterPreserve,
    LesscommonAfterBlockSize,
    Uncommon,
    UncommonAfterAlignment,
    UncommonAfterSelfContained,
    UncommonAfterValueMaxLength,
    UncommonAfterValuePartitionCapacity,
    Alignment,
    AlignmentAfterByte,
    Preserve,
    PreserveAfterDtd,
    PreserveAfterPrefixes,
    PreserveAfterComments,
    PreserveAfterPis,
    Common,
    CommonAfterFragment,
    CommonAfterSchemaId,
    SchemaId,
    Nil,
    End,
}

/// What a code stands for, and the state behind it.
pub type Code = (Sign, State);

const DOCUMENT: [Code; 2] = [
    (Sign::Opens(Element::Header), State::Header),
    (Sign::Refused(Part::Root), State::End),
];

const HEADER: [Code; 4] = [
    (Sign::Opens(Element::Lesscommon), State::Lesscommon),
    (Sign::Opens(Element::Common), State::Common),
    (Sign::Switch(OptionFlags::STRICT), State::HeaderAfterStrict),
    (Sign::Ends, State::End),
];

const LESSCOMMON: [Code; 4] = [
    (Sign::Opens(Element::Uncommon), State::Uncommon),
    (Sign::Opens(Element::Preserve), State::Preserve),
    (Sign::BlockSize, State::LesscommonAfterBlockSize),
    (Sign::Ends, State::HeaderAfterLesscommon),
];

/// At the start, where any other element may stand before the rest.
const UNCOMMON: [Code; 7] = [
    (Sign::Opens(Element::Alignment), State::Alignment),
    (
        Sign::Switch(OptionFlags::SELF_CONTAINED),
        State::UncommonAfterSelfContained,
    ),
    (Sign::ValueMaxLength, State::UncommonAfterValueMaxLength),
    (
        Sign::ValuePartitionCapacity,
        State::UncommonAfterValuePartitionCapacity,
    ),
    (Sign::Refused(Part::DatatypeMap), State::End),
    (Sign::Refused(Part::Metadata), State::End),
    (Sign::Ends, State::LesscommonAfterUncommon),
];

/// Behind the alignment.
const UNCOMMON_AFTER: [Code; 5] = [
    (
        Sign::Switch(OptionFlags::SELF_CONTAINED),
        State::UncommonAfterSelfContained,
    ),
    (Sign::ValueMaxLength, State::UncommonAfterValueMaxLength),
    (
        Sign::ValuePartitionCapacity,
        State::UncommonAfterValuePartitionCapacity,
    ),
    (Sign::Refused(Part::DatatypeMap), State::End),
    (Sign::Ends, State::LesscommonAfterUncommon),
];

const ALIGNMENT: [Code; 2] = [
    (Sign::Byte, State::AlignmentAfterByte),
    (Sign::Refused(Part::PreCompress), State::End),
];

const ALIGNMENT_AFTER: [Code; 1] = [(Sign::Ends, State::UncommonAfterAlignment)];

const PRESERVE: [Code; 6] = [
    (Sign::Switch(OptionFlags::DTD), State::PreserveAfterDtd),
    (
        Sign::Switch(OptionFlags::PREFIXES),
        State::PreserveAfterPrefixes,
    ),
    (Sign::Refused(Part::LexicalValues), State::End),
    (
        Sign::Switch(OptionFlags::COMMENTS),
        State::PreserveAfterComments,
    ),
    (Sign::Switch(OptionFlags::PIS), State::PreserveAfterPis),
    (Sign::Ends, State::LesscommonAfterPreserve),
];

const COMMON: [Code; 4] = [
    (Sign::Refused(Part::Compression), State::End),
    (
        Sign::Switch(OptionFlags::FRAGMENT),
        State::CommonAfterFragment,
    ),
    (Sign::SchemaId, State::SchemaId),
    (Sign::Ends, State::HeaderAfterCommon),
];

const SCHEMA_ID: [Code; 2] = [
    (Sign::Text, State::CommonAfterSchemaId),
    (Sign::Opens(Element::Nil), State::Nil),
];

const NIL: [Code; 2] = [
    (Sign::False, State::SchemaId),
    (Sign::True, State::CommonAfterSchemaId),
];

impl State {
    /// The codes of the state, numbered from 0; there is none at the end of the document.
    #[tactic(auto, unfolding(crate::specs::Document::codes))]
    pub fn codes(self) -> &'static [Code]
        ensures codes { result.now ≡ codes self }
        ensures few { length result.now ≤ 7 }
    {
        match self {
            State::Document => &DOCUMENT,
            State::Header => &HEADER,
            State::HeaderAfterLesscommon => &HEADER[1..],
            State::HeaderAfterCommon => &HEADER[2..],
            State::HeaderAfterStrict => &HEADER[3..],
            State::Lesscommon => &LESSCOMMON,
            State::LesscommonAfterUncommon => &LESSCOMMON[1..],
            State::LesscommonAfterPreserve => &LESSCOMMON[2..],
            State::LesscommonAfterBlockSize => &LESSCOMMON[3..],
            State::Uncommon => &UNCOMMON,
            State::UncommonAfterAlignment => &UNCOMMON_AFTER,
            State::UncommonAfterSelfContained => &UNCOMMON_AFTER[1..],
            State::UncommonAfterValueMaxLength => &UNCOMMON_AFTER[2..],
            State::UncommonAfterValuePartitionCapacity => &UNCOMMON_AFTER[3..],
            State::Alignment => &ALIGNMENT,
            State::AlignmentAfterByte => &ALIGNMENT_AFTER,
            State::Preserve => &PRESERVE,
            State::PreserveAfterDtd => &PRESERVE[1..],
            State::PreserveAfterPrefixes => &PRESERVE[2..],
            State::PreserveAfterComments => &PRESERVE[4..],
            State::PreserveAfterPis => &PRESERVE[5..],
            State::Common => &COMMON,
            State::CommonAfterFragment => &COMMON[2..],
            State::CommonAfterSchemaId => &COMMON[3..],
            State::SchemaId => &SCHEMA_ID,
            State::Nil => &NIL,
            State::End => &[],
        }
    }
}
