ghost use Rattle.std.specs.Prelude.{◌≡◌, IfOk};
ghost use Rattle.exi_gram.specs.Switches.{align_of, conflicts, default_options};
ghost use Rattle.exi_gram.specs.Terminals.{is_left, symbol};

use crate::terminal::Terminal;
use bitflags::{Flag, Flags, bitflag_items};
use exi_bits::Align;
use exi_names::Txt;
use std::alloc::AllocError;

/// Which options of the stream are on (EXI 1.0, section 5.4).
#[derive(Clone, Copy, PartialEq, Eq, Debug)]
pub struct OptionFlags(u8);

bitflag_items! {
    impl OptionFlags: u8 {
        const STRICT = 1;
        const FRAGMENT = 2;
        const SELF_CONTAINED = 4;
        const BYTES = 8;
        const COMMENTS = 16;
        const PIS = 32;
        const DTD = 64;
        const PREFIXES = 128;
    }
}

impl Flags for OptionFlags {
    type Bits = u8;

    ghost use Rattle.std.specs.Prelude.{⊤, [], ◌∷◌, codes};

    ghost exact = { ⊤ };

    ghost table = { (codes "STRICT", 1)
        ∷ (codes "FRAGMENT", 2)
        ∷ (codes "SELF_CONTAINED", 4)
        ∷ (codes "BYTES", 8)
        ∷ (codes "COMMENTS", 16)
        ∷ (codes "PIS", 32)
        ∷ (codes "DTD", 64)
        ∷ (codes "PREFIXES", 128)
        ∷ [] };

    ghost set_of = { λ f. f.0 };

    fn flags<'a>() -> &'a [Flag<OptionFlags>] {
        OptionFlags::FLAGS
    }

    fn bits(&self) -> u8 {
        self.0
    }

    fn from_bits_retain(bits: u8) -> OptionFlags {
        OptionFlags(bits)
    }
}

/// What the header says of the schema (EXI 1.0, section 5.4, schemaId).
#[derive(Debug, Drop)]
pub enum SchemaWord {
    /// Nothing.
    Absent,
    /// That there is none.
    Nil,
    /// Its name.
    Id(Txt),
}

/// The options of a stream (EXI 1.0, section 5.4).
#[derive(Debug, Drop)]
pub struct Options {
    /// Which are on.
    pub flags: OptionFlags,
    /// What is said of the schema.
    pub schema: SchemaWord,
    /// The block size; without effect where nothing is compressed.
    pub block: u128,
    /// The most characters of a value that the string tables take (valueMaxLength); unbounded where absent.
    pub most: Option<u128>,
    /// How many values the string tables hold (valuePartitionCapacity); unbounded where absent.
    pub capacity: Option<u128>,
}

impl SchemaWord {
    /// Another that is equal to this one.
    ///
    /// # Errors
    ///
    /// `AllocError` where memory is refused.
    pub fn copy(&self) -> Result<SchemaWord, AllocError>
        ensures { IfOk result (λ w. w ≡ self.now) }
    {
        match self {
            SchemaWord::Absent => Ok(SchemaWord::Absent),
            SchemaWord::Nil => Ok(SchemaWord::Nil),
            SchemaWord::Id(name) => Ok(SchemaWord::Id(name.copy()?)),
        }
    }
}

impl Options {
    /// What holds where the header tells nothing else (EXI 1.0, section 5.4): bit-packed, nothing switched on,
    /// no word on the schema, blocks of 1,000,000 and no bounds on the values that the string tables take.
    pub fn defaults() -> Options
        ensures { result ≡ default_options }
    {
        Options {
            flags: OptionFlags::empty(),
            schema: SchemaWord::Absent,
            block: 1_000_000,
            most: None,
            capacity: None,
        }
    }

    /// Others that are equal to these.
    ///
    /// # Errors
    ///
    /// `AllocError` where memory is refused.
    pub fn copy(&self) -> Result<Options, AllocError>
        ensures { IfOk result (λ o. o ≡ self.now) }
    {
        Ok(Options {
            flags: self.flags,
            schema: self.schema.copy()?,
            block: self.block,
            most: self.most,
            capacity: self.capacity,
        })
    }

    /// How the numbers of the stream lie.
    pub fn align(&self) -> Align
        ensures { result ≡ align_of self.now }
    {
        if self.flags.contains(OptionFlags::BYTES) {
            Align::Bytes
        } else {
            Align::Bits
        }
    }

    /// Whether a production that reads this is left (EXI 1.0, section 8.3): comments, processing
    /// instructions, DTDs and entity references, namespace declarations and self-contained elements have
    /// an option that switches them on.
    pub fn keeps(&self, on: &Terminal) -> bool
        ensures { result ≡ is_left self.now (symbol on.now) }
    {
        let option = match on {
            Terminal::Ns => OptionFlags::PREFIXES,
            Terminal::Sc => OptionFlags::SELF_CONTAINED,
            Terminal::Er | Terminal::Dt => OptionFlags::DTD,
            Terminal::Cm => OptionFlags::COMMENTS,
            Terminal::Pi => OptionFlags::PIS,
            Terminal::Sd
            | Terminal::Ed
            | Terminal::Se(_)
            | Terminal::SeIn(_)
            | Terminal::SeAny
            | Terminal::At(_, _)
            | Terminal::AtIn(_)
            | Terminal::AtAny
            | Terminal::AtText(_)
            | Terminal::AtAnyText
            | Terminal::XsiType
            | Terminal::XsiNil
            | Terminal::Ch(_)
            | Terminal::ChText
            | Terminal::Ee => return true,
        };
        self.flags.contains(option)
    }

    /// Whether options are on that may not be on together: strict with comments, processing
    /// instructions, DTDs, prefixes or self-contained elements, or these elements with prefixes.
    pub fn conflicts(&self) -> bool
        ensures { result ≡ conflicts self.now }
    {
        let flags = self.flags;
        let strict = flags.contains(OptionFlags::STRICT);
        let prefixes = flags.contains(OptionFlags::PREFIXES);
        let self_contained = flags.contains(OptionFlags::SELF_CONTAINED);
        let kept = flags.contains(OptionFlags::DTD)
            || prefixes
            || flags.contains(OptionFlags::COMMENTS)
            || flags.contains(OptionFlags::PIS)
            || self_contained;
        (strict && kept) || (self_contained && prefixes)
    }
}
