ghost use Rattle.std.specs.Prelude.{◌≡◌, ◌<◌, ◌++◌, false, IfOk, OnOk, OnErr, length};
ghost use Rattle.std.specs.Option.{option_copied};
ghost use Rattle.exi_bits.specs.Bits.{IsAligned};
ghost use Rattle.exi_bits.specs.Unsigned.{Reads};
ghost use Rattle.exi_bits.specs.Written.{IsWholeBytes};
ghost use Rattle.exi_items.specs.Fronts.{HoldsFront};
ghost use Rattle.exi_names.specs.Shown.{named};
ghost use Rattle.exi_gram.specs.Books.{IsBook, IsPlainBook, IsStateOf, state_at, tables_of};
ghost use Rattle.exi_gram.specs.Candidates.{FindInAll, candidates};
ghost use Rattle.exi_gram.specs.Codes.{code_at, code_bits, coded};
ghost use Rattle.exi_gram.specs.CodeTrees.{place_read};
ghost use Rattle.exi_gram.specs.Globals.{FindsDeclared, attribute_datatype, element_grammar, represented_by, type_grammar};
ghost use Rattle.exi_gram.specs.Laws.{codes, placed};
ghost use Rattle.exi_gram.specs.Switches.{align_of};
ghost use Rattle.exi_gram.specs.Tables.{parts_at, size};

use crate::class::Class;
use crate::code_table::CodeTable;
use crate::globals::Globals;
use crate::index::Index;
use crate::items::Items;
use crate::options::Options;
use crate::schema::Schema;
use crate::state::CodedState;
use exi_bits::{BitIn, BitOut, Fault};
use exi_names::{Datatype, NameId, NameRef};
use exi_steps::Steps;
use std::alloc::AllocError;
use std::marker::{Brand, Model};
use std::sync::ledger::{Blank, Ledger};

/// What a stream is read and written by: its options, its schema, and of each grammar and state the
/// productions with their codes, as the options leave them.
#[derive(Debug, Drop)]
pub struct Book {
    options: Options,
    schema: Schema,
    states: Items<Items<CodedState>>,
    tables: Items<Items<CodeTable>>,
    indexes: Items<Items<Index>>,
    globals: Globals,
}

impl Model for Book {
    ghost use Rattle.exi_gram.specs.Books.{Contents, IsBook};

    ghost Value = { Contents };

    ghost use Rattle.exi_names.proofs.Codes.{representation_code};
    ghost use Rattle.std.specs.Coded.{codes};

    ghost coded = { Prim.hlevel (codes, representation_code) };

    ghost view = { λ b. record { options = b.options; schema = b.schema; states = b.states } };

    ghost use Rattle.exi_gram.specs.Books.{tables_of};
    ghost use Rattle.exi_gram.specs.Candidates.{FindInAll};
    ghost use Rattle.exi_gram.specs.Globals.{FindsDeclared};
    ghost use Rattle.std.specs.Prelude.{◌≡◌};

    ghost invariant = { λ b.
        IsBook (record { options = b.options; schema = b.schema; states = b.states })
        × (b.tables ≡ tables_of b.states)
        × FindInAll b.indexes b.states
        × FindsDeclared b.globals b.schema };
}

impl Book {
    /// The book of these options and this schema. The states have to be those of the schema's grammars
    /// under the options, with a table and an index for each of them, and an index of what the schema
    /// declares by name; and the options may not conflict.
    pub fn of(
        options: Options,
        schema: Schema,
        states: Items<Items<CodedState>>,
        tables: Items<Items<CodeTable>>,
        indexes: Items<Items<Index>>,
        globals: Globals,
    ) -> Book
        requires book { IsBook (record { options = options; schema = schema; states = states }) }
        requires tables { tables ≡ tables_of states }
        requires indexes { FindInAll indexes states }
        requires globals { FindsDeclared globals schema }
        ensures { result ≡ record { options = options; schema = schema; states = states } }
    {
        Book {
            options,
            schema,
            states,
            tables,
            indexes,
            globals,
        }
    }

    /// The options of the stream.
    pub fn options(&self) -> &Options
        ensures options { result.now ≡ self.now.options }
        ensures book { IsBook self.now }
    {
        &self.options
    }

    /// The schema, or what stands for none.
    pub fn schema(&self) -> &Schema
        ensures schema { result.now ≡ self.now.schema }
        ensures book { IsBook self.now }
        ensures plain { self.now.schema.known ≡ false → IsPlainBook self.now }
    {
        &self.schema
    }

    /// The states of all grammars, each with its productions and their codes.
    pub fn states(&self) -> &[Items<CodedState>]
        ensures states { result.now ≡ self.now.states }
        ensures book { IsBook self.now }
    {
        self.states.as_slice()
    }

    /// The productions of a state of a grammar, which has to exist, with their codes.
    pub fn state(&self, grammar: u32, state: u32) -> &CodedState
        requires exists { IsStateOf self.now grammar state }
        ensures { result.now ≡ state_at self.now grammar state }
    {
        let states = self.states();
        let coded = states[grammar as usize].as_slice();
        &coded[state as usize]
    }

    /// The compiled codes of a state of a grammar, which has to exist.
    pub fn table(&self, grammar: u32, state: u32) -> &CodeTable
        requires exists { IsStateOf self.now grammar state }
        ensures { result.now ≡ codes (state_at self.now grammar state) }
    {
        let tables = self.tables.as_slice()[grammar as usize].as_slice();
        &tables[state as usize]
    }

    /// The places of the productions of a class in a state of a grammar, which has to exist: those with
    /// fewer parts in their codes first, and among these by their codes. So they are tried for an event.
    /// A name is sought by its least places in the first string tables, a URI with the local place 0, and
    /// what has no name with two zeros. It takes no memory and no walk over the codes.
    pub fn candidates(&self, grammar: u32, state: u32, class: Class, name: NameId) -> &[u32]
        requires exists { IsStateOf self.now grammar state }
        ensures { result.now ≡ candidates class name (coded (state_at self.now grammar state)) }
    {
        let indexes = self.indexes.as_slice()[grammar as usize].as_slice();
        indexes[state as usize].find(class, name)
    }

    /// The place of the grammar of the global element of this name, where there is one (EXI 1.0, section
    /// 8.5.4.1.6). The prefix plays no part. It takes no memory and no walk over the elements.
    pub fn element_grammar(&self, name: NameRef<'_>) -> Option<u32>
        ensures { result ≡ element_grammar self.now.schema.globals (named name.entry) }
    {
        self.globals.element_grammar(&self.schema, name)
    }

    /// The datatype of the global attribute of this name, where there is one; any other attribute has a
    /// string. The prefix plays no part. It takes no memory and no walk over the attributes.
    pub fn attribute_datatype(&self, name: NameRef<'_>) -> Option<&Datatype>
        ensures { represented_by (option_copied result) ≡ attribute_datatype self.now.schema.attributes (named name.entry) }
    {
        self.globals.attribute_datatype(&self.schema, name)
    }

    /// The place of the grammar of the type of this name, where there is one. The prefix plays no part. It
    /// takes no memory and no walk over the types.
    pub fn type_grammar(&self, name: NameRef<'_>) -> Option<u32>
        ensures { result ≡ type_grammar self.now.schema.types (named name.entry) }
    {
        self.globals.type_grammar(&self.schema, name)
    }
}

/// Reads the code of a production in a state of a grammar, which has to exist (EXI 1.0, section 6.2).
/// Answers the place of the production in the order of the state's codes. Under
/// [`Align::Bytes`](exi_bits::Align) the place in the input has to be a whole byte.
///
/// # Errors
///
/// At the first bit of a part: `Short` where the bits end before the part does, and `NoCode` where the
/// state has no production whose code goes on so. The place in the input is then unchanged.
#[inline(always)]
pub fn read_code(input: &mut BitIn<'_>, book: &Book, grammar: u32, state: u32) -> Result<u32, Fault>
    requires exists { IsStateOf book.now grammar state }
    requires aligned { IsAligned (align_of book.now.options) input.old }
    ensures read { Reads
        (λ x. x)
        result
        input.old
        input.new
        (code_at (align_of book.now.options) (placed (state_at book.now grammar state)) input.old) }
    ensures below { IfOk result (λ place. place < size (state_at book.now grammar state)) }
    ensures bytes { input.new.bytes ≡ input.old.bytes }
    ensures aligned { IsAligned (align_of book.now.options) input.new }
{
    find_in::<Brand>(input, book, grammar, state, Blank::new(1))
}

/// [`read_code`], with a blank for the steps, which nobody counts.
#[inline(always)]
fn find_in<L: Ledger>(
    input: &mut BitIn<'_>,
    book: &Book,
    grammar: u32,
    state: u32,
    blank: Blank,
) -> Result<u32, Fault>
    requires name { blank.name ≡ L.name }
    requires parts { (blank.parts ≡ L.parts) × (blank.parts ≡ 1) }
    requires exists { IsStateOf book.now grammar state }
    requires aligned { IsAligned (align_of book.now.options) input.old }
    ensures read { Reads
        (λ x. x)
        result
        input.old
        input.new
        (place_read (align_of book.now.options) (codes (state_at book.now grammar state)) input.old) }
    ensures below { IfOk result (λ place. place < length (codes (state_at book.now grammar state))) }
    ensures bytes { input.new.bytes ≡ input.old.bytes }
    ensures aligned { IsAligned (align_of book.now.options) input.new }
    ensures book { IsBook book.now }
{
    let align = book.options().align();
    let mut steps = Steps::<L>::of(blank);
    book.table(grammar, state).find(input, align, &mut steps)
}

/// Writes the code of the production at a place in a state of a grammar, as [`read_code`] reads it.
/// Grammar, state and place have to exist. Under [`Align::Bytes`](exi_bits::Align) there have to be
/// whole bytes of bits.
///
/// # Errors
///
/// `AllocError` where memory is refused. The bits then end with a front of the code, maybe none of it.
pub fn write_code(
    out: &mut BitOut,
    book: &Book,
    grammar: u32,
    state: u32,
    place: u32,
) -> Result<(), AllocError>
    requires exists { IsStateOf book.now grammar state }
    requires there { place < size (state_at book.now grammar state) }
    requires aligned { IsWholeBytes (align_of book.now.options) out.old }
    ensures ok { OnOk
        result
        (out.new
        ≡ out.old
        ++ code_bits
        (align_of book.now.options)
        (codes (state_at book.now grammar state))
        (parts_at (state_at book.now grammar state) place)) }
    ensures err { OnErr
        result
        (HoldsFront
        out.old
        (code_bits
        (align_of book.now.options)
        (codes (state_at book.now grammar state))
        (parts_at (state_at book.now grammar state) place))
        out.new) }
    ensures aligned { IsWholeBytes (align_of book.now.options) out.new }
{
    let align = book.options().align();
    book.table(grammar, state).write(out, place, align)
}
