ghost use Rattle.std.specs.Prelude.{◌≡◌, ◌+◌, ◌<◌, ◌≤◌, ◌^◌, ◌++◌, [], IfOk, OnOk, OnErr, get_or, length, map, slice_get};
ghost use Rattle.exi_bits.specs.Bits.{IsAligned, number};
ghost use Rattle.exi_bits.specs.Unsigned.{Reads, ReadsSome};
ghost use Rattle.exi_bits.specs.Widths.{width_for};
ghost use Rattle.exi_bits.specs.Written.{IsWholeBytes};
ghost use Rattle.exi_items.specs.Fronts.{HoldsFront};
ghost use Rattle.exi_gram.specs.Codes.{code_bits};
ghost use Rattle.exi_gram.specs.CodeTrees.{IsCodeSet, place_read};
ghost use Rattle.exi_gram.specs.Tables.{parts_of};

use crate::cell::{Branch, Cell};
use crate::code::{Code, Coded};
use crate::front::Front;
use crate::part::read_part;
use crate::rows::add_rows;
use exi_bits::{Align, BitIn, BitOut, Fault, Kind, bits_for};
use exi_steps::Steps;
use std::alloc::{AllocError, Global};
use std::marker::{Brand, Model};
use std::sync::ledger::{Blank, Ledger};

/// The codes of a state, compiled: a code is read and written with one look for each of its parts
/// (EXI 1.0, section 6.2).
///
/// A contract sees it as the codes, part by part, in their order.
///
/// The parts are numbers without gaps, so what a part tells is a cell at that number of a row: the place of
/// a code that ends there, or where the row for the next part stands.
///
/// ```text
/// codes     0    1.0    1.1.0    1.1.1
///
/// cells     Leaf 0, Branch 2..4 | Leaf 1, Branch 4..6 | Leaf 2, Leaf 3
/// part      0       1             0       1             0       1
/// ```
#[derive(Debug, Drop)]
pub struct CodeTable {
    codes: Vec<Code>,
    cells: Vec<Cell>,
    root: Branch,
}

impl Model for CodeTable {
    ghost use Rattle.std.specs.Prelude.{ℕ, List};
    ghost use Rattle.exi_gram.specs.Cells.{CellStands, all_parts};
    ghost use Rattle.exi_gram.specs.CodeTrees.{counted};
    ghost use Rattle.exi_gram.specs.declared.cell.Cell.TheVariants as cell;

    ghost Value = { List (List ℕ) };

    ghost view = { λ t. all_parts t.codes.items };

    ghost invariant = { λ t. CellStands t.cells.items 0 3 (cell.Branch t.root) (counted 0 (all_parts t.codes.items)) };
}

impl CodeTable {
    /// The table of these codes, in their order. They have to be distinct and none the front of another, and
    /// after any first parts the values of the next part have to leave no gaps; so the codes of a state are.
    ///
    /// # Errors
    ///
    /// `AllocError` where memory is refused, or more than 2^32 - 1 cells were needed.
    pub fn of(alloc: Global, codes: &[Coded]) -> Result<CodeTable, AllocError>
        requires codes { IsCodeSet (map (λ c. parts_of c.code) codes.now) }
        requires few { length codes.now ≤ 2 ^ 32 }
        ensures { IfOk result (λ t. t ≡ map (λ c. parts_of c.code) codes.now) }
    {
        let mut own = Vec::with_capacity(alloc, codes.len())?;
        for coded in codes {
            own.push(coded.code)?;
        }
        let mut cells = Vec::new(alloc);
        let root = add_rows(&own, Front::Empty, &mut cells)?;
        Ok(CodeTable {
            codes: own,
            cells,
            root,
        })
    }

    /// Reads a code. Answers its place in the order of the codes. Takes no memory and at most three steps,
    /// each a look at one cell.
    ///
    /// # Errors
    ///
    /// At the first bit of a part: `Short` where the bits end before the part does, and `NoCode` where no
    /// code goes on so. The place in the input is then unchanged.
    #[inline(always)]
    pub fn find<L: Ledger>(
        &self,
        input: &mut BitIn<'_>,
        align: Align,
        steps: &mut Steps<L>,
    ) -> Result<u32, Fault>
        requires aligned { IsAligned align input.old }
        ensures read { Reads (λ x. x) result input.old input.new (place_read align self.now input.old) }
        ensures below { IfOk result (λ place. place < length self.now) }
        ensures steps { steps.new ≤ steps.old + 3 }
        ensures bytes { input.new.bytes ≡ input.old.bytes }
        ensures aligned { IsAligned align input.new }
    {
        let bit = input.at();
        match self.walk(input, align, steps) {
            Ok(place) => Ok(place),
            Err(fault) => {
                input.go_to_bit(bit);
                Err(fault)
            }
        }
    }

    /// Reads a code as [`CodeTable::find`] does, for a caller that counts no steps.
    ///
    /// # Errors
    ///
    /// As those of [`CodeTable::find`]. The place in the input is then unchanged.
    pub fn read(&self, input: &mut BitIn<'_>, align: Align) -> Result<u32, Fault>
        requires aligned { IsAligned align input.old }
        ensures read { Reads (λ x. x) result input.old input.new (place_read align self.now input.old) }
        ensures below { IfOk result (λ place. place < length self.now) }
        ensures bytes { input.new.bytes ≡ input.old.bytes }
        ensures aligned { IsAligned align input.new }
    {
        self.read_from::<Brand>(input, align, Blank::new(1))
    }

    /// Reads a code, with a counter of its own.
    fn read_from<L: Ledger>(
        &self,
        input: &mut BitIn<'_>,
        align: Align,
        blank: Blank,
    ) -> Result<u32, Fault>
        requires aligned { IsAligned align input.old }
        requires name { blank.name ≡ L.name }
        requires parts { (blank.parts ≡ L.parts) × (blank.parts ≡ 1) }
        ensures read { Reads (λ x. x) result input.old input.new (place_read align self.now input.old) }
        ensures below { IfOk result (λ place. place < length self.now) }
        ensures bytes { input.new.bytes ≡ input.old.bytes }
        ensures aligned { IsAligned align input.new }
    {
        let mut steps = Steps::<L>::of(blank);
        self.find(input, align, &mut steps)
    }

    /// Reads a code. After an `Err` the place in the input is anything.
    #[inline(always)]
    fn walk<L: Ledger>(
        &self,
        input: &mut BitIn<'_>,
        align: Align,
        steps: &mut Steps<L>,
    ) -> Result<u32, Fault>
        requires aligned { IsAligned align input.old }
        ensures read { ReadsSome (λ x. x) result input.new (place_read align self.now input.old) }
        ensures below { IfOk result (λ place. place < length self.now) }
        ensures steps { steps.new ≤ steps.old + 3 }
        ensures bytes { input.new.bytes ≡ input.old.bytes }
        ensures aligned { IsAligned align input.new }
    {
        let mut row = self.root;
        for _ in 0..3u32 {
            let part = read_part(input, row.count, align)?;
            steps.tick();
            match self.cells[row.begin as usize + part as usize] {
                Cell::Leaf(place) => return Ok(place),
                Cell::Branch(next) => row = next,
            }
        }
        Err(Fault {
            kind: Kind::NoCode,
            bit: input.at(),
        })
    }

    /// Writes the code at a place, which has to exist, as [`CodeTable::find`] reads it.
    ///
    /// # Errors
    ///
    /// `AllocError` where memory is refused. The bits then end with a front of the code, maybe none of it.
    pub fn write(&self, out: &mut BitOut, place: u32, align: Align) -> Result<(), AllocError>
        requires there { place < length self.now }
        requires aligned { IsWholeBytes align out.old }
        ensures ok { OnOk result (out.new ≡ out.old ++ code_bits align self.now (get_or self.now place [])) }
        ensures err { OnErr result (HoldsFront out.old (code_bits align self.now (get_or self.now place [])) out.new) }
        ensures aligned { IsWholeBytes align out.new }
    {
        let code = self.codes[place as usize];
        let mut row = self.root;
        for index in 0..3u32 {
            if let Some(part) = part_of(code, index) {
                put_part(out, part, row.count, align)?;
                match self.cells[row.begin as usize + part as usize] {
                    Cell::Leaf(_) => {}
                    Cell::Branch(next) => row = next,
                }
            }
        }
        Ok(())
    }
}

/// A part of a code, by its place, where the code has so many.
fn part_of(code: Code, index: u32) -> Option<u32>
    ensures { result ≡ slice_get (parts_of code) index }
{
    match (code, index) {
        (Code::One(part) | Code::Two(part, _) | Code::Three(part, _, _), 0) => Some(part),
        (Code::Two(_, part) | Code::Three(_, part, _), 1) => Some(part),
        (Code::Three(_, _, part), 2) => Some(part),
        _ => None,
    }
}

/// Writes a part that has so many values.
fn put_part(out: &mut BitOut, part: u32, count: u32, align: Align) -> Result<(), AllocError>
    requires below { part < count }
    requires aligned { IsWholeBytes align out.old }
    ensures ok { OnOk result (out.new ≡ out.old ++ number (width_for count) align part) }
    ensures err { OnErr result (out.new ≡ out.old) }
    ensures aligned { IsWholeBytes align out.new }
{
    out.put(u64::from(part), bits_for(u64::from(count)), align)
}
