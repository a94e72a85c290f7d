ghost use Rattle.std.specs.Prelude.{◌≡◌, ◌+◌, ◌<◌, ◌≤◌, ◌^◌, ℕ, None, IfOk, OnOk, length};
ghost use Rattle.exi_gram.specs.Codes.{values_of};
ghost use Rattle.exi_gram.specs.CodeTrees.{parts_in};
ghost use Rattle.exi_gram.specs.Cells.{Branches, Kept, CellStands, TellsEnds, behind_front, cell_at, leaf_of, parts_left};
ghost use Rattle.exi_gram.specs.declared.cell.Cell.TheVariants as cell;

use crate::cell::{Branch, Cell};
use crate::code::Code;
use crate::front::Front;
use std::alloc::AllocError;

/// How many values the next part has among the codes that begin with these parts.
fn values_behind(codes: &[Code], front: Front) -> u64
    ensures values { result ≡ values_of (parts_in (behind_front front codes.now)) }
    ensures few { result ≤ 2 ^ 32 }
{
    let mut values = 0;
    for code in codes {
        if let Some((part, _)) = front.next(*code) {
            if u64::from(part) >= values {
                values = u64::from(part) + 1;
            }
        }
    }
    values
}

/// Sets the cells from a place on, one for each value of the part behind these, to the places of the codes
/// that end there.
fn mark_ends(codes: &[Code], front: Front, begin: usize, cells: &mut Vec<Cell>)
    requires few { length codes.now ≤ 2 ^ 32 }
    requires room { begin + values_of (parts_in (behind_front front codes.now)) ≤ length cells.old.items }
    requires none { (part : ℕ) → part < values_of (parts_in (behind_front front codes.now)) →
        leaf_of (cell_at cells.old.items (begin + part)) ≡ None }
    ensures ends { TellsEnds cells.new.items begin (values_of (parts_in (behind_front front codes.now)))
        (behind_front front codes.now) }
    ensures count { length cells.new.items ≡ length cells.old.items }
    ensures same { (place : ℕ) → place < begin →
        cell_at cells.new.items place ≡ cell_at cells.old.items place }
{
    for (place, code) in codes.iter().enumerate() {
        if let Some((part, last)) = front.next(*code) {
            if last {
                cells[begin + part as usize] = Cell::Leaf(place as u32);
            }
        }
    }
}

/// Adds cells that tell nothing yet.
fn add_blanks(count: u64, cells: &mut Vec<Cell>) -> Result<(), AllocError>
    ensures count { OnOk result (length cells.new.items ≡ length cells.old.items + count) }
    ensures kept { OnOk result (Kept cells.old.items cells.new.items) }
    ensures none { OnOk result ((part : ℕ) → part < count →
        leaf_of (cell_at cells.new.items (length cells.old.items + part)) ≡ None) }
{
    for _ in 0..count {
        cells.push(Cell::Branch(Branch { begin: 0, count: 0 }))?;
    }
    Ok(())
}

/// Adds a cell for each value of the part behind these. Those where a code ends tell its place.
fn add_row(codes: &[Code], front: Front, cells: &mut Vec<Cell>) -> Result<Branch, AllocError>
    requires few { length codes.now ≤ 2 ^ 32 }
    ensures begin { IfOk result (λ row. row.begin ≡ length cells.old.items) }
    ensures count { IfOk result (λ row. row.count ≡ values_of (parts_in (behind_front front codes.now))) }
    ensures end { IfOk result (λ row. row.begin + row.count ≡ length cells.new.items) }
    ensures few { IfOk result (λ row. row.begin + row.count < 2 ^ 32) }
    ensures kept { IfOk result (λ row. Kept cells.old.items cells.new.items) }
    ensures ends { IfOk result (λ row.
        TellsEnds cells.new.items row.begin row.count (behind_front front codes.now)) }
{
    let count = values_behind(codes, front);
    let begin = cells.len();
    let Ok(end) = u32::try_from(begin as u64 + count) else {
        return Err(AllocError);
    };
    add_blanks(count, cells)?;
    mark_ends(codes, front, begin, cells);
    Ok(Branch {
        begin: begin as u32,
        count: end - begin as u32,
    })
}

/// Adds the cells of the codes that begin with these parts, none of which ends with them: first those of
/// the next part, then those behind them.
///
/// # Errors
///
/// `AllocError` where memory is refused, or more than 2^32 - 1 cells are needed.
pub fn add_rows(codes: &[Code], front: Front, cells: &mut Vec<Cell>) -> Result<Branch, AllocError>
    requires few { length codes.now ≤ 2 ^ 32 }
    requires tree { Branches (parts_left front) (behind_front front codes.now) }
    ensures stands { IfOk result (λ row. CellStands cells.new.items (length cells.old.items)
        (parts_left front) (cell.Branch row) (behind_front front codes.now)) }
    ensures kept { IfOk result (λ row. Kept cells.old.items cells.new.items) }
    ensures few { IfOk result (λ row. length cells.new.items < 2 ^ 32) }
{
    let row = add_row(codes, front, cells)?;
    for part in 0..row.count {
        let place = (row.begin + part) as usize;
        if let Cell::Branch(_) = cells[place] {
            if let Some(longer) = front.then(part) {
                let branch = add_rows(codes, longer, cells)?;
                cells[place] = Cell::Branch(branch);
            }
        }
    }
    Ok(row)
}
