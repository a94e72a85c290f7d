ghost use Rattle.std.specs.Prelude.{◌≡◌, length, map};
ghost use Rattle.exi_bits.specs.Written.{IsWholeBytes};
ghost use Rattle.exi_gram.specs.Switches.{align_of};
ghost use Rattle.exi_names.specs.Events.{happens};
ghost use Rattle.exi_writing.specs.Runs.{body};
ghost use Rattle.exi_writer.specs.Writing.{Bodies};

use crate::fault::WriteFault;
use crate::list::ListWriter;
use exi_bits::BitOut;
use exi_gram::Book;
use exi_meter::Limits;
use exi_names::Event;
use exi_steps::Steps;
use exi_tables::Tables;
use std::alloc::{AllocError, Global};
use std::marker::Brand;
use std::sync::ledger::{Blank, Ledger};

/// Writes the body of a list of events behind these bits (EXI 1.0, section 6).
///
/// # Errors
///
/// `WriteFault::NotDerived` or `WriteFault::Limit` with the number of the first event that is not derived or passes a limit;
/// where the list ends before the body does, `NotDerived` with the number behind its last. `WriteFault::Memory` where memory
/// is refused.
pub fn write_body<T: Tables + Drop>(
    alloc: Global,
    book: &Book,
    limits: Limits,
    events: &[Event],
    head: BitOut,
) -> Result<BitOut, WriteFault>
    requires aligned { IsWholeBytes (align_of book.now.options) head }
    ensures written { Bodies result head (body book.now (length head) limits (map happens events.now)) }
{
    write_counted::<T, Brand>(alloc, book, limits, events, head, Blank::new(1))
}

/// The same, with a blank for the steps, which nobody counts.
fn write_counted<T: Tables + Drop, L: Ledger>(
    alloc: Global,
    book: &Book,
    limits: Limits,
    events: &[Event],
    head: BitOut,
    blank: Blank,
) -> Result<BitOut, WriteFault>
    requires name { blank.name ≡ L.name }
    requires parts { (blank.parts ≡ L.parts) × (blank.parts ≡ 1) }
    requires aligned { IsWholeBytes (align_of book.now.options) head }
    ensures written { Bodies result head (body book.now (length head) limits (map happens events.now)) }
{
    let mut steps = Steps::<L>::of(blank);
    let mut list = match ListWriter::<T>::new(alloc, book, limits, head) {
        Ok(list) => list,
        Err(AllocError) => return Err(WriteFault::Memory),
    };
    for event in events {
        list.push(event, &mut steps);
    }
    list.finish()
}
