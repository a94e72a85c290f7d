use exi_names::{Octets, Txt};
use exi_ports::{MemShelf, MemSink, NoGate};
use exi_run::{Status, run};
use std::alloc::{AllocError, Global};
use std::sync::Wait;
use std::test::Fail;
use std::thread::Threads;

/// A schema document: of the element `n`, an unsigned byte.
const DOCUMENT: &[u8] =
    b"\x80\x08\x1a\x1d\x1d\x1c\x0e\x8b\xcb\xdd\xdd\xdd\xcb\x9d\xcc\xcb\x9b\xdc\x99\xcb\xcc\x8c\x0c\x0c\
\x4b\xd6\x13\x53\x14\xd8\xda\x19\x5b\x58\x41\xdc\xd8\xda\x19\x5b\x58\x54\x02\x78\x73\xb8\x10\xca\
\xd8\xca\xda\xca\xdc\xe8\x48\x2b\x73\x0b\x6b\x28\x1b\x74\x90\x57\x47\x97\x06\x51\x17\x87\x33\xa7\
\x56\xe7\x36\x96\x76\xe6\x56\x44\x27\x97\x46\x58\x00";

/// A shelf with a stream of the element `a` with the text `x`, worked from the recommendation's tables by hand.
fn shelf_of_one(alloc: Global) -> Result<MemShelf, AllocError> {
    let mut shelf = MemShelf::new(alloc);
    let bytes = Octets::of(alloc, b"\x80\x40\x98\x70\x37\x80")?;
    shelf.add_file(Txt::of(alloc, "in.exi")?, bytes)?;
    Ok(shelf)
}

/// Runs the words over that shelf.
fn put(
    rt: &(impl Threads + Wait + Sync),
    alloc: Global,
    words: &[Txt],
    sink: &mut MemSink,
) -> Result<Status, AllocError> {
    let mut shelf = shelf_of_one(alloc)?;
    Ok(run(rt, alloc, words, &mut shelf, sink, &NoGate))
}

/// The words that ask for its events.
fn read_words(alloc: Global) -> Result<[Txt; 2], AllocError> {
    Ok([Txt::of(alloc, "read")?, Txt::of(alloc, "in.exi")?])
}

#[test]
fn a_stream_is_printed_one_line_a_put(rt: HostRuntime) -> Result<(), Fail> {
    let words = read_words(rt.alloc())?;
    let mut sink = MemSink::new(rt.alloc());
    assert_eq!(rt; put(&rt, rt.alloc(), &words, &mut sink)?, Status::Ok);
    assert_eq!(rt;
        sink.taken().as_slice(),
        b"SD\nSE \"\" \"a\"\nCH text \"x\"\nEE\nED\ndone 45\n".as_slice()
    );
    assert_eq!(rt; sink.calls(), 6);
    Ok(())
}

#[test]
fn nothing_is_put_after_a_put_that_failed(rt: HostRuntime) -> Result<(), Fail> {
    let words = read_words(rt.alloc())?;
    let mut sink = MemSink::new(rt.alloc());
    sink.fail_at(3)?;
    assert_eq!(rt; put(&rt, rt.alloc(), &words, &mut sink)?.number(), 5);
    assert_eq!(rt;
        sink.taken().as_slice(),
        b"SD\nSE \"\" \"a\"\nCH tex".as_slice()
    );
    assert_eq!(rt; sink.calls(), 3);
    Ok(())
}

#[test]
fn other_words_are_refused_by_one_line(rt: HostRuntime) -> Result<(), Fail> {
    let mut sink = MemSink::new(rt.alloc());
    assert_eq!(rt; put(&rt, rt.alloc(), &[], &mut sink)?, Status::Usage);
    assert_eq!(rt; sink.taken().as_slice(), b"usage\n".as_slice());
    assert_eq!(rt; sink.calls(), 1);
    Ok(())
}

/// Writes the stream of an event text.
fn written(
    rt: &(impl Threads + Wait + Sync),
    alloc: Global,
    text: &[u8],
    sink: &mut MemSink,
) -> Result<Status, AllocError> {
    let mut shelf = MemShelf::new(alloc);
    shelf.add_file(Txt::of(alloc, "events")?, Octets::of(alloc, text)?)?;
    let words = [Txt::of(alloc, "write")?, Txt::of(alloc, "events")?];
    Ok(run(rt, alloc, &words, &mut shelf, sink, &NoGate))
}

#[test]
fn a_stream_is_written_in_one_put(rt: HostRuntime) -> Result<(), Fail> {
    let text = b"SD\nSE \"\" \"a\"\nCH text \"x\"\nEE\nED\n";
    let mut sink = MemSink::new(rt.alloc());
    assert_eq!(rt; written(&rt, rt.alloc(), text, &mut sink)?, Status::Ok);
    assert_eq!(rt;
        sink.taken().as_slice(),
        b"\x80\x40\x98\x70\x37\x80".as_slice()
    );
    assert_eq!(rt; sink.calls(), 1);
    Ok(())
}

#[test]
fn nothing_of_a_stream_is_put_where_the_list_ends_early(rt: HostRuntime) -> Result<(), Fail> {
    let mut sink = MemSink::new(rt.alloc());
    assert_eq!(rt;
        written(&rt, rt.alloc(), b"SD\nSE \"\" \"a\"\n", &mut sink)?,
        Status::Events
    );
    assert_eq!(rt;
        sink.taken().as_slice(),
        b"events NotDerived 3\n".as_slice()
    );
    assert_eq!(rt; sink.calls(), 1);
    Ok(())
}

/// A shelf with the schema document and a stream by it.
fn informed_shelf(alloc: Global) -> Result<MemShelf, AllocError> {
    let mut shelf = MemShelf::new(alloc);
    let stream = Octets::of(alloc, b"\x80\x03\x80")?;
    shelf.add_file(Txt::of(alloc, "in.exi")?, stream)?;
    let document = Octets::of(alloc, DOCUMENT)?;
    shelf.add_file(Txt::of(alloc, "schema.exi")?, document)?;
    Ok(shelf)
}

/// The words that ask for its events.
fn informed_words(alloc: Global) -> Result<[Txt; 5], AllocError> {
    Ok([
        Txt::of(alloc, "read")?,
        Txt::of(alloc, "in.exi")?,
        Txt::of(alloc, "--schema")?,
        Txt::of(alloc, "schema.exi")?,
        Txt::of(alloc, "--strict")?,
    ])
}

#[test]
fn no_stream_is_read_where_the_second_fetch_fails(rt: HostRuntime) -> Result<(), Fail> {
    let mut shelf = informed_shelf(rt.alloc())?;
    shelf.fail_at(2)?;
    let words = informed_words(rt.alloc())?;
    let mut sink = MemSink::new(rt.alloc());
    let status = run(&rt, rt.alloc(), &words, &mut shelf, &mut sink, &NoGate);
    assert_eq!(rt; status, Status::ReadFault);
    assert_eq!(rt; sink.taken().as_slice(), b"read failed\n".as_slice());
    assert_eq!(rt; shelf.calls(), 2);
    Ok(())
}
