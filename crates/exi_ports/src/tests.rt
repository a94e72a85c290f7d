use crate::{Fetch, FileShelf, Gate, HoldGate, MemShelf, MemSink, NoGate, OutSink, Shelf, Sink};
use exi_names::{Octets, Txt};
use std::alloc::Global;
use std::test::Fail;
use std::thread::Threads;
use std::{env, fs, process, thread};

/// How many bytes a shelf gives under a name, where it gives any.
fn fetched<F: Shelf>(shelf: &mut F, alloc: Global, name: &str) -> Option<usize> {
    match shelf.fetch(alloc, &Txt::of(alloc, name).ok()?, 9) {
        Fetch::Bytes(bytes) => Some(bytes.as_slice().len()),
        _ => None,
    }
}

/// Puts a line.
fn put_line<O: Sink>(sink: &mut O) -> bool {
    sink.put(b"line\n").is_ok()
}

#[test]
fn fetches_from_memory(rt: HostRuntime) -> Result<(), Fail> {
    let mut shelf = MemShelf::new(rt.alloc());
    shelf.add_file(Txt::of(rt.alloc(), "a")?, Octets::of(rt.alloc(), b"one")?)?;
    shelf.fail_at(2)?;
    assert_eq!(rt; fetched(&mut shelf, rt.alloc(), "a"), Some(3));
    assert_eq!(rt; fetched(&mut shelf, rt.alloc(), "a"), None);
    assert_eq!(rt;
        (shelf.calls(), shelf.faults(), shelf.asked().len()),
        (2, 1, 2)
    );
    Ok(())
}

#[test]
fn puts_into_memory(rt: HostRuntime) -> Result<(), Fail> {
    let mut sink = MemSink::new(rt.alloc());
    sink.fail_at(2)?;
    assert!(rt; put_line(&mut sink) && !put_line(&mut sink));
    assert_eq!(rt; sink.taken().as_slice(), b"line\nli".as_slice());
    assert_eq!(rt; (sink.calls(), sink.faults()), (2, 1));
    Ok(())
}

#[test]
fn fetches_files(rt: HostRuntime) -> Result<(), Fail> {
    let folder = env::temp_dir(&rt)?;
    let path = format!(in rt.alloc();
        "{}/exi_ports_{}",
        folder.as_str(),
        process::id(rt.process())
    )?;
    fs::write(&rt, path.as_str(), b"one".as_slice())?;
    let mut shelf = FileShelf::new(&rt);
    assert_eq!(rt; fetched(&mut shelf, rt.alloc(), path.as_str()), Some(3));
    fs::remove_file(&rt, path.as_str())?;
    Ok(())
}

#[test]
fn puts_out(rt: HostRuntime) -> Result<(), Fail> {
    let mut out = OutSink::new(rt.alloc(), &rt)?;
    assert!(rt; put_line(&mut out) && out.finish().is_ok());
    assert_eq!(rt; out.faults(), 0);
    Ok(())
}

/// Two workers pass one gate.
fn both_pass<R: Threads, G: Gate>(rt: &R, gate: &G) {
    thread::join(rt, || gate.pass(1, 0), || gate.pass(2, 1));
}

#[test]
fn passes_gates(rt: HostRuntime) {
    both_pass(&rt, &NoGate);
    let first_behind_second = HoldGate::new(1, 2, 1 << 24);
    both_pass(&rt, &first_behind_second);
    assert!(rt; !first_behind_second.missed());
    assert_eq!(rt; first_behind_second.entered(), 1);
    let behind_nobody = HoldGate::new(1, 5, 16);
    both_pass(&rt, &behind_nobody);
    assert!(rt; behind_nobody.missed());
    assert_eq!(rt; behind_nobody.entered(), 0);
}
