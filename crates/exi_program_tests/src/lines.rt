use exi_evtext::{parse_events, print_event};
use exi_names::{Event, Txt};
use std::alloc::{AllocError, Global};
use std::test::Fail;

/// How many events the lines tell.
fn told(alloc: Global, lines: &[u8]) -> Option<usize> {
    let events = parse_events(alloc, lines).ok()?;
    Some(events.len())
}

#[test]
fn lines_are_events(rt: HostRuntime) -> Result<(), Fail> {
    assert_eq!(rt; told(rt.alloc(), b"SD\nCH text \"a\\n\"\nED\n"), Some(3));
    Ok(())
}

/// A comment's line.
fn line_of(alloc: Global, text: &str) -> Result<Txt, AllocError> {
    print_event(alloc, &Event::Cm(Txt::of(alloc, text)?))
}

#[test]
fn a_text_is_escaped(rt: HostRuntime) -> Result<(), Fail> {
    let line = line_of(rt.alloc(), "a\"\n\u{E9}\\")?;
    assert_eq!(rt; line.as_str(), "CM \"a\\\"\\n\u{E9}\\\\\"");
    Ok(())
}
