use exi_index::{parse_hints, print_hints};
use std::test::Fail;

#[test]
fn hints_are_printed_and_read(rt: HostRuntime) -> Result<(), Fail> {
    let text = print_hints(rt.alloc(), &[7, 13])?;
    assert_eq!(rt; text.as_str(), "7\n13\n");
    match parse_hints(rt.alloc(), b"7\n0013\n") {
        Ok(hints) => assert_eq!(rt; hints.as_slice(), [7, 13].as_slice()),
        Err(_) => assert!(rt; false),
    }
    Ok(())
}
