use super::*;
use std::test::*;

#[test]
fn digits_are_read_and_written(rt: HostRuntime) -> Result<(), Fail> {
    assert_eq!(rt; number(b"001205"), Some(1205));
    assert_eq!(rt; number_behind(12, b"05"), Some(1205));
    assert_eq!(rt; back(b"0530"), Some(350));
    assert_eq!(rt; split_at_mark(b"12.5", b'.').0, b"12".as_slice());
    assert_eq!(rt; split_at_either(b"15e3", b'E', b'e').0, b"15".as_slice());
    let mut text = String::new(rt.alloc());
    push_number(&mut text, 1205)?;
    push_padded(&mut text, 4, 12)?;
    push_two(&mut text, 7)?;
    push_fraction(&mut text, 350)?;
    assert_eq!(rt; text.as_str(), "1205001207053");
    Ok(())
}
