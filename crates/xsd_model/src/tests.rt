use super::*;
use std::test::*;

#[test]
fn each_kind_has_its_word(rt: HostRuntime) -> Result<(), Fail> {
    assert_eq!(rt; SchemaKind::NotSchema.word(), "NotSchema");
    assert_eq!(rt; SchemaKind::TooLarge.word(), "TooLarge");
    Ok(())
}
