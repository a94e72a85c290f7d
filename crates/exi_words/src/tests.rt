use crate::{Command, command_of, lent};
use exi_names::Txt;
use std::test::Fail;

#[test]
fn words_are_a_command(rt: HostRuntime) -> Result<(), Fail> {
    let alloc = rt.alloc();
    let mut words = Vec::new(alloc);
    words.push(Txt::of(alloc, "read")?)?;
    words.push(Txt::of(alloc, "--workers=8")?)?;
    words.push(Txt::of(alloc, "--hints")?)?;
    words.push(Txt::of(alloc, "h")?)?;
    words.push(Txt::of(alloc, "in.exi")?)?;
    let texts = lent(alloc, words.as_slice())?;
    let Some(Command::Read(reading)) = command_of(alloc, texts.as_slice())? else {
        return Err(Fail::from("no reading"));
    };
    assert!(rt; reading.terms.file == "in.exi");
    assert!(rt; reading.hints == Some("h"));
    assert!(rt; reading.workers == 8 && reading.pages == 1_024);
    Ok(())
}
