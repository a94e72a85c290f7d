// The texts of the events.
ghost use Rattle.std.specs.Prelude.{◌≡◌, ◌<◌, ◌^◌, length, IfOk};

use exi_names::Txt;
use std::alloc::{AllocError, Global};

/// The texts of which the events are made.
#[derive(Drop)]
pub struct Texts {
    /// No characters.
    pub uri: Txt,
    /// 4 characters.
    pub local: Txt,
    /// 16 characters.
    pub short: Txt,
    /// 1,024 characters.
    pub long: Txt,
    ghost few_in_uri: { length uri < 2 ^ 20 },
    ghost few_in_local: { length local < 2 ^ 20 },
    ghost few_in_short: { length short < 2 ^ 20 },
    ghost few_in_long: { length long < 2 ^ 20 },
}

impl Texts {
    /// All of them.
    pub fn new(alloc: Global) -> Result<Texts, AllocError> {
        Ok(Texts {
            uri: text(alloc, 0)?,
            local: text(alloc, 4)?,
            short: text(alloc, 16)?,
            long: text(alloc, 1024)?,
        })
    }
}

/// A text of that many characters.
fn text(alloc: Global, count: u32) -> Result<Txt, AllocError>
    ensures { IfOk result (λ t. length t ≡ count) }
{
    let mut text = Txt::new(alloc);
    for _ in 0..count {
        text.push('x')?;
    }
    Ok(text)
}
