ghost use Rattle.std.specs.Prelude.{◌≡◌, None};
ghost use Rattle.exi_processing.specs.Handing.{Pays, alone_of, charged_at, charges_on, terminal_in};

use crate::alone::Alone;
use crate::rule::Content;
use exi_bits::{Fault, Kind};
use exi_meter::Meter;

/// What is asked and charged before an event's content, in this order.
#[derive(Clone, Copy, Debug, PartialEq, Eq)]
pub struct Charges {
    /// The event is refused as it stands.
    pub barred: Option<Kind>,
    /// One event is charged.
    pub counted: bool,
    /// The event is refused where it stands.
    pub misplaced: Option<Kind>,
    /// One level is entered.
    pub entered: bool,
}

impl Charges {
    /// Those of what is read there, by whether the event before was an SE.
    #[inline(always)]
    pub fn of(content: Content, alone: Alone, after_start: bool) -> Charges
        ensures { result ≡ charges_on (alone_of alone) after_start (terminal_in content None) }
    {
        let mut charges = Charges {
            barred: None,
            counted: true,
            misplaced: None,
            entered: false,
        };
        if alone == Alone::AtEnd {
            charges.barred = Some(Kind::ScNotOne);
        }
        match content {
            Content::StartDocument => charges.counted = alone.is_event(),
            Content::EndDocument => {
                charges.barred = None;
                charges.counted = alone.is_event();
            }
            Content::Element(_) => {
                charges.counted = alone.is_event();
                charges.entered = charges.counted;
            }
            Content::SelfContained => {
                if !after_start {
                    charges.misplaced = Some(Kind::ScPlace);
                }
            }
            Content::Attribute(_, _)
            | Content::Characters
            | Content::EndElement
            | Content::Declaration
            | Content::Comment
            | Content::Instruction
            | Content::DocumentType
            | Content::Entity => {}
        }
        charges
    }

    /// Charges the meter. The first bit of the event is that of each fault.
    #[tactic(auto, unfolding(crate::specs::Handing::charged_at))]
    #[inline(always)]
    pub fn pay(self, meter: &mut Meter, bit: u64) -> Result<(), Fault>
        ensures { Pays result meter.new (charged_at bit self meter.old) }
    {
        if let Some(kind) = self.barred {
            return Err(Fault { kind, bit });
        }
        if self.counted && !meter.event() {
            return Err(Fault {
                kind: Kind::EventLimit,
                bit,
            });
        }
        if let Some(kind) = self.misplaced {
            return Err(Fault { kind, bit });
        }
        if self.entered && !meter.enter() {
            return Err(Fault {
                kind: Kind::DepthLimit,
                bit,
            });
        }
        Ok(())
    }
}
