ghost use Rattle.std.specs.Prelude.{◌≡◌, ◌≤◌, if◌then◌else◌, length, slice_get};
ghost use Rattle.exi_gram.specs.Codes.{kept_seconds, longer};
ghost use Rattle.exi_builtin.specs.BuiltIn.{is_kept, written};
ghost use Rattle.exi_builtin.specs.Layout.{laid_out};

use crate::learnable::{Learnable, Room};
use bitflags::Flags;
use exi_gram::{OptionFlags, Options};

/// The productions of a state before anything is learned, by the number of their codes' parts
/// (EXI 1.0, sections 8.4.2 and 8.4.3).
#[derive(Clone, Copy)]
pub struct Written {
    /// Those with one part. No option switches them off.
    pub firsts: &'static [Learnable],
    /// Those with two parts.
    pub singles: &'static [Learnable],
    /// Those with three parts, which share the second part behind the others.
    pub members: &'static [Learnable],
}

/// The productions with codes of one part as they are written. No option switches them off.
#[inline(always)]
pub fn firsts_of(room: Room) -> &'static [Learnable]
    ensures firsts { result.now ≡ (written room).firsts }
    ensures few { length result.now ≤ 8 }
{
    match room {
        Room::StartTag(_) => &[],
        Room::Content(_) => &[Learnable::Ee(true)],
        Room::Fragment => &[Learnable::SeAny, Learnable::Ed],
    }
}

/// The production at a place among those with codes of one part as they are written.
#[inline(always)]
pub fn written_at(room: Room, place: u32) -> Option<Learnable>
    ensures { result ≡ slice_get (written room).firsts place }
{
    match room {
        Room::StartTag(_) => None,
        Room::Content(_) => match place {
            0 => Some(Learnable::Ee(true)),
            _ => None,
        },
        Room::Fragment => match place {
            0 => Some(Learnable::SeAny),
            1 => Some(Learnable::Ed),
            _ => None,
        },
    }
}

/// Whether the options leave a code of more parts than one: that of EE or SE(*) always, where it is written
/// with two.
#[inline(always)]
pub fn has_longer(options: &Options, room: Room) -> bool
    ensures { longer (kept_seconds (is_kept options.now) (written room).seconds)
        ≡ (if result then 1 else 0) }
{
    match room {
        Room::StartTag(_) | Room::Content(_) => true,
        Room::Fragment => is_kept(options, Learnable::Cm) || is_kept(options, Learnable::Pi),
    }
}

/// The productions of a state as they are written.
pub fn as_written(room: Room) -> Written
    ensures written { laid_out result.firsts.now result.singles.now result.members.now ≡ written room }
    ensures firsts { length result.firsts.now ≤ 8 }
    ensures singles { length result.singles.now ≤ 8 }
    ensures members { length result.members.now ≤ 8 }
{
    match room {
        Room::StartTag(_) => Written {
            firsts: firsts_of(room),
            singles: &[
                Learnable::Ee(false),
                Learnable::AtAny,
                Learnable::Ns,
                Learnable::Sc,
                Learnable::SeAny,
                Learnable::Ch(false),
                Learnable::Er,
            ],
            members: &[Learnable::Cm, Learnable::Pi],
        },
        Room::Content(_) => Written {
            firsts: firsts_of(room),
            singles: &[Learnable::SeAny, Learnable::Ch(false), Learnable::Er],
            members: &[Learnable::Cm, Learnable::Pi],
        },
        Room::Fragment => Written {
            firsts: firsts_of(room),
            singles: &[Learnable::Cm, Learnable::Pi],
            members: &[],
        },
    }
}

/// Whether the options leave a production (EXI 1.0, section 8.3).
#[inline]
pub fn is_kept(options: &Options, production: Learnable) -> bool
    ensures { result ≡ is_kept options.now production }
{
    match production {
        Learnable::Ns => options.flags.contains(OptionFlags::PREFIXES),
        Learnable::Sc => options.flags.contains(OptionFlags::SELF_CONTAINED),
        Learnable::Er => options.flags.contains(OptionFlags::DTD),
        Learnable::Cm => options.flags.contains(OptionFlags::COMMENTS),
        Learnable::Pi => options.flags.contains(OptionFlags::PIS),
        _ => true,
    }
}
