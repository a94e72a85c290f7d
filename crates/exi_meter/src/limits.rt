ghost use Rattle.std.specs.Prelude.{◌≡◌};
ghost use Rattle.std.specs.Option.{SomeIff};
ghost use Rattle.exi_meter.specs.Metering.{IsWithinStream, bounds_of, stream_bounds};

use std::marker::Model;

/// The most events of a stream or an event list.
pub const MAX_EVENTS: u64 = 1 << 24;

/// The most text of a stream or an event list, in units.
pub const MAX_TEXT: u64 = 1 << 28;

/// The most elements that are open at one time.
pub const MAX_DEPTH: u32 = 512;

/// The limits of a meter: at most those of a stream.
#[derive(Clone, Copy, Debug, PartialEq, Eq)]
pub struct Limits {
    events: u64,
    text: u64,
    depth: u32,
}

impl Model for Limits {
    ghost use Rattle.exi_meter.specs.Metering.{Bounds, IsWithinStream, bounds_of};

    ghost Value = { Bounds };

    ghost view = { λ l. bounds_of l.events l.text l.depth };

    ghost invariant = { λ l. IsWithinStream (bounds_of l.events l.text l.depth) };

    ghost inverse = { λ b. record { events = b.events; text = b.text; depth = b.depth } };
}

impl Limits {
    /// The limits of a stream: [`MAX_EVENTS`], [`MAX_TEXT`] and [`MAX_DEPTH`].
    pub fn of_stream() -> Limits
        ensures { result ≡ stream_bounds }
    {
        Limits {
            events: MAX_EVENTS,
            text: MAX_TEXT,
            depth: MAX_DEPTH,
        }
    }

    /// These limits, or `None` exactly where one of them is above that of a stream.
    pub fn new(events: u64, text: u64, depth: u32) -> Option<Limits>
        ensures { let bounds = bounds_of events text depth in
            SomeIff result (IsWithinStream bounds) bounds }
    {
        if events <= MAX_EVENTS && text <= MAX_TEXT && depth <= MAX_DEPTH {
            Some(Limits {
                events,
                text,
                depth,
            })
        } else {
            None
        }
    }

    /// The most events.
    pub fn events(&self) -> u64
        ensures value { result ≡ self.now.events }
        ensures within { IsWithinStream self.now }
    {
        self.events
    }

    /// The most text, in units.
    pub fn text(&self) -> u64
        ensures value { result ≡ self.now.text }
        ensures within { IsWithinStream self.now }
    {
        self.text
    }

    /// The most open elements.
    pub fn depth(&self) -> u32
        ensures value { result ≡ self.now.depth }
        ensures within { IsWithinStream self.now }
    {
        self.depth
    }
}

#[cfg(test)]
mod tests {
    use super::*;

    #[test]
    fn takes_limits_up_to_those_of_a_stream(rt: HostRuntime) {
        for (events, text, depth, want) in [
            (0, 0, 0, true),
            (16_777_216, 268_435_456, 512, true),
            (16_777_217, 268_435_456, 512, false),
            (16_777_216, 268_435_457, 512, false),
            (16_777_216, 268_435_456, 513, false),
        ] {
            let limits = Limits::new(events, text, depth);
            assert_eq!(rt; limits.is_some(), want, "{events} {text} {depth}");
        }
        let stream = Limits::of_stream();
        assert_eq!(rt;
            Limits::new(stream.events(), stream.text(), stream.depth()),
            Some(stream)
        );
        assert_eq!(rt; stream.events(), 16_777_216);
        assert_eq!(rt; stream.text(), 268_435_456);
        assert_eq!(rt; stream.depth(), 512);
    }
}
