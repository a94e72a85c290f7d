//! The copies of what stands more than once.

ghost use Rattle.std.specs.Prelude.{◌≡◌};
ghost use Rattle.xsd_model.specs.Parts.{IsAtMost};
ghost use Rattle.exi_counts.specs.Counts.{copies};
ghost use Rattle.exi_proto.specs.Tasks.{Splits, has_none, hows, hows_of};

use xsd_model::Particle;

/// How a copy stands.
#[derive(Clone, Copy, Debug)]
pub(crate) enum How {
    /// Once.
    Once,
    /// Once or not at all.
    Optional,
    /// As often as it may be, also not at all.
    Repeated,
}

/// The copies that are still to be made.
#[derive(Clone, Copy, Debug)]
pub(crate) struct Copies {
    /// How many have to stand.
    pub least: u32,
    /// How many more may stand; none where there is no bound.
    pub more: Option<u32>,
}

impl Copies {
    /// The first of them, and those behind it.
    pub(crate) fn split(self) -> Option<(How, Copies)>
        ensures { Splits result self }
    {
        if self.least > 0 {
            let least = self.least - 1;
            return Some((How::Once, Copies { least, ..self }));
        }
        match self.more {
            None => Some((
                How::Repeated,
                Copies {
                    least: 0,
                    more: Some(0),
                },
            )),
            Some(0) => None,
            Some(more) => Some((
                How::Optional,
                Copies {
                    least: 0,
                    more: Some(more - 1),
                },
            )),
        }
    }

    /// Whether there are none.
    pub(crate) fn is_none(self) -> bool
        ensures { result ≡ has_none (hows self) }
    {
        self.split().is_none()
    }
}

/// How many copies there are of what a particle is of.
pub(crate) fn copy_count(particle: &Particle) -> u64
    ensures { result ≡ copies particle.now.least particle.now.most }
{
    match particle.most {
        None => u64::from(particle.least) + 1,
        Some(most) => u64::from(most),
    }
}

/// The copies of what a particle is of.
pub(crate) fn copies_of(particle: &Particle) -> Copies
    requires bounds { IsAtMost particle.now.least particle.now.most }
    ensures { hows result ≡ hows_of particle.now.least particle.now.most }
{
    Copies {
        least: particle.least,
        more: match particle.most {
            None => None,
            Some(most) => Some(most - particle.least),
        },
    }
}
