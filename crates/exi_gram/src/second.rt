ghost use Rattle.std.specs.Prelude.{◌≡◌, ◌≤◌};
ghost use Rattle.exi_gram.specs.Tables.{first_count, most_productions};

/// What a second part of a code tells.
#[derive(Clone, Copy, Debug)]
pub struct SecondPart {
    /// The place of the first production that it tells.
    pub begin: u32,
    /// How many productions it tells.
    pub count: u32,
    /// Whether a third part tells them apart.
    pub group: bool,
}

/// How many values a first part has: one for each code of one part, and one for all longer codes.
pub fn values_of_first(firsts: u32, seconds: &[SecondPart]) -> u32
    requires few { firsts ≤ most_productions }
    ensures { result ≡ first_count firsts seconds.now }
{
    if seconds.is_empty() {
        firsts
    } else {
        firsts + 1
    }
}
