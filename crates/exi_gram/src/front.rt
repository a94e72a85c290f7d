ghost use Rattle.std.specs.Prelude.{◌≡◌, ◌+◌, ◌++◌, ◌∷◌, [], IfSome, IfNone};
ghost use Rattle.exi_gram.specs.Cells.{front_parts, next_part, parts_left};
ghost use Rattle.exi_gram.specs.CodeTrees.{along};
ghost use Rattle.exi_gram.specs.Tables.{parts_of};

use crate::code::Code;

/// The parts of a code before the next.
#[derive(Clone, Copy)]
pub enum Front {
    /// None.
    Empty,
    /// The first.
    First(u32),
    /// The first and the second.
    Second(u32, u32),
}

impl Front {
    /// With one part more, where another may follow it.
    pub fn then(self, part: u32) -> Option<Front>
        ensures parts { IfSome result (λ f. front_parts f ≡ front_parts self ++ part ∷ []) }
        ensures left { IfSome result (λ f. parts_left f + 1 ≡ parts_left self) }
        ensures last { IfNone result (parts_left self ≡ 1) }
    {
        match self {
            Front::Empty => Some(Front::First(part)),
            Front::First(first) => Some(Front::Second(first, part)),
            Front::Second(..) => None,
        }
    }

    /// The part that a code has behind these, where it begins with them and goes on, and whether that is
    /// its last.
    pub fn next(self, code: Code) -> Option<(u32, bool)>
        ensures { result ≡ next_part (along (front_parts self) (parts_of code)) }
    {
        match (self, code) {
            (Front::Empty, Code::One(part)) => Some((part, true)),
            (Front::Empty, Code::Two(part, _) | Code::Three(part, _, _)) => Some((part, false)),
            (Front::First(first), Code::Two(one, part)) if first == one => Some((part, true)),
            (Front::First(first), Code::Three(one, part, _)) if first == one => Some((part, false)),
            (Front::Second(first, second), Code::Three(one, two, part))
                if first == one && second == two => { Some((part, true)) }
            _ => None,
        }
    }
}
