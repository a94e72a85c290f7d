ghost use Rattle.std.specs.Prelude.{◌≡◌};
ghost use Rattle.exi_builtin.specs.BuiltIn.{written};
ghost use Rattle.exi_builtin.specs.Uses.{
  added_by,
  is_characters,
  is_end,
  is_known_type,
  is_type,
  stands_already,
};

use crate::learnable::{Learnable, Learned, Room};
use exi_names::NameId;

/// Whether a name is xsi:type, which the first string tables have at these places (EXI 1.0, appendix D).
pub fn is_type(name: NameId) -> bool
    ensures { result ≡ is_type name }
{
    name.uri == 2 && name.local == 1
}

/// The production that a use adds.
pub fn added_by(used: Learned) -> Learnable
    ensures { result ≡ added_by used }
{
    match used {
        Learned::Se(name) => Learnable::Known(name, false),
        Learned::At(name) => Learnable::Known(name, true),
        Learned::Ch => Learnable::Ch(true),
        Learned::Ee => Learnable::Ee(true),
    }
}

/// Whether a production is CH with a code of one part.
pub fn is_characters(production: Learnable) -> bool
    ensures { result ≡ is_characters production }
{
    match production {
        Learnable::Ch(one_part) => one_part,
        _ => false,
    }
}

/// Whether a production is EE with a code of one part.
pub fn is_end(production: Learnable) -> bool
    ensures { result ≡ is_end production }
{
    match production {
        Learnable::Ee(one_part) => one_part,
        _ => false,
    }
}

/// Whether a production is AT(xsi:type).
pub fn is_known_type(production: Learnable) -> bool
    ensures { result ≡ is_known_type production }
{
    match production {
        Learnable::Known(name, attribute) => attribute && is_type(name),
        _ => false,
    }
}

/// Whether a state as it is written has the production of one part that a use would add.
pub fn stands_written(room: Room, used: Learned) -> bool
    ensures { result ≡ stands_already used (written room).firsts }
{
    match (room, used) {
        (Room::Content(_), Learned::Ee) => true,
        _ => false,
    }
}
