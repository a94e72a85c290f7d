ghost use Rattle.std.specs.Prelude.{◌≡◌};
ghost use Rattle.exi_choice.specs.Sought.{naming, sought_attribute, sought_for};

use exi_candidates::Sought;
use exi_gram::Named;
use exi_processing::{Content, Telling, is_nil, is_type};

/// The places of a name or URI, as far as they are told.
fn naming(telling: Telling) -> Named
    ensures { result ≡ naming telling }
{
    match telling {
        Telling::Spelled => Named::Nothing,
        Telling::Under(uri) => Named::Uri(uri),
        Telling::Known(id) => Named::Name(id),
    }
}

/// By what the productions for an attribute are looked up: those for `xsi:type` and `xsi:nil` are others.
fn sought_attribute(telling: Telling) -> Sought
    ensures { result ≡ sought_attribute telling }
{
    let named = naming(telling);
    match telling {
        Telling::Spelled | Telling::Under(_) => Sought::At(named),
        Telling::Known(id) => {
            if is_type(id) {
                Sought::Type(named)
            } else if is_nil(id) {
                Sought::Nil(named)
            } else {
                Sought::At(named)
            }
        }
    }
}

/// By what the productions for an event are looked up in a state of the book.
pub fn sought_for(wanted: Content) -> Sought
    ensures { result ≡ sought_for wanted }
{
    match wanted {
        Content::StartDocument => Sought::Sd,
        Content::EndDocument => Sought::Ed,
        Content::Element(telling) => Sought::Se(naming(telling)),
        Content::Attribute(telling, _) => sought_attribute(telling),
        Content::Characters => Sought::Ch,
        Content::EndElement => Sought::Ee,
        Content::Declaration => Sought::Ns,
        Content::SelfContained => Sought::Sc,
        Content::Comment => Sought::Cm,
        Content::Instruction => Sought::Pi,
        Content::DocumentType => Sought::Dt,
        Content::Entity => Sought::Er,
    }
}
