//! Which values a text may stand for.

ghost use Rattle.std.specs.Prelude.{◌≡◌};
ghost use Rattle.exi_names.specs.Seen.{seen, values_of, vals};
ghost use Rattle.exi_names.specs.Texts.{all_have_text, has_text};

use crate::val::{Val, ValList};

impl Val {
    /// Whether a text may stand for the value: it is neither a name, whose text takes the namespaces in scope, nor a
    /// list that holds one at any depth.
    #[cycle(has_text)]
    pub fn has_text(&self) -> bool
        ensures { result ≡ has_text (seen self.now) }
    {
        match self {
            Val::Text(_)
            | Val::Bool { .. }
            | Val::Int(_)
            | Val::Dec { .. }
            | Val::Flo { .. }
            | Val::Mom(_)
            | Val::Bin { .. } => true,
            Val::Items(list) => list.have_text(),
            Val::Name(_) => false,
        }
    }
}

impl ValList {
    /// Whether each value has a text.
    #[cycle(has_text)]
    pub fn have_text(&self) -> bool
        ensures { result ≡ all_have_text (values_of (vals self.now)) }
    {
        for value in &self.items {
            if !value.has_text() {
                return false;
            }
        }
        true
    }
}
