//! Terminals as keys.

ghost use Rattle.std.specs.Prelude.{◌≡◌, option_copied};
ghost use Rattle.std.specs.Cmp;
ghost use Rattle.std.specs.Cmp.{on_equiv, on_per};
ghost use Rattle.exi_gram.specs.Terminals.{symbol};
ghost use Rattle.exi_normal.specs.KeyLaws.{fed_same, symbols_equiv};
ghost use Rattle.exi_normal.specs.Keys.{fed_by, text_of};
ghost use Rattle.exi_normal.specs.Normals.{same_symbol};

use exi_gram::Terminal;
use exi_names::Txt;
use std::hash::{Hash, Hasher};

/// A terminal, by which it is found.
#[derive(Clone, Copy)]
pub(crate) struct Key<'a> {
    pub terminal: &'a Terminal,
}

/// Whether both are the same terminal.
fn same(a: &Terminal, b: &Terminal) -> bool
    ensures { result ≡ same_symbol (symbol a.now) (symbol b.now) }
{
    match (a, b) {
        (Terminal::Se(a), Terminal::Se(b)) => a.same(b),
        (Terminal::SeIn(a), Terminal::SeIn(b)) => a.same(b),
        (Terminal::At(a, r), Terminal::At(b, s)) => a.same(b) && r.same(s),
        (Terminal::AtIn(a), Terminal::AtIn(b)) => a.same(b),
        (Terminal::AtText(a), Terminal::AtText(b)) => a.same(b),
        (Terminal::Ch(r), Terminal::Ch(s)) => r.same(s),
        _ => a.class().number() == b.class().number(),
    }
}

/// The local name or the URI of a terminal.
fn text_of(terminal: &Terminal) -> Option<&Txt>
    ensures { option_copied result ≡ text_of (symbol terminal.now) }
{
    match terminal {
        Terminal::Se(name) | Terminal::At(name, _) | Terminal::AtText(name) => Some(&name.local),
        Terminal::SeIn(uri) | Terminal::AtIn(uri) => Some(uri),
        Terminal::Sd
        | Terminal::Ed
        | Terminal::SeAny
        | Terminal::AtAny
        | Terminal::AtAnyText
        | Terminal::XsiType
        | Terminal::XsiNil
        | Terminal::Ch(_)
        | Terminal::ChText
        | Terminal::Ee
        | Terminal::Ns
        | Terminal::Sc
        | Terminal::Er
        | Terminal::Cm
        | Terminal::Pi
        | Terminal::Dt => None,
    }
}

impl<'a> PartialEq for Key<'a> {
    ghost eq = { λ a b. same_symbol (symbol a.terminal.now) (symbol b.terminal.now) };

    ghost laws = { on_per (λ k. symbol k.terminal.now) (Cmp.partial_equiv_from_equiv symbols_equiv) };

    fn eq(&self, other: &Key<'a>) -> bool {
        same(self.terminal, other.terminal)
    }
}

impl<'a> Eq for Key<'a> {
    ghost laws = { on_equiv (λ k. symbol k.terminal.now) symbols_equiv };
}

impl<'a> Hash for Key<'a> {
    ghost hash_input = { λ k. fed_by (symbol k.terminal.now) };

    ghost respects_eq = { λ a b h. fed_same (symbol a.terminal.now) (symbol b.terminal.now) h };

    fn hash<H: Hasher>(&self, state: &mut H) {
        match text_of(self.terminal) {
            Some(text) => text.hash(state),
            None => self.terminal.class().number().hash(state),
        }
    }
}
