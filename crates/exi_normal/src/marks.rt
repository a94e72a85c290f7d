//! Sets of states.

ghost use Rattle.std.specs.Prelude.{◌≡◌, ◌∷◌, ◌++◌, [], false, OnOk, IfOk};
ghost use Rattle.exi_gram.specs.Reaching.{is_among};

use std::alloc::{AllocError, Global};
use std::marker::Model;

/// States in the order in which they came, each once where none is put in twice. A set costs no time to clear, and none for
/// states that are not in it.
#[derive(Drop)]
pub(crate) struct Marks {
    /// Of each state the place at which it stands, where it stands there at all.
    places: Vec<usize>,
    states: Vec<u32>,
}

impl Model for Marks {
    ghost use Rattle.std.specs.Prelude.{List, ℕ};
    ghost use Rattle.exi_normal.specs.Marking.{AreMarked};

    ghost Value = { List ℕ };

    ghost view = { λ m. m.states.items };

    ghost invariant = { λ m. AreMarked m.places.items m.states.items };
}

/// Whether a state is among these.
fn is_among(state: u32, states: &[u32]) -> bool
    ensures { result ≡ is_among state states.now }
{
    for other in states {
        if state == *other {
            return true;
        }
    }
    false
}

impl Marks {
    /// None of so many states.
    pub fn new(alloc: Global, count: usize) -> Result<Marks, AllocError>
        ensures { IfOk result (λ m. m ≡ []) }
    {
        Ok(Marks {
            places: vec![in alloc; 0; count]?,
            states: Vec::new(alloc),
        })
    }

    /// Takes all out.
    pub fn clear(&mut self)
        ensures { self.new ≡ [] }
    {
        self.states.clear();
    }

    /// Whether a state is in it.
    pub fn has(&self, state: u32) -> bool
        ensures { result ≡ is_among state self.now }
    {
        match self.places.get(state as usize) {
            Some(place) => match self.states.get(*place) {
                Some(other) => state == *other,
                None => false,
            },
            None => is_among(state, self.states.as_slice()),
        }
    }

    /// Puts a state in that is not in it yet.
    pub fn put(&mut self, state: u32) -> Result<(), AllocError>
        requires new { is_among state self.old ≡ false }
        ensures { OnOk result (self.new ≡ self.old ++ state ∷ []) }
    {
        let place = self.states.len();
        self.states.push(state)?;
        if (state as usize) < self.places.len() {
            self.places[state as usize] = place;
        }
        Ok(())
    }

    /// The states.
    pub fn states(&self) -> &[u32]
        ensures { result.now ≡ self.now }
    {
        self.states.as_slice()
    }
}
