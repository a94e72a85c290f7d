ghost use Rattle.std.specs.Prelude.{◌≡◌, ◌++◌, ◌<◌, ◌^◌, All, IfOk, OnOk, drop, length, map};
ghost use Rattle.exi_gram.specs.Additions.{made_states, part_states};
ghost use Rattle.exi_gram.specs.Books.{state_of};
ghost use Rattle.exi_gram.specs.Switches.{strict};
ghost use Rattle.exi_gram.specs.Terminals.{rules_of};

use crate::maker::Maker;
use exi_gram::{CodedState, Grammar, Items, Schema};
use std::alloc::AllocError;

/// The grammars past Document and Fragment.
fn parts(grammars: &[Grammar]) -> &[Grammar]
    ensures { result.now ≡ drop 2 grammars.now }
{
    match grammars.get(2..) {
        Some(parts) => parts,
        None => &[],
    }
}

impl Maker<'_> {
    /// Adds the states of the grammars of elements and types.
    fn push_parts(
        &self,
        states: &mut Items<Items<CodedState>>,
        grammars: &[Grammar],
    ) -> Result<(), AllocError>
        requires states { All (λ g. length g.states < 2 ^ 30) grammars.now }
        requires productions { All (λ g. All (λ state. length state < 2 ^ 30) g.states) grammars.now }
        ensures { OnOk result (states.new
            ≡ states.old ++ map (map (state_of self.now.options.now self.now.places.now)) (map (part_states (strict self.now.options.now)) (map rules_of grammars.now))) }
    {
        for grammar in grammars {
            states.push(self.part_states(grammar)?)?;
        }
        Ok(())
    }

    /// The states of all grammars of a schema.
    ///
    /// # Errors
    ///
    /// `AllocError` where memory is refused.
    pub fn all_states(&self, schema: &Schema) -> Result<Items<Items<CodedState>>, AllocError>
        ensures { IfOk result (λ states. states
            ≡ map (map (state_of self.now.options.now self.now.places.now)) (made_states (strict self.now.options.now) schema.now)) }
    {
        let mut states = Items::new(self.alloc);
        states.push(self.document(schema.globals())?)?;
        if !schema.is_known() {
            return Ok(states);
        }
        states.push(self.fragment(schema.fragment())?)?;
        self.push_parts(&mut states, parts(schema.grammars()))?;
        Ok(states)
    }
}
