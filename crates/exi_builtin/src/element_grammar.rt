ghost use Rattle.std.specs.Prelude.{◌≡◌, []};
ghost use Rattle.exi_builtin.specs.Learning.{new_grammar};

use crate::learned_list::LearnedList;
use exi_names::NameId;
use std::alloc::Global;

/// The grammar of the elements of a name: what its two states learned (EXI 1.0, section 8.4.3).
#[derive(Drop)]
pub struct ElementGrammar {
    pub name: NameId,
    pub start_tag: LearnedList,
    pub content: LearnedList,
}

impl ElementGrammar {
    /// The grammar of a name as it is written.
    pub fn new(alloc: Global, name: NameId) -> ElementGrammar
        ensures { result ≡ new_grammar name }
    {
        ElementGrammar {
            name,
            start_tag: LearnedList::new(alloc),
            content: LearnedList::new(alloc),
        }
    }

    /// Forgets what was learned. The memory is kept.
    pub fn clear(&mut self)
        ensures start_tag { self.new.start_tag ≡ [] }
        ensures content { self.new.content ≡ [] }
    {
        self.start_tag.clear();
        self.content.clear();
    }
}
