ghost use Rattle.std.specs.Prelude.{◌≡◌, ◌+◌, ◌<◌, ◌≤◌, ◌^◌, [], ◌∷◌, ◌++◌, filter, length, map, IfOk, OnOk, OnErr};
ghost use Rattle.exi_gram.specs.Codes.{coded, coded_from};
ghost use Rattle.exi_gram.specs.Tables.{parts_of};
ghost use Rattle.exi_builtin.specs.BuiltIn.{is_kept, left_of, written};
ghost use Rattle.exi_builtin.specs.CodeParts.{coded_of, parts_before};
ghost use Rattle.exi_builtin.specs.Learning.{behind_learned};

use crate::learnable::{Learnable, Room};
use crate::learned_list::LearnedList;
use crate::written::{as_written, is_kept};
use exi_gram::{Code, Options};
use std::alloc::{AllocError, Global};
use std::marker::Model;

/// The parts of a code before the last.
#[derive(Clone, Copy)]
pub enum Front {
    /// None.
    Empty,
    /// The first.
    First(u32),
    /// The first and the second.
    Second(u32, u32),
}

impl Front {
    /// The code that ends with this part.
    #[inline(always)]
    pub fn code(self, part: u32) -> Code
        ensures { parts_of result ≡ parts_before self ++ part ∷ [] }
    {
        match self {
            Front::Empty => Code::One(part),
            Front::First(first) => Code::Two(first, part),
            Front::Second(first, second) => Code::Three(first, second, part),
        }
    }
}

/// Productions with their codes, in the order of the codes.
#[derive(Debug, Drop)]
pub struct CodeList {
    items: Vec<(Code, Learnable)>,
}

impl Model for CodeList {
    ghost use Rattle.std.specs.Prelude.{List};
    ghost use Rattle.exi_gram.specs.declared.code.Code.{Code};
    ghost use Rattle.exi_builtin.specs.declared.learnable.Learnable.{Learnable};

    ghost Value = { List (Code × Learnable) };

    ghost view = { λ l. l.items.items };
}

impl CodeList {
    /// The empty list.
    pub fn new(alloc: Global) -> CodeList
        ensures { result ≡ [] }
    {
        CodeList {
            items: Vec::new(alloc),
        }
    }

    /// The codes and productions.
    pub fn as_slice(&self) -> &[(Code, Learnable)]
        ensures { result.now ≡ self.now }
    {
        self.items.as_slice()
    }

    /// Adds a production with its code at the end.
    ///
    /// # Errors
    ///
    /// `AllocError` where memory is refused; the list is then unchanged.
    pub fn push(&mut self, code: Code, production: Learnable) -> Result<(), AllocError>
        ensures ok { OnOk result (self.new ≡ self.old ++ (code, production) ∷ []) }
        ensures err { OnErr result (self.new ≡ self.old) }
    {
        self.items.push((code, production))?;
        Ok(())
    }

    /// Adds what a state learned.
    fn add_learned(&mut self, learned: &LearnedList) -> Result<(), AllocError>
        ensures { OnOk result (map coded_of self.new
            ≡ map coded_of self.old ++ coded_from [] 0 learned.now) }
    {
        for part in 0..learned.len() {
            let production = learned.at(part).unwrap();
            self.push(Front::Empty.code(part), production)?;
        }
        Ok(())
    }

    /// Adds those productions that the options leave, with the parts from this one on behind the front, and
    /// gives the next part.
    fn add_kept(
        &mut self,
        front: Front,
        from: u32,
        productions: &[Learnable],
        options: &Options,
    ) -> Result<u32, AllocError>
        requires few { length productions.now ≤ 8 }
        requires low { from ≤ 2 ^ 31 }
        ensures added { OnOk result (map coded_of self.new ≡ map coded_of self.old
            ++ coded_from (parts_before front) from (filter (is_kept options.now) productions.now)) }
        ensures next { IfOk result (λ next. next
            ≡ from + length (filter (is_kept options.now) productions.now)) }
    {
        let mut part = from;
        for production in productions {
            if is_kept(options, *production) {
                self.push(front.code(part), *production)?;
                part += 1;
            }
        }
        Ok(part)
    }
}

/// The codes of a state that learned these productions.
///
/// # Errors
///
/// `AllocError` where memory is refused.
pub fn codes_behind(
    alloc: Global,
    learned: &LearnedList,
    room: Room,
    options: &Options,
) -> Result<CodeList, AllocError>
    ensures { IfOk result (λ list. map coded_of list
        ≡ coded (behind_learned learned.now (left_of options.now (written room)))) }
{
    let written = as_written(room);
    let mut list = CodeList::new(alloc);
    list.add_learned(learned)?;
    let first = list.add_kept(Front::Empty, learned.len(), written.firsts, options)?;
    let second = list.add_kept(Front::First(first), 0, written.singles, options)?;
    list.add_kept(Front::Second(first, second), 0, written.members, options)?;
    Ok(list)
}
