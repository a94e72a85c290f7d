ghost use Rattle.std.specs.Prelude.{◌≡◌, ◌<◌, ◌≤◌, ◌^◌, [], ◌∷◌, ℕ, None, Some, if◌then◌else◌, All, length, slice_get, OnOk, OnErr};
ghost use Rattle.exi_builtin.specs.LeastCodes.{first_place, is_it, is_named};
ghost use Rattle.std.specs.Option.{option_map};
ghost use Rattle.exi_builtin.specs.Marks.{IsLearned, code_at_place};
ghost use Rattle.exi_builtin.specs.Uses.{stands_already};

use crate::learnable::{Learnable, Learned};
use crate::name_index::{LookUp, NameIndex, add_name};
use crate::uses::{is_characters, is_end, is_known_type, is_type};
use exi_names::NameId;
use std::alloc::{AllocError, Global};
use std::marker::Model;

/// The productions that a state learned. The latest has the code 0.
///
/// A contract sees them as a list, the latest first. They are kept in the order in which they were
/// learned, so that one more is pushed at the end and a code is found by its place from there. Where CH and
/// EE stand is kept beside them, and where there are many to look up by name, the latest of each name.
#[derive(Drop)]
pub struct LearnedList {
    items: Vec<Learnable>,
    names: Option<Box<NameIndex>>,
    characters: Option<u32>,
    end: Option<u32>,
    has_type: bool,
}

impl Model for LearnedList {
    ghost use Rattle.std.specs.Prelude.{List, reverse};
    ghost use Rattle.exi_builtin.specs.declared.learnable.Learnable.{Learnable};
    ghost use Rattle.exi_builtin.specs.Marks.{IsMarked};

    ghost Value = { List Learnable };

    ghost view = { λ l. reverse l.items.items };

    ghost invariant = { λ l.
        IsMarked (reverse l.items.items) l.characters l.end l.has_type l.names };
}

impl LearnedList {
    /// None.
    pub fn new(alloc: Global) -> LearnedList
        ensures { result ≡ [] }
    {
        LearnedList {
            items: Vec::new(alloc),
            names: None,
            characters: None,
            end: None,
            has_type: false,
        }
    }

    /// How many there are.
    #[inline]
    pub fn len(&self) -> u32
        ensures count { result ≡ length self.now }
        ensures few { result ≤ 2 ^ 31 }
        ensures only { All IsLearned self.now }
    {
        self.items.len() as u32
    }

    /// The production of a code.
    #[inline]
    pub fn at(&self, code: u32) -> Option<Learnable>
        ensures { result ≡ slice_get self.now code }
    {
        let count = self.items.len();
        let later = code as usize;
        if later < count {
            return Some(self.items[count - 1 - later]);
        }
        None
    }

    /// The production of a code that is there.
    #[inline(always)]
    pub fn learned_at(&self, code: u32) -> Learnable
        requires { code < length self.now }
        ensures { Some result ≡ slice_get self.now code }
    {
        self.items[self.items.len() - 1 - code as usize]
    }

    /// The code of the production of a name, the least where there are several, by the index where there is one.
    #[inline(never)]
    fn code_of_name(&self, name: NameId, attribute: bool) -> Option<u32>
        ensures { result ≡ first_place (is_named name attribute) self.now }
    {
        match &self.names {
            Some(names) => self.code_at(names.place_of(name, attribute)),
            None => self.compared_code(name, attribute),
        }
    }

    /// The code of the production of a name. They are compared with it one by one.
    fn compared_code(&self, name: NameId, attribute: bool) -> Option<u32>
        ensures { result ≡ first_place (is_named name attribute) self.now }
    {
        for code in 0..self.len() {
            if is_named(name, attribute, self.learned_at(code)) {
                return Some(code);
            }
        }
        None
    }

    /// The code of the production that was learned at a place.
    #[inline]
    fn code_at(&self, place: Option<u32>) -> Option<u32>
        requires within { (p : ℕ) → place ≡ Some p → p < length self.now }
        ensures { result ≡ option_map (code_at_place (length self.now)) place }
    {
        match place {
            Some(place) => Some(self.len() - 1 - place),
            None => None,
        }
    }

    /// The code of the production that was learned at a place, where it has one part.
    #[inline]
    fn code_if(&self, one_part: bool, place: Option<u32>) -> Option<u32>
        requires within { (p : ℕ) → place ≡ Some p → p < length self.now }
        ensures { result ≡ (if one_part then option_map (code_at_place (length self.now)) place else None) }
    {
        if one_part { self.code_at(place) } else { None }
    }

    /// The code of a production, the least where there are several.
    #[inline(always)]
    pub fn code_of(&self, production: Learnable) -> Option<u32>
        ensures { result ≡ first_place (is_it production) self.now }
    {
        match production {
            Learnable::Known(name, attribute) => self.code_of_name(name, attribute),
            Learnable::Ch(one_part) => self.code_if(one_part, self.characters),
            Learnable::Ee(one_part) => self.code_if(one_part, self.end),
            Learnable::SeAny => None,
            Learnable::AtAny => None,
            Learnable::Ed => None,
            Learnable::Ns => None,
            Learnable::Sc => None,
            Learnable::Er => None,
            Learnable::Cm => None,
            Learnable::Pi => None,
        }
    }

    /// Whether the production that a use would add stands already, where it is added once only.
    #[inline(always)]
    pub fn stands(&self, used: Learned) -> bool
        ensures { result ≡ stands_already used self.now }
    {
        match used {
            Learned::Se(_) => false,
            Learned::At(name) => is_type(name) && self.has_type,
            Learned::Ch => self.characters.is_some(),
            Learned::Ee => self.end.is_some(),
        }
    }

    /// Adds a production of a use, which gets the code 0; the codes of the others rise by one.
    ///
    /// # Errors
    ///
    /// `AllocError` where memory is refused; the list is then unchanged.
    pub fn push(
        &mut self,
        production: Learnable,
        look_up: LookUp,
        alloc: Global,
    ) -> Result<(), AllocError>
        requires room { length self.old < 2 ^ 31 }
        requires learned { IsLearned production }
        ensures ok { OnOk result (self.new ≡ production ∷ self.old) }
        ensures err { OnErr result (self.new ≡ self.old) }
    {
        let place = self.items.len() as u32;
        self.items.reserve(1)?;
        add_name(
            &mut self.names,
            self.items.as_slice(),
            production,
            look_up,
            alloc,
        )?;
        self.items.push_reserved(production);
        self.characters = place_if(is_characters(production), place, self.characters);
        self.end = place_if(is_end(production), place, self.end);
        self.has_type = is_known_type(production) || self.has_type;
        Ok(())
    }

    /// Forgets all. The memory of the productions is kept, and that of the index given back.
    pub fn clear(&mut self)
        ensures { self.new ≡ [] }
    {
        self.items.clear();
        self.names = None;
        self.characters = None;
        self.end = None;
        self.has_type = false;
    }
}

/// Whether a production is one of this name.
#[inline(always)]
fn is_named(name: NameId, attribute: bool, production: Learnable) -> bool
    ensures { result ≡ is_named name attribute production }
{
    match production {
        Learnable::Known(other, a) => other == name && a == attribute,
        _ => false,
    }
}

/// This place where it holds, and else the one that was kept.
fn place_if(holds: bool, place: u32, kept: Option<u32>) -> Option<u32>
    ensures { result ≡ (if holds then Some place else kept) }
{
    if holds { Some(place) } else { kept }
}
