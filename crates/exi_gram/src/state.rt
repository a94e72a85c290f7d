ghost use Rattle.std.specs.Prelude.{◌≡◌, ◌+◌, ◌<◌, ◌≤◌, ◌∷◌, ◌++◌, [], false, true, OnOk, OnErr, IfOk, filter, map, length};
ghost use Rattle.exi_bits.specs.Written.{IsWholeBytes};
ghost use Rattle.exi_items.specs.Fronts.{HoldsFront};
ghost use Rattle.exi_gram.specs.Books.{is_kept, left_of};
ghost use Rattle.exi_gram.specs.Candidates.{Finds};
ghost use Rattle.exi_gram.specs.Codes.{code_bits, coded, group, kept_second, single};
ghost use Rattle.exi_gram.specs.Laws.{codes};
ghost use Rattle.exi_gram.specs.Naming.{entry};
ghost use Rattle.exi_gram.specs.Tables.{coded_of, ends_in_group, items_of, kept_entry, most_productions, no_productions, parts_at, second_of, size, with_first, with_firsts, with_member, with_second, with_seconds};
ghost use Rattle.exi_gram.specs.Terminals.{rule};
ghost use Rattle.exi_gram.specs.Wholes.{listed};

use crate::code::{Code, Coded};
use crate::code_table::CodeTable;
use crate::grammar::Production;
use crate::index::Index;
use crate::items::Items;
use crate::named::Named;
use crate::options::Options;
use crate::second::SecondPart;
use crate::write::write_kept;
use exi_bits::{Align, BitOut};
use std::alloc::{AllocError, Global};
use std::marker::Model;

/// The productions of a state with their codes (EXI 1.0, section 6.2), in the order of the codes. Those
/// with codes of one part come first; each second part tells one production or a group.
#[derive(Debug, Drop)]
pub struct CodedState {
    coded: Vec<Coded>,
    firsts: u32,
    seconds: Vec<SecondPart>,
}

impl Model for CodedState {
    ghost use Rattle.exi_gram.specs.Codes.{Productions};
    ghost use Rattle.exi_gram.specs.Naming.{Entry};

    ghost Value = { Productions Entry };

    ghost use Rattle.exi_names.proofs.Codes.{representation_code};
    ghost use Rattle.std.specs.Coded.{codes};

    ghost coded = { Prim.hlevel (codes, representation_code) };

    ghost use Rattle.exi_gram.specs.Tables.{IsTable, items_of, table_of};

    ghost view = { λ t. table_of (items_of t.coded.items) t.firsts t.seconds.items };

    ghost invariant = { λ t. IsTable t.coded.items t.firsts t.seconds.items };
}

impl CodedState {
    /// No productions.
    pub fn new(alloc: Global) -> CodedState
        ensures { result ≡ no_productions }
    {
        CodedState {
            coded: Vec::new(alloc),
            firsts: 0,
            seconds: Vec::new(alloc),
        }
    }

    /// The productions with their codes, in the order of the codes.
    pub fn coded(&self) -> &[Coded]
        ensures codes { map coded_of result.now ≡ coded self.now }
        ensures count { length result.now ≡ size self.now }
        ensures small { length result.now ≤ most_productions }
    {
        self.coded.as_slice()
    }

    /// Adds a production with the next code of one part. There may be no longer codes yet.
    ///
    /// # Errors
    ///
    /// `AllocError` where memory is refused; the codes are then as before.
    pub fn push_first(&mut self, production: Production, named: Named) -> Result<(), AllocError>
        requires first { self.old.seconds ≡ [] }
        requires room { size self.old < most_productions }
        ensures ok { OnOk result (self.new ≡ with_first self.old (entry production named)) }
        ensures err { OnErr result (self.new ≡ self.old) }
    {
        let code = Code::One(self.firsts);
        self.coded.push(Coded {
            code,
            production,
            named,
        })?;
        self.firsts += 1;
        Ok(())
    }

    /// Adds a production that the next second part tells.
    ///
    /// # Errors
    ///
    /// `AllocError` where memory is refused; the codes are then as before.
    pub fn push_single(&mut self, production: Production, named: Named) -> Result<(), AllocError>
        requires room { size self.old < most_productions }
        ensures ok { OnOk result (self.new ≡ with_second self.old (single (entry production named))) }
        ensures err { OnErr result (self.new ≡ self.old) }
    {
        self.seconds.reserve(1)?;
        let begin = self.coded.len() as u32;
        let code = Code::Two(self.firsts, self.seconds.len() as u32);
        self.coded.push(Coded {
            code,
            production,
            named,
        })?;
        self.seconds.push_reserved(SecondPart {
            begin,
            count: 1,
            group: false,
        });
        Ok(())
    }

    /// Adds a production that the next second part tells, as the first of a group.
    ///
    /// # Errors
    ///
    /// `AllocError` where memory is refused; the codes are then as before.
    pub fn push_group(&mut self, production: Production, named: Named) -> Result<(), AllocError>
        requires room { size self.old < most_productions }
        ensures ok { OnOk result (self.new ≡ with_second self.old (group (entry production named ∷ []))) }
        ensures err { OnErr result (self.new ≡ self.old) }
    {
        self.seconds.reserve(1)?;
        let begin = self.coded.len() as u32;
        let code = Code::Three(self.firsts, self.seconds.len() as u32, 0);
        self.coded.push(Coded {
            code,
            production,
            named,
        })?;
        self.seconds.push_reserved(SecondPart {
            begin,
            count: 1,
            group: true,
        });
        Ok(())
    }

    /// Adds a production to the group that was added last.
    ///
    /// # Errors
    ///
    /// `AllocError` where memory is refused; the codes are then as before.
    pub fn push_member(&mut self, production: Production, named: Named) -> Result<(), AllocError>
        requires group { ends_in_group self.old.seconds ≡ true }
        requires room { size self.old < most_productions }
        ensures ok { OnOk result (self.new ≡ with_member self.old (entry production named)) }
        ensures err { OnErr result (self.new ≡ self.old) }
    {
        self.coded.reserve(1)?;
        if let Some(last) = self.seconds.pop() {
            let code = Code::Three(self.firsts, self.seconds.len() as u32, last.count);
            self.coded.push_reserved(Coded {
                code,
                production,
                named,
            });
            self.seconds.push_reserved(SecondPart {
                count: last.count + 1,
                ..last
            });
        }
        Ok(())
    }

    /// This state as the options leave it (EXI 1.0, section 8.3): what they switch off is taken away, and
    /// the other codes close up.
    ///
    /// # Errors
    ///
    /// `AllocError` where memory is refused.
    pub fn left(&self, alloc: Global, options: &Options) -> Result<CodedState, AllocError>
        ensures { IfOk result (λ s. s ≡ left_of options.now self.now) }
    {
        let mut left = CodedState::new(alloc);
        left.push_firsts(alloc, &self.coded[..self.firsts as usize], options)?;
        for part in &self.seconds {
            left.push_part(alloc, &self.coded, *part, options)?;
        }
        Ok(left)
    }

    /// Adds what the options leave of the productions that a second part tells.
    fn push_part(
        &mut self,
        alloc: Global,
        all: &[Coded],
        part: SecondPart,
        options: &Options,
    ) -> Result<(), AllocError>
        requires within { part.begin + part.count ≤ length all.now }
        requires some { 1 ≤ part.count }
        requires one { part.group ≡ false → part.count ≡ 1 }
        requires room { size self.old + part.count ≤ most_productions }
        ensures { OnOk result (self.new
            ≡ with_seconds self.old (kept_second (is_kept options.now) (second_of (items_of all.now) part))) }
    {
        let begin = part.begin as usize;
        if part.group {
            let coded = &all[begin..begin + part.count as usize];
            self.push_members(alloc, coded, options)
        } else {
            self.push_alone(alloc, &all[begin], options)
        }
    }

    /// Adds those of these productions that the options leave, with codes of one part.
    fn push_firsts(
        &mut self,
        alloc: Global,
        from: &[Coded],
        options: &Options,
    ) -> Result<(), AllocError>
        requires first { self.old.seconds ≡ [] }
        requires room { size self.old + length from.now ≤ most_productions }
        ensures { OnOk result (self.new ≡ with_firsts self.old (filter (is_kept options.now) (items_of from.now))) }
    {
        for coded in from {
            if options.keeps(&coded.production.on) {
                self.push_first(coded.production.copy(alloc)?, coded.named)?;
            }
        }
        Ok(())
    }

    /// Adds those of these productions that the options leave, as a group that the next second part tells;
    /// where none is left, nothing.
    fn push_members(
        &mut self,
        alloc: Global,
        from: &[Coded],
        options: &Options,
    ) -> Result<(), AllocError>
        requires room { size self.old + length from.now ≤ most_productions }
        ensures { OnOk result (self.new
            ≡ with_seconds self.old (kept_second (is_kept options.now) (group (items_of from.now)))) }
    {
        let mut any = false;
        for coded in from {
            if options.keeps(&coded.production.on) {
                let production = coded.production.copy(alloc)?;
                if any {
                    self.push_member(production, coded.named)?;
                } else {
                    self.push_group(production, coded.named)?;
                    any = true;
                }
            }
        }
        Ok(())
    }

    /// Adds a production that the next second part tells, where the options leave it.
    fn push_alone(
        &mut self,
        alloc: Global,
        coded: &Coded,
        options: &Options,
    ) -> Result<(), AllocError>
        requires room { size self.old < most_productions }
        ensures { OnOk result (self.new
            ≡ with_seconds self.old (kept_second (is_kept options.now) (single (kept_entry coded.now)))) }
    {
        if options.keeps(&coded.production.on) {
            self.push_single(coded.production.copy(alloc)?, coded.named)?;
        }
        Ok(())
    }

    /// Its productions in the order of the codes, without them.
    ///
    /// # Errors
    ///
    /// `AllocError` where memory is refused.
    pub fn productions(&self, alloc: Global) -> Result<Items<Production>, AllocError>
        ensures { IfOk result (λ ps. map rule ps ≡ map (λ e. e.rule) (listed self.now)) }
    {
        let mut productions = Items::new(alloc);
        for coded in &self.coded {
            productions.push(coded.production.copy(alloc)?)?;
        }
        Ok(productions)
    }

    /// The compiled table of its codes.
    ///
    /// # Errors
    ///
    /// `AllocError` where memory is refused.
    pub fn table(&self, alloc: Global) -> Result<CodeTable, AllocError>
        ensures { IfOk result (λ t. t ≡ codes self.now) }
    {
        CodeTable::of(alloc, &self.coded)
    }

    /// The index of its productions by what they read.
    ///
    /// # Errors
    ///
    /// `AllocError` where memory is refused.
    pub fn index(&self, alloc: Global) -> Result<Index, AllocError>
        ensures { IfOk result (λ i. Finds i self.now) }
    {
        Index::of(alloc, &self.coded)
    }

    /// Writes the code of the production at a place, which has to exist, as [`read_code`](crate::read_code) reads it.
    ///
    /// # Errors
    ///
    /// `AllocError` where memory is refused. The bits then end with a front of the code, maybe none of it.
    pub fn write(&self, out: &mut BitOut, place: u32, align: Align) -> Result<(), AllocError>
        requires there { place < size self.now }
        requires aligned { IsWholeBytes align out.old }
        ensures ok { OnOk result (out.new ≡ out.old ++ code_bits align (codes self.now) (parts_at self.now place)) }
        ensures err { OnErr result (HoldsFront out.old (code_bits align (codes self.now) (parts_at self.now place)) out.new) }
        ensures aligned { IsWholeBytes align out.new }
    {
        let code = self.coded[place as usize].code;
        write_kept(out, code, self.firsts, &self.seconds, align)
    }
}
