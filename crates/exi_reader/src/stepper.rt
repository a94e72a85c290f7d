use exi_bits::BitIn;
use exi_builtin::Overlay;
use exi_gram::Book;
use exi_meter::Meter;
use exi_names::QName;
use exi_processing::{Asides, Elements, Outer, Spare, Start};
use exi_tables::{FirstTables, Tables};
use std::alloc::Global;
use std::marker::Model;

/// A reader between two events, or behind SC: its fragment is not entered.
#[derive(Drop)]
pub struct Stepper<'a, T: Tables + Drop> {
    pub alloc: Global,
    pub book: &'a Book,
    pub start: Start,
    pub input: BitIn<'a>,
    pub meter: Meter,
    pub tables: T,
    pub elements: Elements,
    pub outer: Outer,
    pub overlay: Overlay,
    pub after_start: bool,
    pub root: Option<QName>,
    pub aside: Asides<T>,
    pub first: FirstTables,
    pub spare: Option<Spare<T>>,
}

impl<'a, T: Tables + Drop> Model for Stepper<'a, T> {
    ghost use Rattle.std.specs.Prelude.{◌≡◌};
    ghost use Rattle.exi_bits.specs.Bits.{IsAligned};
    ghost use Rattle.exi_gram.specs.Switches.{align_of};
    ghost use Rattle.exi_processing.specs.Handing.{Standing};

    ghost Value = { Standing };

    ghost use Rattle.exi_names.proofs.Codes.{representation_code};
    ghost use Rattle.std.specs.Coded.{codes};

    ghost coded = { Prim.hlevel (codes, representation_code) };

    ghost view = { λ r. record {
      setting = r.book.now;
      bytes = r.input.bytes;
      config = record {
        start = r.start;
        place = r.input.place;
        meter = r.meter;
        tables = T.held r.tables;
        elements = r.elements;
        outer = r.outer;
        learned = r.overlay;
        after_start = r.after_start;
        root = r.root;
        aside = r.aside;
      };
    } };

    ghost invariant = { λ r. IsAligned (align_of r.book.now.options) r.input × (r.first ≡ r.book.now.schema.names) };
}
