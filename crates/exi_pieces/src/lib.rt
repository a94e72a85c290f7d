//! Names, texts and values as a writer puts them into a stream, with what they charge (EXI 1.0, sections 7.1 and 7.3).
//!
//! Each call first asks whether there is a spelling at all, then takes what reading it would charge into a `Toll`, in that
//! order, and writes it.
#![tactic(auto)]

mod pieces;
mod spelled;
mod values;

pub use pieces::{
    pay_name, put_declaration, put_known, put_literal, put_name, put_spelled, put_under,
};
pub use spelled::{can_be_spelled, can_name, can_tell};
pub use values::put_value;
