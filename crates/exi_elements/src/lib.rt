//! Which elements may stand where one is named, and which declarations of elements open one grammar.
//!
//! An element with the members of its substitution group, theirs and so on may stand where it is named, in the order of their
//! names. Declarations of one name and type, which `xsi:nil` can empty or not alike, open one grammar, that of the first:
//!
//! ```text
//! place   name   head   type   stands for itself and   opened by
//!   0     b             46     2, 1, 3 (a, c, d)       0
//!   1     c      0      46     3                       1
//!   2     a      0      46                             2
//!   3     d      1      46                             3
//!   4     b             46                             0
//! ```
#![tactic(auto)]

mod counted;
mod elements;
mod members;
mod named;
mod opening;

pub use elements::Elements;
