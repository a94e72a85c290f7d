//! The laws of what is defined here. Each law is a function that does nothing: what it ensures is the law.

ghost use Rattle.exi_names.specs.Equality.{EqualDatatypeIsSame, EqualIsSame};

/// What equals each other as data is the same.
pub fn equal_is_same()
    ensures values { EqualIsSame }
    ensures datatypes { EqualDatatypeIsSame }
{}
