//! What holds between the texts of numbers and their values. Each law is a function that does nothing: what it
//! ensures is the law.

ghost use Rattle.std.specs.Prelude.{ℕ, ℤ, ◌<◌, ◌^◌, FitsSigned};
ghost use Rattle.exi_names.specs.Forms.{is_integer, is_small, is_unsigned};
ghost use Rattle.exi_numerals.specs.Laws.{DecimalIsInRange, DecimalIsKept, DecimalIsRead, FloatIsInRange, FloatIsKept, FloatIsRead, IntegerIsInRange, IntegerIsKept, IntegerIsRead, SmallIsKept, SmallIsRead};

/// The value of a text is one that the datatype has.
pub fn read_is_in_range()
    ensures unsigned { IntegerIsInRange is_unsigned }
    ensures integer { IntegerIsInRange is_integer }
    ensures decimal { DecimalIsInRange }
    ensures float { FloatIsInRange }
{}

/// What is written is read: each value that the datatype has is the value of its canonical text.
pub fn written_is_read()
    ensures small { SmallIsRead }
    ensures unsigned { IntegerIsRead is_unsigned }
    ensures integer { IntegerIsRead is_integer }
    ensures decimal { DecimalIsRead }
    ensures float { FloatIsRead }
{}

/// So the canonical text of a value that a text has, has that value.
pub fn value_comes_back()
    ensures small { SmallIsKept }
    ensures unsigned { IntegerIsKept is_unsigned }
    ensures integer { IntegerIsKept is_integer }
    ensures decimal { DecimalIsKept }
    ensures float { FloatIsKept }
{}
