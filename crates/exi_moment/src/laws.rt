//! What is spelled and what is read are the same. Each law is a function that does nothing: what it
//! ensures is the law.

ghost use Rattle.exi_moment.specs.Laws.{MomentIsSpelled, MomentIsRead, MomentIsNoPrefix, WrittenIsSpelled, WrittenIsRead};

/// What is read is spelled so, is of the kind that was asked for, and has its fields in their ranges.
pub fn read_is_spelled()
    ensures { MomentIsSpelled }
{}

/// What is spelled so is read, whatever follows.
pub fn spelled_is_read()
    ensures { MomentIsRead }
{}

/// No spelling is a proper prefix of another of its kind.
pub fn none_is_prefix()
    ensures { MomentIsNoPrefix }
{}

/// What `write_moment` writes is a spelling.
pub fn written_is_spelled()
    ensures { WrittenIsSpelled }
{}

/// What `write_moment` adds, `read_moment` reads back, whatever follows.
pub fn written_is_read()
    ensures { WrittenIsRead }
{}
