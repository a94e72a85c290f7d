//! What holds of normal grammars. Each law is a function that does nothing: what it ensures is the law.

ghost use Rattle.exi_normal.specs.Reached.{MetIsRead};

/// The productions of a state read exactly what its members reach by steps that read nothing.
pub fn met_is_read()
    ensures { MetIsRead }
{}
