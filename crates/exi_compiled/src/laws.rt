//! What holds of compiled schemas. Each law is a function that does nothing: what it ensures is the law.

ghost use Rattle.exi_compiled.specs.Sound.{CompiledIsSchema};

/// What the parts of a schema become fits together as every schema does.
pub fn compiled_is_schema()
    ensures { CompiledIsSchema }
{}
