//! What holds of what is known. Each law is a function that does nothing: what it ensures is the law.

ghost use Rattle.xsd_known.specs.Knowing.{CompiledIsTold};

/// What components become does not hang on where it lies how the values of their types are represented.
pub fn compiled_is_told()
    ensures { CompiledIsTold }
{}
