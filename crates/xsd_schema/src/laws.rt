//! What the parts of a document have to do with each other. The law is a function that does nothing: what it ensures is the law.

ghost use Rattle.xsd_schema.specs.Laws.{Fit};

/// The parts of a schema document without a fault fit together: what each names is there, and no path reaches itself.
pub fn fit()
    ensures { Fit }
{}
