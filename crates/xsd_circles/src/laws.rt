//! What circles have to do with paths that end. The law is a function that does nothing: what it ensures is the law.

ghost use Rattle.xsd_circles.specs.Laws.{PathsEnd};

/// Where elements lead to each other alone, and none of them reaches itself, each path ends.
pub fn paths_end()
    ensures { PathsEnd }
{}
