use exi_names::Alphabet;

/// The characters of a pattern.
#[derive(Debug, Drop)]
pub enum CharSet {
    /// These: fewer than 256, none past U+FFFF.
    Set(Alphabet),
    /// Any: more than that, or characters that are not looked up.
    Any,
    /// The text is no pattern, or one that is not read. The first character that is refused stands at this place,
    /// from 0.
    Refused(u64),
}
