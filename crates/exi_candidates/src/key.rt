use exi_gram::Class;
use exi_names::NameId;

/// What is looked up in a state: a class of productions, and a name by its least places in the first string tables; a
/// URI with the local place 0, and no name with two zeros.
#[derive(Clone, Copy, Debug, PartialEq, Eq)]
pub struct Key {
    /// The class.
    pub class: Class,
    /// The name.
    pub name: NameId,
}
