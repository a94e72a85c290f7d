use exi_bits::Fault;
use exi_meter::Tally;
use exi_names::QName;

/// How reading ended, with all that was charged before, and the name of a fragment's first element, once that is
/// read. A body has no such name.
#[derive(Debug, Drop)]
pub enum End {
    /// All is read.
    Done {
        /// The bit behind the last event; of a fragment the next whole byte.
        bit: u64,
        /// What was charged.
        tally: Tally,
        /// The name of the fragment's first element.
        root: Option<QName>,
    },
    /// The stream is wrong.
    Fault {
        /// What is wrong, and where.
        fault: Fault,
        /// What was charged before.
        tally: Tally,
        /// The name of the fragment's first element, where it was read.
        root: Option<QName>,
    },
}
