/// How the numbers of a stream lie: bit by bit, or in whole bytes (EXI 1.0, sections 5.4 and 7.1.9).
#[derive(Clone, Copy, Debug, PartialEq, Eq)]
pub enum Align {
    /// One bit after the other, the most significant first.
    Bits,
    /// Each number in whole bytes, the least significant first.
    Bytes,
}
