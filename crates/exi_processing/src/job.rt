use exi_gram::Book;
use exi_meter::Limits;

/// What is read: a body, by a book. It is only ever shared.
#[derive(Clone, Copy)]
pub struct Job<'a> {
    /// The options of the stream, and the grammars of its schema.
    pub book: &'a Book,
    /// The input: at most 64 MiB.
    pub bytes: &'a [u8],
    /// The bit at which the body begins, counted from the head of the input. Where the book is byte-aligned, it is
    /// that of a whole byte.
    pub body: u64,
    /// The limits of the whole body.
    pub limits: Limits,
}
