use exi_gram::Options;

/// What a stream's header says.
#[derive(Debug, Drop)]
pub struct Header {
    /// The options by which the body is read.
    pub options: Options,
    /// Whether the stream tells them in an options document.
    pub told: bool,
    /// The bit of the code that opened the document's schemaId; none where there is none.
    pub schema_bit: Option<u64>,
    /// The bit at which the body begins.
    pub body: u64,
}

/// The bytes `$EXI`, which may stand at the head of a stream (EXI 1.0, section 5.1).
pub const COOKIE: u64 = 0x2445_5849;
