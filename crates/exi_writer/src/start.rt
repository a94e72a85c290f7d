use exi_names::QName;

/// Where writing begins.
#[derive(Clone, Copy, Debug)]
pub enum WriteStart<'a> {
    /// At the body: a document, or a fragment, of which the options of the stream tell.
    Body,
    /// At the fragment of a self-contained element of this name, which stands there for itself (EXI 1.0, section
    /// 8.4.3).
    Fragment(&'a QName),
}
