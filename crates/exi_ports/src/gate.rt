/// What a worker passes after it has decoded a fragment and before it posts it.
///
/// A gate tells nothing, and no contract rests on it: it only decides when a worker goes on. Workers share it.
/// `pass` may wait for another worker. A gate that sleeps until then holds the handle for that itself, as
/// `struct Held<'a, R: Wait> { rt: &'a R, .. }` does; one that turns a bounded number of times needs none.
pub trait Gate: Sync {
    /// Lets the worker of this seat pass with this hint, now or later.
    ///
    /// `seat` is the number of the worker's seat, `hint` that of the hint whose fragment it decoded.
    fn pass(&self, seat: u32, hint: u32);
}

/// The gate that is always open.
#[derive(Clone, Copy, Debug, PartialEq, Eq)]
pub struct NoGate;

impl Gate for NoGate {
    fn pass(&self, _seat: u32, _hint: u32) {}
}
