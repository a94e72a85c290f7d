use exi_ports::Gate;

/// What a worker passes before it posts. It need not be shared by threads, as a [`Gate`] is.
pub(crate) trait Passing {
    /// Lets the worker of this seat pass with this hint, now or later.
    fn pass(&self, seat: u32, hint: u32);
}

/// The way through a gate.
#[derive(Drop)]
pub(crate) struct Through<'a, G> {
    /// The gate.
    pub gate: &'a G,
}

impl<'a, G: Gate> Passing for Through<'a, G> {
    fn pass(&self, seat: u32, hint: u32) {
        self.gate.pass(seat, hint);
    }
}
