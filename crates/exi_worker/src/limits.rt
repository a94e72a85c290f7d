ghost use Rattle.std.specs.Prelude.{◌≡◌};
ghost use Rattle.exi_worker.specs.Outcomes.{worker_bounds};

use exi_meter::Limits;

/// The most events of a fragment that a worker reads.
pub const WORKER_EVENTS: u64 = 1 << 20;

/// The most units of text of a fragment that a worker reads.
pub const WORKER_TEXT: u64 = 1 << 22;

/// The most elements that are open at one time in a fragment that a worker reads.
pub const WORKER_DEPTH: u32 = 512;

/// The limits under which a worker reads each fragment, whatever those of the job are: [`WORKER_EVENTS`], [`WORKER_TEXT`]
/// and [`WORKER_DEPTH`].
pub fn worker_limits() -> Limits
    ensures { result ≡ worker_bounds }
{
    match Limits::new(WORKER_EVENTS, WORKER_TEXT, WORKER_DEPTH) {
        Some(limits) => limits,
        None => unreachable!(),
    }
}
