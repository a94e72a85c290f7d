ghost use Rattle.std.specs.Prelude.{◌≡◌};
ghost use Rattle.exi_pool.specs.Passes.{dry_of};

use crate::page::Page;
use crate::view::View;
use crossbeam_queue::Pass;

/// What one thread takes and gives pages with.
#[derive(Drop)]
pub struct PoolPass {
    pub(crate) pass: Pass<Page, View>,
    pub(crate) dry: u64,
}

impl PoolPass {
    /// A pass that has taken and given nothing.
    pub(crate) fn fresh(pass: Pass<Page, View>) -> PoolPass
        ensures pass { result.pass ≡ pass }
        ensures dry { dry_of result ≡ 0 }
    {
        PoolPass { pass, dry: 0 }
    }

    /// How many of its takes found no page. The count stands still at 2^64 - 1.
    pub fn dry(&self) -> u64
        ensures { result ≡ dry_of self.now }
    {
        self.dry
    }
}
