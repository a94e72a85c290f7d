ghost use Rattle.exi_names.specs.Shown.{named};
ghost use Rattle.exi_processing.specs.declared.alone.Alone.TheVariants as alone;
ghost use Rattle.exi_processing.specs.Handing.{Meets, alone_of};

use exi_bits::{Fault, Kind, Stop};
use exi_names::{NameRef, QName};
use exi_processing::{Alone, Asides};
use exi_tables::Tables;

/// The element of a fragment, where it is to come: where reading began at the fragment its name is kept, and else
/// it has to be that of the element for which the fragment stands.
///
/// # Errors
///
/// `ScRoot` at this bit where it has another name, and `Memory` where memory is refused.
#[inline(always)]
pub fn meet_root<T: Tables + Drop>(
    alone: Alone,
    aside: &Asides<T>,
    root: &mut Option<QName>,
    name: NameRef<'_>,
    bit: u64,
) -> Result<(), Stop>
    ensures { Meets result (alone_of alone) aside.now (named name.entry) root.old root.new bit }
{
    if alone != Alone::AtFirst {
        return Ok(());
    }
    meet_first(aside, root, name, bit)
}

/// The element of a fragment, which is to come.
///
/// # Errors
///
/// Those of [`meet_root`].
#[cold]
#[inline(never)]
fn meet_first<T: Tables + Drop>(
    aside: &Asides<T>,
    root: &mut Option<QName>,
    name: NameRef<'_>,
    bit: u64,
) -> Result<(), Stop>
    ensures { Meets result (alone_of alone.AtFirst) aside.now (named name.entry) root.old root.new bit }
{
    if aside.len() == 0 {
        *root = Some(name.copy()?);
        return Ok(());
    }
    if aside.refuse(name) {
        return Err(Stop::Fault(Fault {
            kind: Kind::ScRoot,
            bit,
        }));
    }
    Ok(())
}
