ghost use Rattle.std.specs.Prelude.{◌≡◌, ◌∷◌, []};
ghost use Rattle.exi_names.specs.Events as event;
ghost use Rattle.exi_names.specs.Shown.{named};
ghost use Rattle.exi_pen.specs.Pages.{IsReady};
ghost use Rattle.exi_processing.specs.Plans.{alone_in, at_end, at_start};
ghost use Rattle.exi_writer.specs.Writing.{IsComposed, WritesAll, closing_events, composing_at};
ghost use Rattle.exi_writing.specs.Pruned.{pruned_name};
ghost use Rattle.exi_writing.specs.Runs.{written_all};

use exi_names::NameRef;
use exi_pen::Pen;
use exi_processing::Alone;
use exi_tables::Tables;
use exi_toll::PutStop;
use exi_writing::laws::written_is_read;

/// Behind the element of a fragment, writes the fragment's ED.
pub fn leave_fragment<T: Tables + Drop>(pen: &mut Pen<'_, T>) -> Result<(), PutStop>
    requires closes { alone_in pen.old.config.elements pen.old.config.outer ≡ at_end → IsReady pen.old }
    ensures { WritesAll result pen.old pen.new (written_all pen.old.setting pen.old.config (closing_events pen.old.config)) }
{
    match pen.alone() {
        Alone::AtEnd => pen.end_document(),
        Alone::Nowhere | Alone::AtStart | Alone::AtFirst => Ok(()),
    }
}

/// At the start of a fragment, writes its SD and the SE of its element.
pub fn start_fragment<T: Tables + Drop>(
    pen: &mut Pen<'_, T>,
    name: NameRef<'_>,
) -> Result<(), PutStop>
    requires start { alone_in pen.old.config.elements pen.old.config.outer ≡ at_start }
    requires composed { IsComposed (composing_at pen.old) }
    ensures { WritesAll result pen.old pen.new (written_all pen.old.setting pen.old.config (event.sd ∷ event.se (pruned_name pen.old.setting.options (named name.entry)) ∷ [])) }
{
    written_is_read();
    pen.start_document()?;
    pen.element(name)
}
