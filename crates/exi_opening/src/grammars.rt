ghost use Rattle.std.specs.Prelude.{◌≡◌, IfOk, false};
ghost use Rattle.exi_gram.specs.Switches.{conflicts};
ghost use Rattle.exi_opening.specs.Openings.{setting_of};

use exi_codes::book;
use exi_gram::{Book, Options};
use exi_schema::no_schema;
use std::alloc::{AllocError, Global};

/// What streams without a schema and with these options are read by.
///
/// # Errors
///
/// `AllocError` where memory is refused.
pub fn book_of(alloc: Global, options: Options) -> Result<Book, AllocError>
    requires free { conflicts options ≡ false }
    ensures { IfOk result (λ b. b ≡ setting_of options) }
{
    book(alloc, no_schema(alloc)?, options)
}
