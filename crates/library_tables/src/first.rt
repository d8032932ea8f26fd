// Rows 1 to 4 in their order.
ghost use Rattle.std.specs.Prelude.{◌≡◌};
ghost use Rattle.library_tables.specs.Found.{table_rows};

use crate::tables::{header_fault, name_fault, size_fault, tables_fault};
use library::{Fault, Refusal, refuse};

// What rows 1 to 4 answer of an image, whatever its words.
#[tactic(auto, unfolding(crate::specs::Found::table_rows))]
pub fn table_rows(image: &[u64]) -> Result<(), Refusal>
    ensures { result ≡ table_rows image.now }
{
    refuse(Fault::Size, size_fault(image))?;
    refuse(Fault::Header, header_fault(image))?;
    refuse(Fault::Tables, tables_fault(image))?;
    refuse(Fault::Name, name_fault(image))
}
