// Rows 1 to 6 in their order.
ghost use Rattle.std.specs.Prelude.{◌≡◌};
ghost use Rattle.library_cards.specs.Found.{first_rows};

use crate::cards::cards_fault;
use library::Refusal;

// What rows 1 to 6 answer of an image, whatever its words.
pub fn first_rows(image: &[u64]) -> Result<(), Refusal>
    ensures { result ≡ first_rows image.now }
{
    library_tables::table_rows(image)?;
    cards_fault(image)
}
