// The cards of an image, counted.
ghost use Rattle.std.specs.Prelude.{◌≡◌, ◌≤◌, length};
ghost use Rattle.library_image.specs.Places.{places_in};

// How many stand from a place on; each has a word at least.
pub(crate) fn count_cards(image: &[u64], from: usize) -> usize
    ensures { (result ≡ length (places_in image.now from)) × (result ≤ length image.now) }
{
    let mut at = from;
    let mut n: usize = 0;
    // a walk from card to card
    while at < image.len() {
        let c = library_image::see(image, at);
        at = c.next;
        n += 1;
    }
    n
}
