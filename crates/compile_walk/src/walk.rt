// The walk over decks and calls (RULES, "The compile file"; rows 40 to 44).
ghost use Rattle.std.specs.Prelude.{◌≡◌, ◌<◌, length};
ghost use Rattle.compile_walk.specs.TableView.{shown_named, shown_of, shown_in, table_view};
ghost use Rattle.compile_walk.specs.Steps.{walk_state, put_of, run_at, decks_of};

use crate::calls::{Cards, asks};
use crate::line::{LINE, put_line};
use crate::{Counts, Halt, Stop};
use library::Seen;
use library_image::{COLUMNS, line_of, see, star_at, word_at};
use library_image_decks::COMMON;

// how many levels of calls a normal deck has
const DEPTH: usize = 8;

// A card where a walk is refused.
fn halt(stop: Stop, c: Seen) -> Halt
    ensures { result ≡ record { stop = stop; owner = c.owner; seq = c.seq } }
{
    Halt {
        stop: stop,
        owner: c.owner,
        seq: c.seq,
    }
}

// A pass over an image: calls find their decks in the table, and lines are written, or only counted.
#[derive(Clone, Copy)]
struct Pass<'a> {
    image: &'a [u64],
    table: &'a [u64],
    writes: bool,
}

impl Pass<'_> {
    // The line of a text card, in 91 bytes of the space, where the pass writes. What `see` says of a card is asked for, since `Seen` is any crate's to make.
    // Inlined: a call for each card takes a compile of short lines a fifth longer.
    #[inline(always)]
    fn put(&self, line: &[u8], c: Seen, out: &mut [u8], so_far: Counts) -> Result<Counts, Halt>
        requires { (c.seq < 262144) × (c.owner < 65536) }
        ensures { walk_state result out.new ≡ put_of self.now.writes (shown_named self.now.image.now line.now c) so_far.lines so_far.calls out.old }
    {
        let lines = so_far.lines;
        if out.len() / LINE <= lines {
            return Err(halt(Stop::Space, c));
        }
        if self.writes {
            let at = lines * LINE;
            let name = word_at(self.image, c.owner as usize + 1);
            put_line(line, name, c.seq, &mut out[at..at + LINE]);
        }
        Ok(Counts {
            lines: lines + 1,
            calls: so_far.calls,
        })
    }

    // A card whose line does not begin with *, and so is no CALL: where the pass only counts, the line need not be known.
    #[inline(always)]
    fn put_text(&self, c: Seen, out: &mut [u8], so_far: Counts) -> Result<Counts, Halt>
        requires { (c.seq < 262144) × (c.owner < 65536) }
        ensures { walk_state result out.new ≡ put_of self.now.writes (shown_of self.now.image.now c) so_far.lines so_far.calls out.old }
    {
        if !self.writes {
            return self.put(b"", c, out, so_far);
        }
        let mut line = [0u8; COLUMNS];
        let n = line_of(self.image, c.text, c.next, &mut line);
        self.put(&line[..n], c, out, so_far)
    }

    // The cards from a place up to another: one that is not active is passed over, and at a CALL the walk calls itself.
    fn walk(
        &self,
        cards: Cards,
        depth: usize,
        out: &mut [u8],
        so_far: Counts,
    ) -> Result<Counts, Halt>
        ensures { walk_state result out.new ≡ run_at self.now.writes (table_view self.now.image.now self.now.table.now) depth (shown_in self.now.image.now cards.from cards.to) so_far.lines so_far.calls out.old }
    {
        let mut at = cards.from;
        let mut counts = so_far;
        // a walk from card to card
        while at < self.image.len() {
            if cards.to <= at {
                return Ok(counts);
            }
            let c = see(self.image, at);
            if c.active {
                if !star_at(self.image, c.text) {
                    counts = self.put_text(c, out, counts)?;
                } else {
                    let mut line = [0u8; COLUMNS];
                    let n = line_of(self.image, c.text, c.next, &mut line);
                    match asks(self.table, &line[..n], depth, counts.calls) {
                        Err(stop) => return Err(halt(stop, c)),
                        Ok(None) => counts = self.put(&line[..n], c, out, counts)?,
                        Ok(Some(called)) => {
                            let calls = counts.calls + 1;
                            let opened = Counts {
                                lines: counts.lines,
                                calls: calls,
                            };
                            counts = self.walk(called, depth - 1, out, opened)?;
                        }
                    }
                }
            }
            at = c.next;
        }
        Ok(counts)
    }

    // The cards of the normal ones among these decks.
    fn decks(&self, chosen: &[u64], out: &mut [u8]) -> Result<Counts, Halt>
        ensures { walk_state result out.new ≡ decks_of self.now.writes (table_view self.now.image.now self.now.table.now) (table_view self.now.image.now chosen.now) 0 0 out.old }
    {
        let mut counts = Counts { lines: 0, calls: 0 };
        let mut rows = chosen;
        while let [_, from, to, kind, more @ ..] = rows {
            if *kind != COMMON {
                let cards = Cards {
                    from: *from as usize,
                    to: *to as usize,
                };
                counts = self.walk(cards, DEPTH, out, counts)?;
            }
            rows = more;
        }
        Ok(counts)
    }
}

// The active cards of the normal ones among the chosen decks, in their order: written, or only counted. Calls find their decks in the whole table.
pub fn walk_decks(
    image: &[u64],
    table: &[u64],
    chosen: &[u64],
    writes: bool,
    out: &mut [u8],
) -> Result<Counts, Halt>
    ensures { walk_state result out.new ≡ decks_of writes (table_view image.now table.now) (table_view image.now chosen.now) 0 0 out.old }
{
    let pass = Pass {
        image: image,
        table: table,
        writes: writes,
    };
    pass.decks(chosen, out)
}
