// The names of directives, full and short (RULES, "Directives"), also those of UPDATE that are not carried.
ghost use Rattle.std.specs.Prelude.{◌≡◌, map, eqb};
ghost use Rattle.words.specs.Base.{split};
ghost use Rattle.words.specs.Display.{blank};
ghost use Rattle.words_lines.specs.Directive.{kind_in, kind_of, kind_of_line};

use crate::Kind;
use crate::parts::{SLASH, STAR, name_of, stands_at};
use crate::scan::listed;

// a kind's names, parted by blanks
const TABLE: [(&[u8], Kind); 10] = [
    (b"DECK DK", Kind::Deck),
    (b"COMDECK CD", Kind::Comdeck),
    (b"IDENT ID", Kind::Ident),
    (b"INSERT I", Kind::Insert),
    (b"BEFORE B", Kind::Before),
    (b"DELETE D", Kind::Delete),
    (b"RESTORE R", Kind::Restore),
    (b"YANK Y", Kind::Yank),
    (b"END", Kind::Skipped),
    (
        b"ABBREV ADDFILE AF CHANGE CH COMPILE C COPY CY CWEOR CW DECLARE DC DEFINE DF DO DONT DT ENDIF EI ENDTEXT ET IF LIMIT LT LIST L MOVE M NOABBREV NA NOLIST NL PULLMOD PM PURDECK PD PURGE P READ RD REWIND RW SELPURGE SP SELYANK SY SEQUENCE S SKIP SK TEXT T WEOR W YANKDECK YD",
        Kind::NotCarried,
    ),
];

// The kind of the first row whose names hold the name.
fn kind_in(name: &[u8], table: &[(&[u8], Kind)]) -> Kind
    ensures { result ≡ kind_in name.now (map (λ r. record { kind = r.1; names = split (eqb blank) r.0.now }) table.now) }
{
    for (names, kind) in table {
        if listed(name, names) {
            return *kind;
        }
    }
    Kind::Text
}

#[tactic(auto, unfolding(crate::specs::Directive::kind_of))]
fn kind_of(name: &[u8]) -> Kind
    ensures { result ≡ kind_of name.now }
{
    kind_in(name, &TABLE)
}

#[tactic(auto, unfolding(crate::specs::Directive::kind_of_line))]
pub fn kind_of_line(line: &[u8]) -> Kind
    ensures { result ≡ kind_of_line line.now }
{
    if !stands_at(line, 0, STAR) {
        return Kind::Text;
    }
    if stands_at(line, 1, SLASH) {
        return Kind::Skipped;
    }
    kind_of(name_of(line))
}
