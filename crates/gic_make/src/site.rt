//! What a site has: a substation, a bus and a transformer, and a line from the bus of a site before.
ghost use Rattle.std.specs.Prelude.{◌≡◌, ◌+◌, ◌<◌, ◌≤◌, [], ◌∷◌, length, IsTrue};
ghost use Rattle.gic_base.specs.Name.{is_name_byte, is_name};
ghost use Rattle.gic_make.specs.Generator.{draw};
ghost use Rattle.gic_make.specs.MadeCase.{first_draw, numbered, span, made_zone, made_substation, made_bus, made_transformer, made_line};

use crate::generator::draw;
use gic_base::Name;
use gic_case::{Bus, Course, Kind, Line, LinePart, Scaling, Substation, Transformer, Zone};

/// The draws of a site after the first: two for its substation and its transformer, and four for its line.
const DRAWS_OF_A_SITE: usize = 6;

/// The draws of a line. The first site has none.
const DRAWS_OF_A_LINE: usize = 4;

/// The places of a site's draws, from its first.
const GROUND: usize = 0;

const WINDING: usize = 1;

const NEIGHBOUR: usize = 2;

const RESISTANCE: usize = 3;

const NORTH: usize = 4;

const EAST: usize = 5;

/// The sites before its own that a line may come from.
const NEIGHBOURS: u16 = 8;

/// How many draws come before a site's own.
pub(crate) fn first_draw(site: u16) -> usize
    ensures { result ≡ first_draw site }
{
    (DRAWS_OF_A_SITE * usize::from(site)).saturating_sub(DRAWS_OF_A_LINE)
}

/// The name that a text is.
fn name_of(text: &[u8]) -> Name
    requires { IsTrue (is_name text.now) }
    ensures { result ≡ text.now }
{
    match Name::read(text) {
        Some(name) => name,
        None => unreachable!(),
    }
}

/// A name of a letter and a number.
fn numbered(letter: u8, number: u16) -> Name
    requires { IsTrue (is_name_byte letter) }
    ensures { result ≡ numbered letter number }
{
    let mut buffer = itoa::Buffer::new();
    let digits = buffer.format(number).as_bytes();
    let mut text = [letter; 6];
    let end = 1 + digits.len();
    text[1..end].copy_from_slice(digits);
    name_of(&text[..end])
}

/// The one zone.
pub(crate) fn zone() -> Zone
    ensures { result ≡ made_zone }
{
    Zone {
        name: name_of(b"Z"),
        scaling: Scaling::Earth {
            latitude: 6000,
            beta: 100,
        },
    }
}

/// The substation of a site.
pub(crate) fn substation(states: &[u32], site: u16) -> Substation
    requires { first_draw site < length states.now }
    ensures { result ≡ made_substation states.now site }
{
    Substation {
        name: numbered(b'S', site),
        ground: Some(100_000 + 1000 * draw(states, first_draw(site) + GROUND, 900)),
        tolerance: None,
    }
}

/// The bus of a site.
pub(crate) fn bus(site: u16) -> Bus
    ensures { result ≡ made_bus site }
{
    Bus {
        name: numbered(b'B', site),
        substation: site,
    }
}

/// The transformer of a site.
pub(crate) fn transformer(states: &[u32], site: u16) -> Transformer
    requires { first_draw site + 1 < length states.now }
    ensures { result ≡ made_transformer states.now site }
{
    Transformer {
        name: numbered(b'T', site),
        high_volts: 345_000,
        kind: Kind::DeltaWye {
            high: site,
            high_resistance: 100_000 + 1000 * draw(states, first_draw(site) + WINDING, 400),
        },
        neutral: None,
    }
}

/// A part of a line's span in metres: a whole number of hundreds, from -100000 to 100000.
fn span(states: &[u32], place: usize) -> i32
    requires { place < length states.now }
    ensures { result ≡ span (draw states.now place 2001) }
{
    100 * (draw(states, place, 2001) as i32 - 1000)
}

/// The line of a site behind the first, from the bus of one of the sites before.
pub(crate) fn line(states: &[u32], site: u16) -> Line
    requires behind { 1 ≤ site }
    requires drawn { first_draw site + 5 < length states.now }
    ensures { result ≡ made_line states.now site }
{
    let first = first_draw(site);
    let back = draw(states, first + NEIGHBOUR, u32::from(site.min(NEIGHBOURS))) as u16;
    Line {
        name: numbered(b'L', site),
        from: site - 1 - back,
        to: site,
        course: Course::One(LinePart {
            zone: 0,
            north: span(states, first + NORTH),
            east: span(states, first + EAST),
        }),
        resistance: 1_000_000 + 1000 * draw(states, first + RESISTANCE, 4000),
        blocked: false,
    }
}
