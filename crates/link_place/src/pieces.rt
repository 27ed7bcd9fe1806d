//! What stands in a region, one piece behind the other.

ghost use Rattle.std.specs.Prelude.{◌≡◌, ◌+◌, ◌*◌, ◌^◌, ◌<◌, ◌≤◌, length};
ghost use Rattle.place_model.specs.Things.{gap};
ghost use Rattle.link_place.specs.Pieces.{size_in, multiple_in, start_in, reach};

use link_model::{AreaName, Veneer};

/// An area: it begins at a multiple of `multiple`, and has so many bytes. `written` says that it isn't
/// read-only.
#[derive(Clone, Copy)]
pub struct AreaPiece {
    pub name: AreaName,
    pub multiple: u32,
    pub size: u32,
    pub written: bool,
}

/// The header of an AIF, an area, a veneer, or the startup code.
#[derive(Clone, Copy)]
pub enum Piece {
    Header,
    Area(AreaPiece),
    Veneer(Veneer),
    Startup,
}

/// How many bytes a piece has, with a table of the startup code of so many words.
pub fn size_of(piece: Piece, words: u32) -> u64
    requires { words < 2 ^ 30 }
    ensures size { result ≡ size_in words piece }
    ensures bound { result < 2 ^ 33 }
{
    match piece {
        Piece::Header => 128,
        Piece::Area(area) => u64::from(area.size),
        Piece::Veneer(veneer) => { if veneer.thumb { 12 } else { 8 } }
        Piece::Startup => 168 + u64::from(words) * 4,
    }
}

fn multiple_of(piece: Piece) -> u32
    ensures { result ≡ multiple_in piece }
{
    match piece {
        Piece::Area(area) => area.multiple,
        _ => 4,
    }
}

/// How many bytes lie before an address whose distance from an origin is a multiple of a number.
fn gap_before(origin: u32, multiple: u32, at: u64) -> u64
    ensures gap { result ≡ gap origin multiple at }
    ensures bound { result < 2 ^ 32 }
{
    if multiple == 0 {
        return 0;
    }
    let multiple = u64::from(multiple);
    let past = at.saturating_sub(u64::from(origin)) % multiple;
    (multiple - past) % multiple
}

/// Where a piece stands that may begin at an address.
pub fn start_of(piece: Piece, origin: u32, at: u64) -> u64
    requires { at < 2 ^ 63 }
    ensures start { result ≡ start_in origin at piece }
    ensures bound { result < at + 2 ^ 32 }
    ensures low { at ≤ result }
{
    at + gap_before(origin, multiple_of(piece), at)
}

/// How many bytes pieces take from an address on, with the gaps before them.
pub fn reach(words: u32, origin: u32, at: u64, pieces: &[Piece]) -> u64
    requires words { words < 2 ^ 30 }
    requires room { at + 2 ^ 34 * length pieces.now < 2 ^ 63 }
    ensures reach { result ≡ reach words origin at pieces.now }
    ensures bound { result ≤ 2 ^ 34 * length pieces.now }
{
    let mut end = at;
    for piece in pieces {
        end = start_of(*piece, origin, end) + size_of(*piece, words);
    }
    end - at
}
