//! The order in which kinds of faults are told, and readings of a line, each with a value or the kind of its fault.

ghost use Rattle.std.specs.Prelude.{◌≡◌};
ghost use Rattle.asm_model.specs.Kinds as kinds;
ghost use Rattle.asm_model.specs.Readings as readings;

use sdt_fault::kinds::LineKind;

/// The value of a reading. Where it has a fault, the function's reading has the same.
#[macro_export]
macro_rules! or_kind {
    ($reading:expr) => {
        match $reading {
            Ok(value) => value,
            Err(kind) => return Ok(Err(kind)),
        }
    };
}

/// The earlier of two kinds in the order in which they are told.
pub fn earlier(a: LineKind, b: LineKind) -> LineKind
    ensures { result ≡ kinds.earlier a b }
{
    if rank(b) < rank(a) {
        return b;
    }
    a
}

/// The place of a kind in the order in which they are told.
fn rank(kind: LineKind) -> u8
    ensures { result ≡ kinds.rank kind }
{
    kind as u8
}

/// Two readings of one line: both values, or the kind that is told.
pub fn both<A: Drop, B: Drop>(
    a: Result<A, LineKind>,
    b: Result<B, LineKind>,
) -> Result<(A, B), LineKind>
    ensures { result ≡ readings.both a b }
{
    match (a, b) {
        (Ok(a), Ok(b)) => Ok((a, b)),
        (Ok(_), Err(kind)) => Err(kind),
        (Err(kind), Ok(_)) => Err(kind),
        (Err(kind), Err(other)) => Err(earlier(kind, other)),
    }
}
