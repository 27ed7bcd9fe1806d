//! The registers that names stand for.

ghost use Rattle.std.specs.Prelude.{◌≡◌};
ghost use Rattle.source_model.specs.Registers as registers;

use asm_model::{Register, SharedText};
use asm_sets::NameMap;

/// The register that a name stands for.
pub fn register_in(known: &NameMap<u8>, name: &SharedText) -> Option<u8>
    ensures { result ≡ registers.register_in name.now known.now }
{
    known.find(name)
}

/// The number of a register.
pub fn number_of(known: &NameMap<u8>, register: &Register) -> Option<u8>
    ensures { result ≡ registers.number_of known.now register.now }
{
    match register {
        Register::Number(number) => Some(*number),
        Register::Named(name) => register_in(known, name.as_text()),
    }
}
