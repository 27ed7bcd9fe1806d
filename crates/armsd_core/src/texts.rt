//! What is printed, in texts that take no memory of the allocator.

ghost use Rattle.std.specs.Prelude.{◌≡◌, ◌≤◌, ◌<◌, ◌+◌, ◌*◌, ◌++◌, ◌∷◌, [], length, true, false};
ghost use Rattle.std.specs.Fmt.{decimal, digit_glyph};
ghost use Rattle.sdt_fault.specs.Digits.{hexadecimal_places};
ghost use Rattle.arm7_bus.specs.Buses.{IsStarted};
ghost use Rattle.arm7_model.specs.Registers.{register};
ghost use Rattle.arm7_transfers.specs.Views.{state_of};
ghost use Rattle.armsd_core.specs.Texts as texts;

use crate::reason::Reason;
use arm7_bus::Bus;
use arm7_core::Machine;
use arm7_model::ArmState;
use arrayvec::ArrayVec;
use itoa::Buffer;
use sdt_outside::Device;

/// At most 1,024 bytes.
pub type Line = ArrayVec<u8, 1024>;

/// The hexadecimal digit of a number below 16.
fn digit(value: u8, upper: bool) -> u8
    requires { value < 16 }
    ensures { result ≡ digit_glyph upper value }
{
    if value < 10 {
        return b'0' + value;
    }
    if upper {
        return b'A' + (value - 10);
    }
    b'a' + (value - 10)
}

fn push_text(out: &mut Line, piece: &[u8])
    requires { length out.old.items + length piece.now ≤ 1024 }
    ensures { out.new.items ≡ out.old.items ++ piece.now }
{
    out.try_extend_from_slice(piece).unwrap();
}

/// The last hexadecimal digits of a word, in upper case.
fn push_places(out: &mut Line, word: u32, places: u8)
    requires { length out.old.items + places ≤ 1024 }
    ensures text { out.new.items ≡ out.old.items ++ hexadecimal_places places word }
    ensures size { length out.new.items ≡ length out.old.items + places }
{
    if places == 0 {
        return;
    }
    push_places(out, word / 16, places - 1);
    out.push(digit((word % 16) as u8, true));
}

fn push_decimal(out: &mut Line, n: u128)
    requires { length out.old.items + 40 ≤ 1024 }
    ensures text { out.new.items ≡ out.old.items ++ decimal n }
    ensures size { length out.new.items ≤ length out.old.items + 40 }
{
    let mut buffer = Buffer::new();
    push_text(out, buffer.format(n).as_bytes());
}

/// A word behind its name.
fn push_named(out: &mut Line, name: &[u8], word: u32)
    requires { length out.old.items + length name.now + 8 ≤ 1024 }
    ensures text { out.new.items ≡ out.old.items ++ texts.named name.now word }
    ensures size { length out.new.items ≡ length out.old.items + length name.now + 8 }
{
    push_text(out, name);
    push_places(out, word, 8);
}

fn push_reason(out: &mut Line, why: Reason)
    requires { length out.old.items + 22 ≤ 1024 }
    ensures text { out.new.items ≡ out.old.items ++ texts.reason_text why }
    ensures size { length out.new.items ≤ length out.old.items + 22 }
{
    match why {
        Reason::Count => push_text(out, b"count"),
        Reason::Break => push_text(out, b"break"),
        Reason::Watch(a) => push_named(out, b"watch ", a),
        Reason::Exit => push_text(out, b"exit"),
        Reason::Unpredictable(word) => push_named(out, b"unpredictable ", word),
        Reason::BadString(a) => push_named(out, b"badstring ", a),
        Reason::NoFrame(a) => push_named(out, b"noframe ", a),
    }
}

/// A space, a number in decimal, and a space.
fn push_count(out: &mut Line, n: u128)
    requires { length out.old.items + 42 ≤ 1024 }
    ensures text { out.new.items ≡ out.old.items ++ 32 ∷ decimal n ++ 32 ∷ [] }
    ensures size { length out.new.items ≤ length out.old.items + 42 }
{
    out.push(b' ');
    push_decimal(out, n);
    out.push(b' ');
}

/// The line of a Step or a Go.
pub fn stop_line(pc: u32, steps: u128, why: Reason) -> Line
    ensures { result.items ≡ texts.stop_line pc steps why }
{
    let mut out = Line::new();
    push_named(&mut out, b"at ", pc);
    push_count(&mut out, steps);
    push_reason(&mut out, why);
    out.push(b'\n');
    out
}

/// The end of a register's line.
fn push_value(out: &mut Line, word: u32)
    requires { length out.old.items + 10 ≤ 1024 }
    ensures text { out.new.items ≡ out.old.items ++ texts.register_line [] word }
    ensures size { length out.new.items ≡ length out.old.items + 10 }
{
    push_named(out, b" ", word);
    out.push(b'\n');
}

/// The line of a register.
fn push_numbered(out: &mut Line, k: u32, word: u32)
    requires { length out.old.items + 51 ≤ 1024 }
    ensures text { out.new.items ≡ out.old.items ++ texts.register_line (114 ∷ decimal k) word }
    ensures size { length out.new.items ≤ length out.old.items + 51 }
{
    out.push(b'r');
    push_decimal(out, u128::from(k));
    push_value(out, word);
}

/// The registers, one a line.
#[tactic(auto, unfolding(arm7_model::specs::Registers::register))]
fn numbered(state: &ArmState) -> Line
    ensures text { result.items ≡ texts.first_registers state.now 16 }
    ensures size { length result.items ≤ 816 }
{
    let mut out = Line::new();
    for k in 0..16 {
        push_numbered(&mut out, k, state.r[k as usize]);
    }
    out
}

/// The registers and CPSR, one a line.
#[tactic(auto, unfolding(crate::specs::Texts::registers_text))]
pub fn registers_text(machine: &Machine) -> Line
    ensures { result.items ≡ texts.registers_text machine.now.state }
{
    let mut out = numbered(&machine.state);
    push_text(&mut out, b"cpsr");
    push_value(&mut out, machine.state.cpsr);
    out
}

/// A byte, or `--` where there is none.
fn push_byte(out: &mut Line, byte: Option<u8>)
    requires { length out.old.items + 2 ≤ 1024 }
    ensures text { out.new.items ≡ out.old.items ++ texts.byte_text byte }
    ensures size { length out.new.items ≡ length out.old.items + 2 }
{
    match byte {
        None => push_text(out, b"--"),
        Some(byte) => {
            out.push(digit(byte / 16, false));
            out.push(digit(byte % 16, false));
        }
    }
}

/// The bytes from an address on, in one line.
#[tactic(auto, unfolding(crate::specs::Texts::memory_text))]
pub fn memory_text(bus: &Bus, a: u32, n: u32) -> Line
    requires started { IsStarted (state_of base size state touched bus.now) }
    requires few { n ≤ 256 }
    ensures { result.items ≡ texts.memory_text (state_of base size state touched bus.now).contents a n }
{
    let mut out = Line::new();
    for k in 0..n {
        push_byte(&mut out, bus.peek(a.wrapping_add(k)));
    }
    out.push(b'\n');
    out
}
