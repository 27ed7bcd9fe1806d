//! The kit's object, word by word.

ghost use Rattle.std.specs.Prelude.{◌≡◌, ◌%◌, IfOk, if◌then◌else◌};
ghost use Rattle.std.specs.List.{flat_map};
ghost use Rattle.sdt_word.specs.Bytes.{bytes_of};
ghost use Rattle.aof_object.specs.Flags.{scope_bits};
ghost use Rattle.aof_object.specs.Validity.{IsValid};
ghost use Rattle.irq_kit.specs.Kit as kit;
ghost use Rattle.irq_kit.specs.Kit.{kit_of, kit_symbols, vectors_of, work_area};
ghost use Rattle.irq_kit.specs.Transparent.{IsTransparent};

use aof_object::{Area, AreaParts, Object, Reloc, Scope, Symbol, SymbolParts};
use kit_laws::runs_are_transparent;
use sdt_fault::{Bytes, List, NoMemory, Text};
use sdt_word::push_word;
use std::alloc::Global;

/// The words of the vectors, of the handler and of its two literals.
fn vector_words(ack: u32) -> [u32; 20]
    ensures { result ≡ kit.vector_words ack }
{
    [
        0xEAFF_FFFE,
        0xEAFF_FFFE,
        0xEAFF_FFFE,
        0xEAFF_FFFE,
        0xEAFF_FFFE,
        0xEAFF_FFFE,
        0xEA00_0000,
        0xEAFF_FFFE,
        0xE59F_D020,
        0xE92D_0003,
        0xE59F_001C,
        0xE580_0000,
        0xE59F_0010,
        0xE590_1000,
        0xE281_1001,
        0xE580_1000,
        0xE8BD_0003,
        0xE25E_F004,
        8,
        ack,
    ]
}

fn word_bytes(alloc: Global, words: &[u32]) -> Result<Bytes, NoMemory>
    ensures { IfOk result (λ bytes. bytes ≡ flat_map (λ w. bytes_of w 4) words.now) }
{
    let mut bytes = Vec::new(alloc);
    for word in words {
        push_word(&mut bytes, *word)?;
    }
    Ok(Bytes::from_vec(bytes))
}

/// The first vector leads to the startup code, and the literal at 0x48 is the address of the count word.
fn vector_relocs(alloc: Global) -> Result<List<Reloc>, NoMemory>
    ensures { IfOk result (λ relocs. relocs ≡ kit.vector_relocs) }
{
    let mut relocs = Vec::new(alloc);
    relocs.push(Reloc::branch_by_symbol(0, 0))?;
    relocs.push(Reloc::word_by_area(0x48, 1))?;
    Ok(List::from_vec(relocs))
}

/// Words of code, read-only or, where `code` is false, zero-initialised.
fn area_flags(code: bool) -> u32
    ensures { result ≡ (if code then 0x2202 else 0x1002) }
{
    AreaParts {
        alignment: 2,
        code,
        zero_initialised: !code,
        read_only: code,
        position_independent: false,
        reentrant: false,
        thumb: false,
        halfword: false,
        interworking: false,
    }
    .word()
}

fn vectors(alloc: Global, ack: u32) -> Result<Area, NoMemory>
    ensures { IfOk result (λ area. area ≡ vectors_of ack) }
{
    Ok(Area {
        name: Text::from_slice(alloc, b"irq_vectors")?,
        attributes: area_flags(true),
        size: 0x50,
        bytes: word_bytes(alloc, &vector_words(ack))?,
        relocs: vector_relocs(alloc)?,
    })
}

fn work(alloc: Global) -> Result<Area, NoMemory>
    ensures { IfOk result (λ area. area ≡ work_area) }
{
    Ok(Area {
        name: Text::from_slice(alloc, b"irq_work")?,
        attributes: area_flags(false),
        size: 12,
        bytes: Bytes::from_vec(Vec::new(alloc)),
        relocs: List::from_vec(Vec::new(alloc)),
    })
}

fn symbol_flags(scope: Scope) -> u32
    ensures { result ≡ scope_bits scope }
{
    SymbolParts {
        scope,
        absolute: false,
        weak: false,
        datum: false,
        thumb: false,
    }
    .word()
}

fn symbols(alloc: Global) -> Result<List<Symbol>, NoMemory>
    ensures { IfOk result (λ symbols. symbols ≡ kit_symbols) }
{
    let mut symbols = Vec::new(alloc);
    symbols.push(Symbol {
        name: Text::from_slice(alloc, b"Boot$$Start")?,
        attributes: symbol_flags(Scope::Reference),
        value: 0,
        area: None,
    })?;
    symbols.push(Symbol {
        name: Text::from_slice(alloc, b"irq_count")?,
        attributes: symbol_flags(Scope::Exported),
        value: 8,
        area: Some(1),
    })?;
    Ok(List::from_vec(symbols))
}

fn whole(alloc: Global, ack: u32) -> Result<Object, NoMemory>
    ensures exact { IfOk result (λ o. o ≡ kit_of ack) }
    ensures valid { IfOk result (λ o. IsValid o) }
{
    let mut areas = Vec::new(alloc);
    areas.push(vectors(alloc, ack)?)?;
    areas.push(work(alloc)?)?;
    Ok(Object {
        areas: List::from_vec(areas),
        symbols: symbols(alloc)?,
        entry: None,
    })
}

/// The kit's object: the area `irq_vectors` with the vectors, the handler and its literals, and the area `irq_work` with
/// the handler's stack and the word `irq_count`. The handler acknowledges an interrupt by a store to the address `ack`.
/// Where the kit is in force, a program that keeps the rules runs as it runs without interrupts, and the count word
/// counts them.
pub fn kit_object(alloc: Global, ack: u32) -> Result<Object, NoMemory>
    requires { ack % 4 ≡ 0 }
    ensures exact { IfOk result (λ o. o ≡ kit_of ack) }
    ensures valid { IfOk result (λ o. IsValid o) }
    ensures transparent { IfOk result (λ o. IsTransparent o ack) }
{
    runs_are_transparent();
    whole(alloc, ack)
}
