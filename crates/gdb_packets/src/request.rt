//! The request that a packet's content spells.

ghost use Rattle.std.specs.Prelude.{◌≡◌, IfOk, None, Some, MatchOption, bytes_eq};
ghost use Rattle.gdb_packets.specs.Requests as requests;

use crate::fields::{bytes_in, cut, number, pair, unescaped, word};
use sdt_fault::{Bytes, NoMemory};
use sdt_word::Range32;
use std::alloc::Global;

/// A question with one answer, whatever the machine is.
#[derive(Clone, Copy)]
pub enum Query {
    /// `qSupported`: what the server can.
    Supported,
    /// `vCont?`: which actions `vCont` has.
    Actions,
    /// `H`, `T`: which thread further packets mean, and whether it lives.
    Thread,
    /// `qC`: the current thread.
    CurrentThread,
    /// `qfThreadInfo`: the first threads.
    FirstThreads,
    /// `qsThreadInfo`: the further ones.
    MoreThreads,
    /// `qAttached`: whether the program ran before.
    Attached,
    /// `qOffsets`: by how much sections were moved.
    Offsets,
}

/// What a packet asks.
#[derive(Drop)]
pub enum Request {
    /// `?`: why the machine stands still.
    Halted,
    /// `g`: the registers.
    Registers,
    /// `G`: these registers are written.
    SetRegisters(Bytes),
    /// `p K`: a register.
    Register(u32),
    /// `P K=V`: a register is written.
    SetRegister(u32, u32),
    /// `m A,N`: so many bytes from an address on.
    Memory(u32, u32),
    /// `M A,N:..`, `X A,N:..`: bytes are written from an address on.
    Store(u32, Bytes),
    /// `c`, `vCont;c`, and with a signal, which isn't given.
    Continue,
    /// `s`, `vCont;s`.
    Step,
    /// `F..`: the answer to a question; whether an interrupt came with it.
    Answer(bool),
    /// `Z0`, `Z1`: the address becomes a breakpoint.
    SetPoint(u32),
    /// `z0`, `z1`: it is none.
    DropPoint(u32),
    /// `Z2`: stores to the range are watched.
    SetWatch(Range32),
    /// `z2`: they aren't.
    DropWatch(Range32),
    /// `qXfer:features:read:target.xml:A,N`: so much of the target's description.
    Target(u32, u32),
    /// `qRcmd`: a command of the server's own.
    Command(Bytes),
    /// `QStartNoAckMode`: no more `+` and `-`.
    WithoutAcks,
    /// A question with one answer.
    Known(Query),
    /// `k`: the session ends without a reply.
    Kill,
    /// `vKill`, `D`: the session ends behind a reply.
    Leave,
    /// A packet of a known kind and no form.
    Malformed,
    /// Any other packet.
    Unknown,
}

fn is(text: &[u8], other: &[u8]) -> bool
    ensures { result ≡ bytes_eq text.now other.now }
{
    text == other
}

/// What stands behind this beginning.
fn behind<'a>(text: &'a [u8], front: &[u8]) -> Option<&'a [u8]>
    ensures { MatchOption result (requests.behind front.now text.now ≡ None) (λ rest. requests.behind front.now text.now ≡ Some rest.now) }
{
    text.strip_prefix(front)
}

fn query_in(text: &[u8]) -> Option<Query>
    ensures { result ≡ requests.query_in text.now }
{
    if is(text, b"vCont?") {
        return Some(Query::Actions);
    }
    if is(text, b"qC") {
        return Some(Query::CurrentThread);
    }
    if is(text, b"qfThreadInfo") {
        return Some(Query::FirstThreads);
    }
    if is(text, b"qsThreadInfo") {
        return Some(Query::MoreThreads);
    }
    if is(text, b"qAttached") {
        return Some(Query::Attached);
    }
    if is(text, b"qOffsets") {
        return Some(Query::Offsets);
    }
    None
}

/// A request without fields.
fn bare(text: &[u8]) -> Option<Request>
    ensures { result ≡ requests.bare text.now }
{
    if is(text, b"?") {
        return Some(Request::Halted);
    }
    if is(text, b"g") {
        return Some(Request::Registers);
    }
    if is(text, b"c") {
        return Some(Request::Continue);
    }
    if is(text, b"s") {
        return Some(Request::Step);
    }
    if is(text, b"k") {
        return Some(Request::Kill);
    }
    if is(text, b"D") {
        return Some(Request::Leave);
    }
    if is(text, b"QStartNoAckMode") {
        return Some(Request::WithoutAcks);
    }
    match query_in(text) {
        None => None,
        Some(query) => Some(Request::Known(query)),
    }
}

/// A range that ends at 2^32 or below.
fn ending(a: u32, n: u32) -> Option<Range32>
    ensures { result ≡ requests.ending a n }
{
    let size = u64::from(n);
    if u64::from(a) + size > 1 << 32 {
        return None;
    }
    Some(Range32 { base: a, size })
}

fn range(a: u32, n: u32) -> Option<Range32>
    ensures { result ≡ requests.range a n }
{
    if n == 0 {
        return None;
    }
    ending(a, n)
}

/// The action of a `vCont`.
fn action(text: &[u8]) -> Request
    ensures { result ≡ requests.action text.now }
{
    let Some(first) = text.first() else {
        return Request::Malformed;
    };
    match *first {
        b'c' | b'C' => Request::Continue,
        b's' | b'S' => Request::Step,
        _ => Request::Malformed,
    }
}

fn target(text: &[u8]) -> Request
    ensures { result ≡ requests.target text.now }
{
    match pair(text, b',') {
        Some((a, n)) => Request::Target(a, n),
        None => Request::Malformed,
    }
}

fn register(text: &[u8]) -> Request
    ensures { result ≡ requests.register text.now }
{
    match number(text) {
        Some(k) => Request::Register(k),
        None => Request::Malformed,
    }
}

fn register_write(text: &[u8]) -> Option<(u32, u32)>
    ensures { result ≡ requests.register_write text.now }
{
    let (k, v) = cut(text, b'=')?;
    Some((number(k)?, word(v)?))
}

fn set_register(text: &[u8]) -> Request
    ensures { result ≡ requests.set_register text.now }
{
    match register_write(text) {
        Some((k, v)) => Request::SetRegister(k, v),
        None => Request::Malformed,
    }
}

fn memory(text: &[u8]) -> Request
    ensures { result ≡ requests.memory text.now }
{
    match pair(text, b',') {
        Some((a, n)) => Request::Memory(a, n),
        None => Request::Malformed,
    }
}

/// The bytes that are written, where they are as many as was said.
fn store(a: u32, n: u32, found: Option<Bytes>) -> Request
    ensures { result ≡ requests.store a n found }
{
    match found {
        None => Request::Malformed,
        Some(bytes) => {
            if bytes.as_slice().len() as u64 != u64::from(n) {
                return Request::Malformed;
            }
            Request::Store(a, bytes)
        }
    }
}

/// Where bytes are written, how many, and their text.
fn place(text: &[u8]) -> Option<(u32, u32, &[u8])>
    ensures { MatchOption result (requests.place text.now ≡ None) (λ p. requests.place text.now ≡ Some (p.0, p.1, p.2.now)) }
{
    let (front, rest) = cut(text, b':')?;
    let (a, n) = pair(front, b',')?;
    Some((a, n, rest))
}

fn hexadecimal_store(alloc: Global, text: &[u8]) -> Result<Request, NoMemory>
    ensures { IfOk result (λ request. request ≡ requests.hexadecimal_store text.now) }
{
    match place(text) {
        None => Ok(Request::Malformed),
        Some((a, n, rest)) => Ok(store(a, n, bytes_in(alloc, rest)?)),
    }
}

fn binary_store(alloc: Global, text: &[u8]) -> Result<Request, NoMemory>
    ensures { IfOk result (λ request. request ≡ requests.binary_store text.now) }
{
    match place(text) {
        None => Ok(Request::Malformed),
        Some((a, n, rest)) => Ok(store(a, n, Some(unescaped(alloc, rest)?))),
    }
}

fn set_registers(alloc: Global, text: &[u8]) -> Result<Request, NoMemory>
    ensures { IfOk result (λ request. request ≡ requests.set_registers text.now) }
{
    match bytes_in(alloc, text)? {
        None => Ok(Request::Malformed),
        Some(bytes) => Ok(Request::SetRegisters(bytes)),
    }
}

fn command(alloc: Global, text: &[u8]) -> Result<Request, NoMemory>
    ensures { IfOk result (λ request. request ≡ requests.command text.now) }
{
    match bytes_in(alloc, text)? {
        None => Ok(Request::Malformed),
        Some(bytes) => Ok(Request::Command(bytes)),
    }
}

/// A breakpoint or a watched range, by its kind.
fn point(set: bool, kind: &[u8], a: u32, n: u32) -> Request
    ensures { result ≡ requests.point set kind.now a n }
{
    if is(kind, b"0") || is(kind, b"1") {
        return if set {
            Request::SetPoint(a)
        } else {
            Request::DropPoint(a)
        };
    }
    if !is(kind, b"2") {
        return Request::Unknown;
    }
    match range(a, n) {
        None => Request::Malformed,
        Some(range) => {
            if set {
                Request::SetWatch(range)
            } else {
                Request::DropWatch(range)
            }
        }
    }
}

fn points(set: bool, text: &[u8]) -> Request
    ensures { result ≡ requests.points set text.now }
{
    let Some((kind, rest)) = cut(text, b',') else {
        return Request::Malformed;
    };
    match pair(rest, b',') {
        None => Request::Malformed,
        Some((a, n)) => point(set, kind, a, n),
    }
}

fn answer(text: &[u8]) -> Request
    ensures { result ≡ requests.answer text.now }
{
    Request::Answer(text.ends_with(b",C"))
}

/// A request that a name begins.
fn named(alloc: Global, text: &[u8]) -> Result<Option<Request>, NoMemory>
    ensures { IfOk result (λ found. found ≡ requests.named text.now) }
{
    if let Some(rest) = behind(text, b"vCont;") {
        return Ok(Some(action(rest)));
    }
    if let Some(rest) = behind(text, b"qXfer:features:read:target.xml:") {
        return Ok(Some(target(rest)));
    }
    if let Some(rest) = behind(text, b"qRcmd,") {
        return Ok(Some(command(alloc, rest)?));
    }
    if behind(text, b"qSupported").is_some() {
        return Ok(Some(Request::Known(Query::Supported)));
    }
    if behind(text, b"vKill;").is_some() {
        return Ok(Some(Request::Leave));
    }
    if behind(text, b"D;").is_some() {
        return Ok(Some(Request::Leave));
    }
    Ok(None)
}

/// A request of one letter without data of any length.
fn short(letter: u8, text: &[u8]) -> Request
    ensures { result ≡ requests.short letter text.now }
{
    match letter {
        b'p' => register(text),
        b'P' => set_register(text),
        b'm' => memory(text),
        b'Z' => points(true, text),
        b'z' => points(false, text),
        b'F' => answer(text),
        b'H' | b'T' => Request::Known(Query::Thread),
        _ => Request::Unknown,
    }
}

fn lettered(alloc: Global, letter: u8, text: &[u8]) -> Result<Request, NoMemory>
    ensures { IfOk result (λ request. request ≡ requests.lettered letter text.now) }
{
    match letter {
        b'M' => hexadecimal_store(alloc, text),
        b'X' => binary_store(alloc, text),
        b'G' => set_registers(alloc, text),
        _ => Ok(short(letter, text)),
    }
}

/// The request that a packet's content spells.
pub fn read_request(alloc: Global, text: &[u8]) -> Result<Request, NoMemory>
    ensures { IfOk result (λ request. request ≡ requests.request_of text.now) }
{
    if let Some(request) = bare(text) {
        return Ok(request);
    }
    if let Some(request) = named(alloc, text)? {
        return Ok(request);
    }
    let [letter, rest @ ..] = text else {
        return Ok(Request::Unknown);
    };
    lettered(alloc, *letter, rest)
}
