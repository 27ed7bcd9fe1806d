//! The registers of the ARM7TDMI (ARM Architecture Reference Manual, programmer's model).

/// The registers that aren't visible.
#[derive(Clone, Copy)]
pub struct Banks {
    /// r8 to r12 of FIQ mode or, in FIQ mode, those of the other modes.
    pub high: [u32; 5],
    /// r13 of user and system, FIQ, IRQ, supervisor, abort and undefined mode in this order, with 0 in
    /// the visible mode's place.
    pub r13: [u32; 6],
    /// r14 in the same order.
    pub r14: [u32; 6],
}

/// The registers of the processor: the visible ones, the banked ones, CPSR, and the SPSRs of FIQ, IRQ,
/// supervisor, abort and undefined mode in this order. Bits 27 to 8 of a status register are 0.
#[derive(Clone, Copy)]
pub struct ArmState {
    pub r: [u32; 16],
    pub banks: Banks,
    pub cpsr: u32,
    pub spsr: [u32; 5],
}

/// The modes, whose numbers are the low five bits of a status register: 0x10, 0x11, 0x12, 0x13, 0x17,
/// 0x1B and 0x1F in this order.
#[derive(Clone, Copy)]
pub enum Mode {
    User,
    Fiq,
    Irq,
    Supervisor,
    Abort,
    Undefined,
    System,
}
