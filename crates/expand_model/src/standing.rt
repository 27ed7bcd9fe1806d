//! Where a byte of a line stands.

#[derive(Clone, Copy)]
pub enum Standing {
    Open,
    Quoted,
    /// Between bars, or a bar of a name between them.
    Barred,
    Comment,
}
