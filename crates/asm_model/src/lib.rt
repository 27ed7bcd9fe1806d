//! The assembler's language as types and definitions: lines, tokens, expressions and their values, what lines say as
//! statements, and where statements stand: sizes, alignments, offsets, pools of literals, and what becomes of values
//! when areas are placed. Public source: the SDT 2.50 Reference Guide, chapter on the assembler; limits, kinds of
//! faults and the order in which they are told are this project's. All of the assembler stands on the types below;
//! contracts cite the definitions of `specs/`, and the empty functions in its modules of laws say what these mean.
#![tactic(auto)]

pub mod arm_lines;
pub mod data_items;
pub mod directives;
pub mod exprs;
pub mod faults;
pub mod files;
pub mod imports;
pub mod laws;
pub mod lines;
pub mod names;
pub mod number_laws;
pub mod occupied;
pub mod operands;
pub mod register_names;
pub mod shared_texts;
pub mod statements;
pub mod targets;
pub mod thumb_lines;
pub mod tokens;
pub mod values;
pub mod word_case;

pub use crate::arm_lines::ArmLine;
pub use crate::data_items::{held_by, item_alignment};
pub use crate::directives::{
    AreaAttributes, Attribute, Boundary, Contents, DataItem, Directive, DirectiveLine, Held,
    ImportMark, LabelNeed, RnOperand,
};
pub use crate::exprs::{BinaryOp, Expr, ExprItem, Part, UnaryOp};
pub use crate::faults::bad_line;
pub use crate::files::FileName;
pub use crate::imports::imported_name;
pub use crate::lines::{Flat, Line};
pub use crate::names::{LaidName, Meaning, Names};
pub use crate::occupied::{Occupied, occupied_by};
pub use crate::operands::{
    Address, BlockMode, HalfOffset, Indexing, ListItem, LiteralAddress, Register, RegisterList,
    Shift, StatusFields, StatusRegister, ThumbOperand,
};
pub use crate::register_names::RegisterName;
pub use crate::shared_texts::SharedText;
pub use crate::statements::{PseudoLine, Statement, What};
pub use crate::targets::{arm_target, thumb_target};
pub use crate::thumb_lines::ThumbLine;
pub use crate::tokens::{Due, Token, TokenKind};
pub use crate::values::{EvalFault, Value};
pub use crate::word_case::is_called;
