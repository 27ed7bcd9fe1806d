//! Laws: the text of the source that `make-big` makes expands to its lines, these say its statements, and it is no
//! longer than a source may be. This project's; there is no engine. `sdt_toolkit` calls them so that `make-big` is done
//! for each count.
#![tactic(auto)]

ghost use Rattle.big_lines.specs.Lines.{BigExpands, BigIsRead, BigIsShort};

use asm_reading::laws::one_reading;
use expand_model::expansion_law;

/// The text expands to its lines.
pub fn big_expands()
    ensures { BigExpands }
{
    expansion_law();
}

/// The lines say the statements.
pub fn big_is_read()
    ensures { BigIsRead }
{
    one_reading();
}

/// The text is no longer than a source may be.
pub fn big_is_short()
    ensures { BigIsShort }
{}
