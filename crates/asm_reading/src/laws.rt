//! Laws of the definitions, each proved as the contract of an empty function.

ghost use Rattle.asm_reading.specs.Laws.{OneLine, OneReading, ReadingsAreFit};

use asm_expr::directives::one_directive;
use asm_expr::read::one_parse;
use asm_lines::scan::one_scan;

/// What lines say is one thing.
pub fn one_reading()
    ensures line { OneLine }
    ensures reading { OneReading }
{
    one_parse();
    one_directive();
    one_scan();
}

/// The statements of lines, with the last first, are as layout and emission ask for them.
pub fn readings_are_fit()
    ensures { ReadingsAreFit }
{}
