//! Names that statements import.

ghost use Rattle.std.specs.Prelude.{◌≡◌};
ghost use Rattle.std.specs.Option.{option_copied};
ghost use Rattle.asm_model.specs.Labels as labels;

use crate::directives::DirectiveLine;
use crate::shared_texts::SharedText;
use crate::statements::What;

fn directive_imports(line: &DirectiveLine) -> Option<&SharedText>
    ensures { option_copied result ≡ labels.directive_imports line.now }
{
    match line {
        DirectiveLine::Import { name, .. } => Some(name),
        DirectiveLine::Extern { name, .. } => Some(name),
        DirectiveLine::Area { .. }
        | DirectiveLine::Entry
        | DirectiveLine::End
        | DirectiveLine::Export { .. }
        | DirectiveLine::Keep { .. }
        | DirectiveLine::Equ { .. }
        | DirectiveLine::Rn { .. }
        | DirectiveLine::Rout
        | DirectiveLine::Assert { .. }
        | DirectiveLine::Nofp
        | DirectiveLine::Opt { .. }
        | DirectiveLine::Ttl
        | DirectiveLine::Subt
        | DirectiveLine::Constants { .. }
        | DirectiveLine::Space { .. }
        | DirectiveLine::Align { .. }
        | DirectiveLine::Ltorg
        | DirectiveLine::Data
        | DirectiveLine::Map { .. }
        | DirectiveLine::Field { .. }
        | DirectiveLine::Code16
        | DirectiveLine::Code32 => None,
    }
}

/// The name that a statement imports.
pub fn imported_name(what: &What) -> Option<&SharedText>
    ensures { option_copied result ≡ labels.imported_in what.now }
{
    match what {
        What::Nothing | What::Arm(_) | What::Thumb(_) | What::Pseudo(_) => None,
        What::Directive(line) => directive_imports(line),
    }
}
