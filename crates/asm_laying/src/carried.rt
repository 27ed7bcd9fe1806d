//! What the statements before another say of it.

ghost use Rattle.std.specs.Prelude.{◌≡◌};
ghost use Rattle.asm_model.specs.Before as before;
ghost use Rattle.asm_laying.specs.Carried.{stepped};

use asm_model::{Contents, DirectiveLine, What};

/// What the statements before another say of it, but for its area.
#[derive(Clone, Copy)]
pub struct CarriedState {
    /// Whether it stands in Thumb state.
    pub thumb: bool,
    /// Whether the last of them stands in a code area.
    pub code: bool,
}

/// Before the first statement.
pub const START: CarriedState = CarriedState {
    thumb: false,
    code: false,
};

fn state_behind(what: &What, thumb: bool) -> bool
    ensures { result ≡ before.state_behind what.now thumb }
{
    match what {
        What::Directive(DirectiveLine::Code16) => true,
        What::Directive(DirectiveLine::Code32) => false,
        _ => thumb,
    }
}

fn is_code(contents: Contents) -> bool
    ensures { result ≡ before.is_code contents }
{
    match contents {
        Contents::Code => true,
        _ => false,
    }
}

fn code_from(what: &What, code: bool) -> bool
    ensures { result ≡ before.code_from what.now code }
{
    match what {
        What::Directive(DirectiveLine::Area { attributes, .. }) => is_code(attributes.contents),
        _ => code,
    }
}

impl CarriedState {
    /// The same, with a statement more.
    pub fn stepped(self, what: &What) -> CarriedState
        ensures { result ≡ stepped what.now self }
    {
        CarriedState {
            thumb: state_behind(what, self.thumb),
            code: code_from(what, self.code),
        }
    }
}
