//! How a branch leads to what it names.

ghost use Rattle.std.specs.Prelude.{◌≡◌, ℕ, ◌+◌, ◌<◌, ◌^◌};
ghost use Rattle.patch_model.specs.Patched.{pc_offset as pc_offset_of, bias as bias_of, biased_displacement as biased_displacement_of, total as total_of, way_to};
ghost use Rattle.link_apply.specs.Starts.{AreBelow};
ghost use Rattle.link_model.specs.declared.placing.Placement.{Placement};
ghost use Rattle.link_apply.specs.Flaws.{goal_of, lacks_veneer, unless, veneer_of, way_flaw};
ghost use Rattle.link_apply.specs.declared.flaws.Flaw.TheVariants.{Malformed};
ghost use Rattle.link_apply.specs.PatchedBytes.{turned};
ghost use Rattle.link_apply.specs.Targets.{values_by, way_by, IsWayOf};

use crate::flaws::{Flaw, flaw_of_detour, flaw_of_direct};
use crate::judging::Sums;
use crate::numbers::{bias, biased_displacement, pc_offset, total, with_displacement};
use crate::targets::target_of;
use link_values::{BranchTarget, SymbolValue};

/// What is wrong with the branch of a word at an address, by the veneer of its target and the target's address.
pub fn flaw_of_way(
    thumb: bool,
    at: u64,
    word: u32,
    sums: Sums,
    target: Option<BranchTarget>,
    veneer: Option<u32>,
    goal: u64,
) -> Option<Flaw>
    requires at { at < 2 ^ 34 }
    requires added { sums.added < 2 ^ 63 }
    requires subtracted { sums.subtracted < 2 ^ 63 }
    requires goal { goal < 2 ^ 33 }
    ensures { (p : Placement) (region : ℕ) → IsWayOf p region target veneer goal
        → result ≡ unless Malformed (lacks_veneer p region (way_by target))
        (way_flaw thumb at word sums.added sums.subtracted (veneer_of p region (way_by target))
        (way_by target) (goal_of p (way_by target))) }
{
    let Some(target) = target else {
        return flaw_of_direct(thumb, word, sums.added, sums.subtracted);
    };
    let Some(veneer) = veneer else {
        return Some(Flaw::Malformed);
    };
    flaw_of_detour(thumb, at, veneer as u64, target, goal)
}

/// The branch of a word at an address with the displacement that it is to have.
pub fn turned_word(
    thumb: bool,
    at: u64,
    word: u32,
    sums: Sums,
    target: Option<BranchTarget>,
    veneer: u32,
) -> u32
    requires at { at < 2 ^ 34 }
    requires added { sums.added < 2 ^ 63 }
    ensures { result ≡ turned thumb at word sums.added sums.subtracted veneer (way_by target) }
{
    if target.is_none() {
        return with_displacement(
            thumb,
            word,
            (biased_displacement(thumb, word) + sums.added).saturating_sub(sums.subtracted),
        );
    }
    let to = (veneer as u64 + bias(thumb)).saturating_sub(at + pc_offset(thumb));
    with_displacement(thumb, word, to)
}

/// The target of a branch of a word at an address, where it goes by a veneer: by the first symbol of its
/// relocations.
pub fn target_by(
    symbols: &[SymbolValue],
    thumb: bool,
    at: u64,
    word: u32,
    sums: Sums,
    symbol: Option<u32>,
) -> Option<BranchTarget>
    requires symbols { AreBelow symbols.now }
    requires at { at < 2 ^ 34 }
    requires subtracted { sums.subtracted < 2 ^ 63 }
    ensures { way_by result ≡ way_to thumb
        (total_of (at + pc_offset_of thumb + biased_displacement_of thumb word) 0 (bias_of thumb))
        sums.added sums.subtracted (values_by (λ k. 0) symbols.now) symbol }
{
    let number = symbol?;
    let found = symbols.get(number as usize)?;
    let reach = total(
        at + pc_offset(thumb) + biased_displacement(thumb, word),
        0,
        bias(thumb),
    );
    target_of(thumb, reach, sums.added, sums.subtracted, *found)
}
