//! The laws of the startup code, over the definition of the machine alone.

ghost use Rattle.std.specs.Prelude.{◌≡◌};
ghost use Rattle.boot_code.specs.Aif.{AifBoots, AifIsExact, AifVeneerBoots, AifVeneerIsExact, FixedAifBoots, FixedAifIsExact, FixedAifVeneerBoots, FixedAifVeneerIsExact};
ghost use Rattle.boot_code.specs.Laws.{StartupBoots, StartupIsExact};
ghost use Rattle.boot_code.specs.Maps.{MapLaw};
ghost use Rattle.boot_code.specs.Words.{ReadAs, boot_instructions, boot_list, relocator_instructions, relocator_list, zero_code, zero_instructions};

/// Which bytes a map of segments has, and what follows for bytes and words that it holds.
pub fn map_law()
    ensures { MapLaw }
{}

/// Each word reads as the instruction that the tables print beside it.
pub fn words_read()
    ensures boot { ReadAs boot_list boot_instructions }
    ensures zero { ReadAs zero_code zero_instructions }
    ensures relocator { ReadAs relocator_list relocator_instructions }
{}

/// From every permitted state the startup code with the rows of a placement reaches the entry in exactly
/// the steps of the rows, whatever the lines are; the memory is then the view, and elsewhere unchanged.
pub fn startup_is_exact()
    ensures { StartupIsExact }
{}

/// It does so within the bound.
pub fn startup_boots()
    ensures { StartupBoots }
{}

/// A relocatable AIF reaches its entry from an address in exactly its steps, in ARM state or, two steps
/// later, by a veneer; the memory is then the relocated image with its zero part set to zero, also where
/// that lies over the relocator, and elsewhere unchanged.
pub fn aif_is_exact()
    ensures in_arm { AifIsExact }
    ensures by_veneer { AifVeneerIsExact }
{}

/// It does so from every address that is a multiple of 4 and leaves room, within the bound.
pub fn aif_boots()
    ensures in_arm { AifBoots }
    ensures by_veneer { AifVeneerBoots }
{}

/// An AIF that isn't relocatable does so at its own base, where a read-only range may meet the file.
pub fn fixed_aif_is_exact()
    ensures in_arm { FixedAifIsExact }
    ensures by_veneer { FixedAifVeneerIsExact }
    ensures in_arm_within_the_bound { FixedAifBoots }
    ensures by_veneer_within_the_bound { FixedAifVeneerBoots }
{}
