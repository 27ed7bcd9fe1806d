//! Laws of a generated source, each proved as the contract of an empty function.

ghost use Rattle.big_lines.specs.Lines.{BigIsShort};
ghost use Rattle.sdt_toolkit.specs.Big.{BigImagesFit, BigImagesRun};
ghost use Rattle.sdt_toolkit.specs.BigAccepts.{BigIsAssembled};
ghost use Rattle.sdt_toolkit.specs.BigMade.{ImageIsMade};
ghost use Rattle.sdt_toolkit.specs.BigStarts.{ImageStarts};

use big_entry::program_is_entered;
use big_faults::{big_has_no_fault, big_has_object};
use big_lines::{big_expands, big_is_read, big_is_short};
use big_place::{plan_has_no_fault, text_is_read};
use big_run::big_runs;
use boot_code::{map_law, startup_is_exact};
use image_laws::{image_boots, view_law};
use link_laws::{made_images, made_links};
use room_laws::default_bank_has_room;
use run_laws::{
    board_is_one, bus_run_is_one, devices_are_left, made_steps_are_one, runs_are_bus_runs,
};
use scatter_text::reading_law;

/// What a generated source becomes: over a store that tells its files its text, of at most 2^24 bytes, has no refusal of the
/// assembler and one object; that has none of the linker and makes one image, whose load regions reach the program's first
/// word.
fn big_image_law()
    ensures short { BigIsShort }
    ensures assembled { BigIsAssembled }
    ensures made { ImageIsMade }
    ensures starts { ImageStarts }
{
    big_expands();
    big_is_read();
    big_is_short();
    big_has_no_fault();
    big_has_object();
    plan_has_no_fault();
    text_is_read();
    reading_law();
    made_links();
    made_images();
    image_boots();
    startup_is_exact();
    view_law();
    map_law();
}

/// What is made of a generated source, how its image runs in the default bank of a run over any devices that meet neither the
/// bank nor each other, and that nothing but such a meeting refuses it.
pub fn big_law()
    ensures short { BigIsShort }
    ensures assembled { BigIsAssembled }
    ensures made { ImageIsMade }
    ensures starts { ImageStarts }
    ensures runs { BigImagesRun }
    ensures fits { BigImagesFit }
{
    big_image_law();
    big_runs();
    board_is_one();
    bus_run_is_one();
    devices_are_left();
    runs_are_bus_runs();
    made_steps_are_one();
    program_is_entered();
    default_bank_has_room();
}
