//! Laws of the definitions, each proved as the contract of an empty function.

ghost use Rattle.sdt_toolkit.specs.Builds.{BuildsAreLinks, SpelledAreObjectFiles};
ghost use Rattle.sdt_toolkit.specs.Burns.{LinkedBurns};
ghost use Rattle.sdt_toolkit.specs.Interrupts.{InterruptsAreHidden};
ghost use Rattle.sdt_toolkit.specs.Links.{OneLinkAsked};
ghost use Rattle.sdt_toolkit.specs.Plans.{ImagesArePlaced};
ghost use Rattle.sdt_toolkit.specs.Reports.{OneReportAsked};
ghost use Rattle.sdt_toolkit.specs.Runs.{CommandsStart, FilesAreRead, LinkedRunsStart, OneRun, RunsStart};
ghost use Rattle.sdt_toolkit.specs.Sources.{OneAsked};

use aif_image::aif_law;
use armasm_core::laws::one_assembly;
use armlink_core::laws::{image_names, table_names};
use bin_image::{map_law, spelling_law};
use elf_image::elf_law;
use hex_image::{ihex_law, srec_law};
use link_model::linked_law;
use run_laws::{bus_run_is_one, made_steps_are_one, started_exits_alike};
use scatter_text::reading_law;
use tool_run::elf_load_law;

/// Files ask for one thing.
pub fn one_asked()
    ensures assembled { OneAsked }
    ensures linked { OneLinkAsked }
    ensures reported { OneReportAsked }
{
    one_assembly();
    linked_law();
}

/// The objects of an image, as they are read and assembled, were placed by one plan, and the image is that plan's: its files,
/// where a loader puts them, are or become the view of the plan, and the startup code of a scatter image reaches the entry
/// within the image's bound. An ARM image file starts so too, from its own address or, where it can be moved, from each that
/// leaves room for it and its zero part.
pub fn images_start()
    ensures { ImagesArePlaced }
{
    reading_law();
}

/// What `build` makes of sources is what `link` makes of their objects, among files in which each source's object has its
/// file, as `asm` writes it, and all other files that are read are the same.
pub fn builds_are_links()
    ensures links { BuildsAreLinks }
    ensures files { SpelledAreObjectFiles }
{
    one_assembly();
    image_names();
    table_names();
    images_start();
}

/// Where the files of a scatter image stand in a store, its map reads as the image.
fn files_are_read()
    ensures { FilesAreRead }
{
    map_law();
    spelling_law();
}

/// The first steps of a run of an image that starts are the startup code's, which lead to the entry; a run that ends there or
/// before touches no device.
fn runs_start()
    ensures { RunsStart }
{
    bus_run_is_one();
    made_steps_are_one();
}

/// Each run that the command `run` makes of such an image, which its words read, begins with the startup code's steps, which
/// lead to the entry with memory as its view.
pub fn commands_start()
    ensures { CommandsStart }
{
    runs_start();
}

/// So does each run by the map, of the ELF executable, or of the ARM image file, that `link` or `build` left, over the files as
/// they left them.
pub fn linked_runs_start()
    ensures { LinkedRunsStart }
{
    files_are_read();
    elf_law();
    elf_load_law();
    aif_law();
    commands_start();
}

/// The text that `burn` writes of the map that `link` or `build` left of a scatter image, over the files as they left them, tells
/// the image's load regions and its start, and `run -burned` reads it so.
pub fn linked_burns()
    ensures { LinkedBurns }
{
    files_are_read();
    ihex_law();
    srec_law();
}

/// Where the interrupt kit is in force in the image and the program keeps the rules, a run by the map that devices interrupt and
/// that ends by SWI 0x11 is answered as the run without interrupts, with the same text.
pub fn interrupts_are_hidden()
    ensures { InterruptsAreHidden }
{
    files_are_read();
    started_exits_alike();
}

/// Words, files of bytes, the text before and devices of whole words decide a run. Its answer is one, unless a fault or want of
/// memory made it, and so are the text, the devices and the files that it leaves.
pub fn one_run()
    ensures { OneRun }
{
    bus_run_is_one();
}
