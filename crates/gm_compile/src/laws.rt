//! What holds of the program of an accepted text, and of what the passes make of it, as contracts of calls that do nothing.

ghost use Rattle.gm_compile.specs.Laws.{AcceptedMayBeParted, ImagesRepresent};

use gm_accepted::accepted_programs_are_ready;
use gm_compilable::laws::{
    accepted_programs_are_of_texts, fitting_arguments_fit_parted, parted_programs_are_well_typed,
    parted_programs_have_tables,
};
use gm_interface::laws::typed_programs_have_tables;
use gm_plain_loops::laws::ready_programs_run;
use gm_typed_stores::stores_stay_typed;

/// The passes can write the program that a text stands for with plain loops, and it breaks no rule of types. An image that
/// runs as that of the parted program stands for it, where the parted program means the same and is in its last form, its
/// phases are told by a master list, and its loops suit.
pub fn images_represent()
    ensures may { AcceptedMayBeParted }
    ensures images { ImagesRepresent }
{
    accepted_programs_are_ready();
    accepted_programs_are_of_texts();
    typed_programs_have_tables();
    parted_programs_have_tables();
    parted_programs_are_well_typed();
    fitting_arguments_fit_parted();
    ready_programs_run();
    stores_stay_typed();
}
