//! Laws of the images of code for the word machine, each the contract of a function that does nothing.

ghost use Rattle.rv_flow.specs.Laws.{CodeCanBeAssembled, CodeIsShort, ImagesAreGuarded, ImagesFollow, ImagesNeverTrap, ImagesReach};

/// What n steps of the word machine reach, the machine reaches within the instructions that they cost
/// and the two of the first far jump.
pub fn images_reach()
    ensures { ImagesReach }
{}

/// After n instructions the machine has done no more than n steps of the word machine.
pub fn images_follow()
    ensures { ImagesFollow }
{}

/// The image of disciplined code is guarded.
pub fn images_are_guarded()
    ensures { ImagesAreGuarded }
{}

/// It never traps, whatever its input is and however long it runs.
pub fn images_never_trap()
    ensures { ImagesNeverTrap }
{}

/// The items of disciplined code are encodable, and their labels are marked once each, so an
/// assembler refuses none.
pub fn code_can_be_assembled()
    ensures { CodeCanBeAssembled }
{}

/// Code has at most two words for each entry, and those that its blocks take.
pub fn code_is_short()
    ensures { CodeIsShort }
{}
