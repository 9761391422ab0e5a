//! What the tests of headers come to, and what a flat image is.
ghost use Rattle.image_elf.specs.Laws.{FirstFaultLaw, FlatImageLaw, TakenLaw};

/// A range is taken exactly where a loaded range of an earlier header has one of its addresses, and the fault of
/// the headers is that of the first faulty one.
pub fn fault_laws()
    ensures taken { TakenLaw }
    ensures first { FirstFaultLaw }
{}

/// The flat image of a file without a fault has its bytes case by case, and fits the memory.
pub fn image_law()
    ensures { FlatImageLaw }
{}
