//! What is true of all lines. The functions do nothing: their contracts are the laws.
ghost use Rattle.mt_strace.specs.Laws.{StringsAreRead, DescriptorsAreRead, CallsAreRead};

/// What is read of a string is what it was written of.
pub fn strings_are_read()
    ensures { StringsAreRead }
{}

/// What is read of a descriptor is what it was written of.
pub fn descriptors_are_read()
    ensures { DescriptorsAreRead }
{}

/// What is read of a call is what its line was written of.
pub fn calls_are_read()
    ensures { CallsAreRead }
{}
