//! What is true of all lines. The functions do nothing: their contracts are the laws.
ghost use Rattle.mt_import.specs.RowReading.{RowsAreTold};

/// A line that is read as a row is read as a line of a mountinfo too, which tells the same.
pub fn rows_are_told()
    ensures { RowsAreTold }
{}
