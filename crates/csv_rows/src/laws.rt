//! What is true of every text of plain lines.

ghost use Rattle.csv_rows.specs.Laws.{LinesAreRead};

/// Lines of bare fields, each line ended by byte 10, are read as the records that they were made of.
/// A bare field holds no comma, double quote or line end, and the first field of a line begins with an
/// ASCII byte.
pub fn lines_are_read()
    ensures { LinesAreRead }
{}
