//! What is true of every section's text. Each function does nothing, and its contract is the law.

ghost use Rattle.report_reader.specs.Laws.{FirstIsOne, TextsAreOne, WrittenIsRead};

/// What is written of a section without brief is read back as that section.
pub fn written_is_read()
    ensures { WrittenIsRead }
{}

/// Two sections with one text are one section.
pub fn texts_are_one()
    ensures { TextsAreOne }
{}

/// A text has one first line at most that breaks it.
pub fn first_is_one()
    ensures { FirstIsOne }
{}
