//! What is true of the text of every accepted mission.

ghost use Rattle.log_text.specs.Laws.{NamesAreRight, RecordsAreRead};

use formula_text::laws::printing_law;

/// After any of its records, the text by which a mission names a signal, a variable that has a name or a beacon is declared by those
/// records, and stands for it.
pub fn names_are_right()
    ensures { NamesAreRight }
{}

/// The text of a mission is a text of as many records, each of which has the fields of its record: a formula's text without its quotes.
pub fn records_are_read()
    ensures { RecordsAreRead }
{
    printing_law();
}
