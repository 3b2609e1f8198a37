//! What a run writes is read back. The function does nothing, and its contract is the law.

ghost use Rattle.report_law.specs.Reading.{SectionsAreRead};

use report_reader::laws::written_is_read;

/// Each section of an accepted mission, as a run settles them one after the other and writes them without brief, has the text of the
/// section that it describes. So the reader of sections reads it as that section, or memory runs out.
pub fn sections_are_read()
    ensures { SectionsAreRead }
{
    written_is_read();
}
