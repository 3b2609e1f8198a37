//! What is written of sections is a part of a bundle. The function does nothing, and its contract is the law.

ghost use Rattle.section_tracer.specs.Bundled.{SectionsAreBundled};

use report_law::sections_are_read;

/// Each section, as it is traced and written, is one that a bundle may have, and what is written of it is the bundle's text of it.
pub fn sections_are_bundled()
    ensures { SectionsAreBundled }
{
    sections_are_read();
}
