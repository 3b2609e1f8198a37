//! What is true of the fields of every record.

ghost use Rattle.log_fields.specs.Laws.{LowestCausesAreTold};

/// Of the causes that a record has by itself the lowest is told, kind by kind: a version that is none, a
/// number of fields that is not that of the kind, a field that has to be a name or a reference and is not
/// spelled as one, a field that has to be a number and is not spelled as one, and a number outside its
/// limits. Where no such sentence holds, none is told.
pub fn lowest_causes_are_told()
    ensures { LowestCausesAreTold }
{}
