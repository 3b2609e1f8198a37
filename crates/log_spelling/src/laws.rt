//! What is true of what is printed and read again.

ghost use Rattle.log_spelling.specs.Laws.{KindsAreRead, NamesAreTrimmed, NumbersAreRead, ReferencesAreRead, ReferencesAreWhole};

/// A number of at most eighteen digits, printed in decimal with `-` where it is negative, is read as
/// itself and has no blank at its ends.
pub fn numbers_are_read()
    ensures { NumbersAreRead }
{}

/// A name has no blank at its ends.
pub fn names_are_trimmed()
    ensures { NamesAreTrimmed }
{}

/// A name with nothing, `.x` or `.y` after it is read as that name and that part, and has no blank at its
/// ends.
pub fn references_are_read()
    ensures { ReferencesAreRead }
{}

/// A text is that of its bare name with its part.
pub fn references_are_whole()
    ensures { ReferencesAreWhole }
{}

/// The word for a kind is read as that kind.
pub fn kinds_are_read()
    ensures { KindsAreRead }
{}
