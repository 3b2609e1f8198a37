//! What is true of every source. Each function does nothing, and its contract is the law.

ghost use Rattle.pair_form.specs.Laws.{FormsAreOne};

/// A source says one thing at most.
pub fn forms_are_one()
    ensures { FormsAreOne }
{}
