//! What is true of every text that is read, and of every formula that is printed.

ghost use Rattle.std.specs.Prelude.{◌≡◌, ◌↔◌, ℕ, ◌<◌, ◌^◌, List, length, All};
ghost use Rattle.expr_tree.specs.Measures.{relation_names};
ghost use Rattle.expr_tree.specs.Trees.{Relation};
ghost use Rattle.expr_text.specs.Canonical.{relation_text};
ghost use Rattle.expr_text.specs.Spellable.{IsPrintable, IsReference};
ghost use Rattle.formula_text.specs.Laws.{IsFaulty, IsFieldText, IsTooLarge, Means};
ghost use Rattle.formula_text.specs.Readings.{Deep, Text, reading_of};

/// The reading of a text is what the grammar says of it.
///
/// It is a relation exactly where some phrase that the text spells, within the limits, has that relation; too large exactly where
/// there is such a phrase that passes a limit; and no relation exactly where the text has a first fault.
pub fn reading_law()
    ensures read { (text : List ℕ) (r : Relation) → (reading_of text ≡ Ok r) ↔ Means text r }
    ensures deep { (text : List ℕ) → (reading_of text ≡ Err Deep) ↔ IsTooLarge text }
    ensures faulty { (text : List ℕ) → (reading_of text ≡ Err Text) ↔ IsFaulty text }
{}

/// What is read can be printed, and what is printed is read again as the same.
///
/// The relation that a text says is within the limits, and has numbers of at most eighteen digits, none negative, and references for
/// names. The canonical text of such a relation says that relation, `read_formula` may be asked for it, and a field of a log can hold it.
pub fn printing_law()
    ensures printable { (text : List ℕ) (r : Relation) → reading_of text ≡ Ok r → IsPrintable r }
    ensures names { (r : Relation) → IsPrintable r → All IsReference (relation_names r) }
    ensures again { (r : Relation) → IsPrintable r → reading_of (relation_text r) ≡ Ok r }
    ensures short { (r : Relation) → IsPrintable r → length (relation_text r) < 2 ^ 32 }
    ensures field { (r : Relation) → IsPrintable r → IsFieldText (relation_text r) }
{}
