//! What is true of every relation, printed and read again.

ghost use Rattle.std.specs.Prelude.{◌≡◌};
ghost use Rattle.expr_text.specs.Grammar.{RelationPhrase, phrase_relation, relation_tokens};
ghost use Rattle.expr_text.specs.Spellable.{PrintedIsReadAgain};

/// The canonical text of a relation within the limits, whose numbers and names have a spelling, is
/// that relation, within the limits as a text too. So what `print` gives `parse` reads as the same.
pub fn printed_is_read_again()
    ensures { PrintedIsReadAgain }
{}

/// Tokens derive one relation at most: the grammar is unambiguous.
pub fn tokens_mean_one_relation()
    ensures { (p q : RelationPhrase) → relation_tokens p ≡ relation_tokens q → phrase_relation p ≡ phrase_relation q }
{}
