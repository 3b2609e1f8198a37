//! What is true of every bundle's text. Each function does nothing, and its contract is the law.

ghost use Rattle.bundle_text.specs.Bundles.{IsBundle};
ghost use Rattle.bundle_text.specs.Laws.{BundlesAreOne, QueriesAreReported, SetsAreReported, SmallText, ToldText, small_bundle, told_bundle};

/// Two bundles with one text are one bundle.
pub fn bundles_are_one()
    ensures { BundlesAreOne }
{}

/// What a bundle has of a set is what the report of loops has of it, and then its cells and corners; and without these a query is written as
/// the report has it.
pub fn queries_are_reported()
    ensures sets { SetsAreReported }
    ensures queries { QueriesAreReported }
{}

/// Two small bundles and their texts.
pub fn bundle_examples()
    ensures bundles { IsBundle small_bundle × IsBundle told_bundle }
    ensures small { SmallText }
    ensures told { ToldText }
{}
