//! What is true of every two missions and every form.

ghost use Rattle.pair_causes.specs.Facts.{LinksAreKnown};
ghost use Rattle.pair_causes.specs.Laws.{RefusalsAreOne};

/// One cause at most is told of two missions and a form, at one place, and none where no cause holds. So what `judge` answers is the only
/// answer that it may give, but for want of memory.
pub fn refusals_are_one()
    ensures { RefusalsAreOne }
{}

/// What a link says is so: its tick, its radii, the names of the signals, and the ticks on the second clock.
pub fn links_are_known()
    ensures { LinksAreKnown }
{}
