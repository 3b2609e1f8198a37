//! Worked command lines.

ghost use Rattle.std.specs.Prelude.{[], ◌∷◌, codes, true};
ghost use Rattle.cli_words.specs.Rows.{AsksFor, IsRefused, plain};
ghost use Rattle.cli_words.specs.declared.answer.Mode.TheVariants as mode;
ghost use Rattle.cli_words.specs.declared.answer.OrderWord.TheVariants as order;

/// What these words ask for.
pub fn asked_rows()
    ensures solve { AsksFor (codes "solve" ∷ []) (plain mode.Solve) }
    ensures loops { AsksFor (codes "loops" ∷ codes "--order=lifo" ∷ codes "--brief" ∷ [])
        (record (plain mode.Loops) { order = order.Lifo; brief = true }) }
    ensures demo { AsksFor (codes "--seed" ∷ codes "7" ∷ codes "demo" ∷ []) (record (plain mode.Demo) { seed = 7 }) }

    ensures area { AsksFor (codes "area" ∷ codes "--step" ∷ codes "25" ∷ []) (record (plain mode.Area) { step = 25 }) }

    // A value may follow `=`, and may have a plus sign, and a lone `--` may stand before the mode.
    ensures equals { AsksFor (codes "solve" ∷ codes "--budget=5" ∷ []) (record (plain mode.Solve) { budget = 5 }) }
    ensures plus { AsksFor (codes "solve" ∷ codes "--budget" ∷ codes "+5" ∷ []) (record (plain mode.Solve) { budget = 5 }) }
    ensures dashes { AsksFor (codes "--order" ∷ codes "rank" ∷ codes "--" ∷ codes "solve" ∷ [])
        (record (plain mode.Solve) { order = order.Rank }) }

    // The greatest values.
    ensures budget { AsksFor (codes "solve" ∷ codes "--budget" ∷ codes "1000000000000000000" ∷ []) (plain mode.Solve) }
    ensures seed { AsksFor (codes "demo" ∷ codes "--seed" ∷ codes "18446744073709551615" ∷ [])
        (record (plain mode.Demo) { seed = 18446744073709551615 }) }
{}

/// Words that the command refuses.
pub fn refused_rows()
    ensures none { IsRefused [] }
    ensures mode { IsRefused (codes "fast" ∷ []) }
    ensures second { IsRefused (codes "solve" ∷ codes "fast" ∷ []) }
    ensures order { IsRefused (codes "solve" ∷ codes "--order" ∷ codes "FIFO" ∷ []) }
    ensures budget { IsRefused (codes "solve" ∷ codes "--budget" ∷ codes "1000000000000000001" ∷ []) }
    ensures seed { IsRefused (codes "demo" ∷ codes "--seed" ∷ codes "18446744073709551616" ∷ []) }
    ensures no_step { IsRefused (codes "area" ∷ codes "--step" ∷ codes "0" ∷ []) }
    ensures wide_step { IsRefused (codes "area" ∷ codes "--step" ∷ codes "1000000001" ∷ []) }
    ensures help { IsRefused (codes "--help" ∷ []) }

    // An option again, one cut short, one with no value, and a value that begins with `-`.
    ensures again { IsRefused (codes "solve" ∷ codes "--budget" ∷ codes "1" ∷ codes "--budget" ∷ codes "2" ∷ []) }
    ensures short { IsRefused (codes "solve" ∷ codes "--bud" ∷ codes "1" ∷ []) }
    ensures alone { IsRefused (codes "solve" ∷ codes "--budget" ∷ []) }
    ensures minus { IsRefused (codes "solve" ∷ codes "--budget" ∷ codes "-5" ∷ []) }
    ensures flag { IsRefused (codes "solve" ∷ codes "--brief=true" ∷ []) }
{}
