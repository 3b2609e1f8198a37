//! The laws of a firing.

ghost use Rattle.std.specs.Prelude.{◌≡◌, ◌++◌, ℕ, List, Some, IsNone, IsSome, IsSomeAnd, IfSome, All, Any};
ghost use Rattle.tube_spec.specs.Span.{Span};
ghost use Rattle.tube_spec.specs.Box.{cell_at, IsBelowBox};
ghost use Rattle.tube_spec.specs.Projection.{Projection};
ghost use Rattle.tube_spec.specs.Fixpoint.{IsFixpoint};
ghost use Rattle.tube_store.specs.State.{State};
ghost use Rattle.ctc_core.specs.declared.Revised.{Revised};
ghost use Rattle.ctc_core.specs.declared.Revised.TheVariants.{Same, Narrowed, Empty};
ghost use Rattle.ctc_core.specs.Revising.{IfBoth, IsNarrower};
ghost use Rattle.ctc_core.specs.Answers.{Revises, IsMonotoneBelow, SharesNothing, then_of};

/// What the laws of a firing imply, for every list of projections and every two states of a store.
///
/// On an empty store a firing answers `Empty` and changes nothing. `Same` comes only where the box is a fixpoint, and changes nothing;
/// `Narrowed` only where some cell is narrower; `Empty` only where no fixpoint lay below the old box. Where a formula gives nothing in
/// the old box, or shares no number with its target there, the answer is `Empty`. Firings one after another are a firing of all.
pub fn firing_law()
    ensures on_empty { (ps : List Projection) (old new : State) (answer : Revised)
        → Revises ps old new answer → IsNone old.box → (answer ≡ Empty) × (new ≡ old) }
    ensures same { (ps : List Projection) (old new : State) (answer : Revised)
        → Revises ps old new answer → answer ≡ Same → IsSomeAnd old.box (IsFixpoint ps) × (new ≡ old) }
    ensures narrowed { (ps : List Projection) (old new : State) (answer : Revised)
        → Revises ps old new answer → answer ≡ Narrowed → IsSome new.box × IfBoth old.box new.box (λ xs ys. (k : ℕ) × IsNarrower xs ys k) }
    ensures empty { (ps : List Projection) (old new : State) (answer : Revised)
        → Revises ps old new answer → answer ≡ Empty → IsNone new.box × ((q : List Span) → IsFixpoint ps q → IsBelowBox (Some q) old.box → ⊥) }
    ensures nothing { (ps : List Projection) (old new : State) (answer : Revised)
        → Revises ps old new answer → IfSome old.box (λ xs. Any (λ p. SharesNothing (cell_at xs p.target) (p.formula xs)) ps) → answer ≡ Empty }
    ensures then { (ps qs : List Projection) (a b c : State) (x y : Revised)
        → Revises ps a b x → Revises qs b c y → All (IsMonotoneBelow a.box) qs → Revises (ps ++ qs) a c (then_of x y) }
{}
