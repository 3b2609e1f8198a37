//! What holds of additions and firings in every order.

ghost use Rattle.std.specs.Prelude.{◌≡◌, ◌<◌, ◌++◌, [], ◌∷◌, ℕ, List, Some, true, length, IfSome, slice_get};
ghost use Rattle.tube_spec.specs.Span.{Span, IsProper};
ghost use Rattle.tube_spec.specs.Projection.{Projection};
ghost use Rattle.tube_spec.specs.Shape.{IsShape};
ghost use Rattle.tube_spec.specs.Owner.{SignalIn, VariableIn};
ghost use Rattle.tube_store.specs.State.{State, IsStore, state_with};
ghost use Rattle.ctc_core.specs.declared.Revised.{Revised};
ghost use Rattle.ctc_core.specs.Answers.{Revises};
ghost use Rattle.ctc_network.specs.Nets.{NetState, of_place};
ghost use Rattle.ctc_network.specs.Schedule.{Event, Network, AddSignal, AddVar, AddContractor, Fire, IsFiring, IsNetworkOf, IsStep, no_network, after_all, IsSchedule, KeepsDeclared, IsGreatestAtRest};
ghost use Rattle.ctc_network.specs.Sections.{SectionKeeps, SectionGreatest};
ghost use Rattle.ctc_network.specs.Settling.{Fires};

use ctc_core::Contractor;

/// What holds of every order of additions and firings, from no cell on.
///
/// A firing takes the box to any box that the laws of a contractor allow, as each call of `Net::fire` does. Every common fixpoint of the contractors that were added,
/// below the declared ranges of all cells, lies below the last box; and where no contractor narrows the last box, it is the greatest
/// one, whatever the order was. This is the chaotic iteration of Apt, The Essence of Constraint Propagation (1999), with additions
/// between; that the greatest fixpoint exists is the theorem of Knaster and Tarski.
pub fn schedule_law<C: Contractor>()
    ensures firing { (ps : List Projection) (old new : State) (answer : Revised) → Revises ps old new answer → IsFiring ps old.box new.box }
    ensures keeps { (grid : List ℕ) (es : List (Event C)) → IsShape (no_network {C = C} grid).shape
        → IsSchedule C.projections C.fits (no_network grid) es → KeepsDeclared C.projections (after_all (no_network grid) es) }
    ensures greatest { (grid : List ℕ) (es : List (Event C)) → IsShape (no_network {C = C} grid).shape
        → IsSchedule C.projections C.fits (no_network grid) es → IsGreatestAtRest C.projections (after_all (no_network grid) es) }
{}

/// Each call of a net that changes it is an event of a schedule: from what its clauses say follows that the event is allowed, and that the
/// net after it has the cells, the box and the contractors of the network after the event.
pub fn event_law<C: Contractor>()
    ensures add_signal { (n : Network C) (old new : NetState C) (range : Span) → IsNetworkOf n old → IsProper range → IsStore new.store
        → new ≡ record old { store = state_with old.store (SignalIn range) } → IsStep C.projections C.fits n (AddSignal range) new }
    ensures add_var { (n : Network C) (old new : NetState C) (range : Span) → IsNetworkOf n old → IsProper range → IsStore new.store
        → new ≡ record old { store = state_with old.store (VariableIn range) } → IsStep C.projections C.fits n (AddVar range) new }
    ensures add { (n : Network C) (old new : NetState C) (c : C) → IsNetworkOf n old → C.fits c old.store.shape old.store.box
        → new ≡ record old { contractors = old.contractors ++ Some c ∷ []; waiting = old.waiting ++ true ∷ [] } → IsStep C.projections C.fits n (AddContractor c) new }
    ensures fire { (n : Network C) (old new : NetState C) (k : ℕ) (answer : Revised) → IsNetworkOf n old → k < length old.contractors
        → IfSome (slice_get old.contractors k) (λ c. Fires (of_place C.projections c old.store.shape) old.store new.store answer)
        → new.contractors ≡ old.contractors → IsStep C.projections C.fits n (Fire k new.store.box) new }
{}

/// Going on after additions equals a fresh run: the greatest common fixpoint of all contractors, below that of the first ones with the
/// new cells at their declared ranges, is the greatest one below the declared ranges of all cells. The same for boxes that are not
/// greatest but lost no common fixpoint.
pub fn section_law<C: Contractor>()
    ensures keeps { SectionKeeps C.projections C.fits }
    ensures greatest { SectionGreatest C.projections C.fits }
{}
