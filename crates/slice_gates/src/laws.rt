//! Where a tick stands among the cells of a signal, and which slices share a tick with a range.

ghost use Rattle.std.specs.Prelude.{◌≡◌, ℕ, ◌+◌, ◌*◌, ◌<◌, ◌≤◌, ◌⊎◌, ◌↔◌, List, Some, None, Contains, length};
ghost use Rattle.tube_spec.specs.Span.{Span};
ghost use Rattle.tube_spec.specs.Grid.{IsGrid, last_tick};
ghost use Rattle.tube_spec.specs.Tick.{tick_place};
ghost use Rattle.slice_gates.specs.Near.{SharesTick, near_of, gates_of, places_of, IsOneOf};
ghost use Rattle.slice_gates.specs.Ticks.{IsSliceOf, IsGateOf};

/// The slices near a declared range are exactly those that share a tick with it. Their gates, and the places of their cells among those of a signal,
/// are exactly those of these slices: slice `i` has the gates `i` and `i + 1`, and the places from `2 i` to `2 i + 2`.
pub fn near_law()
    ensures slices { (grid : List ℕ) → IsGrid grid → (declared : Span) (slice : ℕ) → IsOneOf (near_of grid declared) slice ↔ ((slice + 1 < length grid) × SharesTick grid declared slice) }
    ensures gates { (grid : List ℕ) → IsGrid grid → (declared : Span) (gate : ℕ) → Contains (gates_of (near_of grid declared)) gate ↔ ((slice : ℕ) × IsOneOf (near_of grid declared) slice × ((gate ≡ slice) ⊎ (gate ≡ slice + 1))) }
    ensures places { (grid : List ℕ) → IsGrid grid → (declared : Span) (place : ℕ) → Contains (places_of (near_of grid declared)) place ↔ ((slice : ℕ) × IsOneOf (near_of grid declared) slice × (2 * slice ≤ place) × (place ≤ 2 * (slice + 1))) }
{}

/// What a signal has at a tick stands at the gate where the tick is a boundary, and otherwise at the envelope of the tick's slice: gate `i` has the place
/// `2 i` among the cells of the signal, and the envelope of slice `i` the place `2 i + 1`.
pub fn place_law()
    ensures gate { (grid : List ℕ) (tick i : ℕ) → IsGrid grid → IsGateOf grid tick (Some i) → tick_place grid tick ≡ 2 * i }
    ensures envelope { (grid : List ℕ) (tick i : ℕ) → IsGrid grid → tick ≤ last_tick grid → IsGateOf grid tick None → IsSliceOf grid tick i → tick_place grid tick ≡ 2 * i + 1 }
{}
