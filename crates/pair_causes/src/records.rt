//! The records of two logs that stop a join.

ghost use Rattle.std.specs.Prelude.{◌≡◌, ◌<◌, ◌^◌, ◌+◌, ◌||◌, [], IfSome, length, nat_lt, option_map};
ghost use Rattle.std.specs.List.{list_any, position};
ghost use Rattle.mission_items.specs.Names.{names_of};
ghost use Rattle.pair_causes.specs.Sentences.{first_number, has_long_name, is_of_all, is_settle};

use mission_items::{Item, Mission};

// The longest name that a prefix of two bytes leaves a name.
const LONGEST_NAME: usize = 30;

// The number from 1 on of what stands at a place.
fn number_at(place: Option<usize>) -> Option<u32>
    requires { IfSome place (λ n. n + 1 < 2 ^ 32) }
    ensures { result ≡ option_map (λ n. n + 1) place }
{
    match place {
        Some(n) => Some(n as u32 + 1),
        None => None,
    }
}

// Where the first record stands that ends a section.
fn place_of_settle(items: &[Item]) -> Option<usize>
    ensures value { result ≡ position is_settle items.now }
    ensures within { IfSome result (λ n. n < length items.now) }
{
    items.iter().position(|item| matches!(item, Item::Settle))
}

/// The number of the first record that ends a section.
pub(crate) fn first_settle(items: &[Item]) -> Option<u32>
    requires { length items.now < 2 ^ 32 }
    ensures { result ≡ first_number is_settle items.now }
{
    number_at(place_of_settle(items))
}

// Whether a record speaks of all beacons before it.
fn is_of_all(item: &Item) -> bool
    ensures { result ≡ is_of_all item.now }
{
    matches!(
        item,
        Item::Constell { .. } | Item::Ping { beacon: None, .. }
    )
}

// Where the first record stands that speaks of all beacons before it.
fn place_of_all(items: &[Item]) -> Option<usize>
    ensures value { result ≡ position is_of_all items.now }
    ensures within { IfSome result (λ n. n < length items.now) }
{
    items.iter().position(is_of_all)
}

/// The number of the first record that speaks of all beacons before it.
pub(crate) fn first_of_all(items: &[Item]) -> Option<u32>
    requires { length items.now < 2 ^ 32 }
    ensures { result ≡ first_number is_of_all items.now }
{
    number_at(place_of_all(items))
}

// Whether a record declares a name that is too long.
fn declares_long_name(item: &Item) -> bool
    ensures { result ≡ list_any (λ d. nat_lt 30 (length d.0)) (names_of [] item.now) }
{
    match item {
        Item::Signal { name, .. } | Item::Variable { name, .. } | Item::Beacon { name, .. } => {
            name.bytes().len() > LONGEST_NAME
        }
        _ => false,
    }
}

// Whether one of these records declares a name that is too long.
fn declare_long_name(items: &[Item]) -> bool
    ensures { result ≡ list_any (λ i. list_any (λ d. nat_lt 30 (length d.0)) (names_of [] i)) items.now }
{
    items.iter().any(declares_long_name)
}

// Whether a log declares a name that is too long.
#[tactic(auto, using(crate::proofs::Names::long_names))]
fn has_long_name(mission: &Mission) -> bool
    ensures { result ≡ has_long_name mission.now }
{
    declare_long_name(mission.items.as_slice())
}

/// Whether one of two logs declares a name that is too long.
pub(crate) fn have_long_name(first: &Mission, second: &Mission) -> bool
    ensures { result ≡ (has_long_name first.now || has_long_name second.now) }
{
    has_long_name(first) || has_long_name(second)
}
