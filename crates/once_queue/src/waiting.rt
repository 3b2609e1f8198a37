//! The numbers that wait, in a ring or in a heap.

ghost use Rattle.std.specs.Prelude.{◌≡◌, ◌+◌, ◌<◌, ◌≤◌, ◌++◌, [], ◌∷◌, ℕ, true, false, Some, All, IsFalse, MatchOption, IfSome, OnOk, OnErr, length, count_by, slice_get, slice_set};
ghost use Rattle.std.specs.BinaryHeap.{IsHeap, heap_capacity, heap_items};
ghost use Rattle.std.specs.VecDeque.{deque_capacity};
ghost use Rattle.once_queue.specs.Entries.{SameEntries, least_first};

use crate::marks::Marks;
use std::alloc::{AllocError, Global};
use std::cmp::Reverse;
use std::collections::{BinaryHeap, VecDeque};
use std::marker::Model;

/// The numbers 0, 1, 2 and so on, each with a mark that says whether it waits.
///
/// A number that waits has an entry, in the ring or in the heap. One that is put to rest keeps its entry, which the next take passes
/// over; woken before that, it waits in its old place. Memory is taken with a number alone, room for one entry in the ring and one in
/// the heap.
///
/// Who is woken goes to the ring's end. The ring is poured into the heap where the least is asked for, and the heap back to the ring's
/// end where the first or the last is. So within one order a call takes constant time on average, and for the least the logarithm of how
/// many wait. A change of order moves all entries, and leaves open in which order those come that waited before it.
#[derive(Drop)]
pub struct Waiting {
    waits: Marks,
    // Whether a number has an entry.
    entered: Vec<bool>,
    ring: VecDeque<u32>,
    heap: BinaryHeap<Reverse<u32>>,
}

impl Model for Waiting {
    ghost use Rattle.std.specs.Prelude.{List, Bool};
    ghost use Rattle.std.specs.BinaryHeap.{heap_capacity, heap_items};
    ghost use Rattle.std.specs.VecDeque.{deque_capacity};
    ghost use Rattle.once_queue.specs.Entries.{IsKept};

    ghost Value = { List Bool };

    ghost view = { λ q. q.waits };

    ghost invariant = { λ q. IsKept q.waits q.entered.items q.ring.items (heap_items q.heap) (deque_capacity q.ring) (heap_capacity q.heap) };
}

impl Waiting {
    /// No number.
    pub fn new(alloc: Global) -> Waiting
        ensures { result ≡ [] }
    {
        Waiting {
            waits: Marks::new(alloc),
            entered: Vec::new(alloc),
            ring: VecDeque::new(alloc),
            heap: BinaryHeap::new(alloc),
        }
    }

    /// How many numbers there are.
    pub fn len(&self) -> u32
        ensures { result ≡ length self.now }
    {
        self.waits.len()
    }

    /// How many numbers wait.
    pub fn count(&self) -> u32
        ensures { result ≡ count_by (λ waits. waits) self.now }
    {
        self.waits.count()
    }

    /// Whether a number waits.
    pub fn waits(&self, number: u32) -> bool
        requires { number < length self.now }
        ensures { slice_get self.now number ≡ Some result }
    {
        self.waits.is_set(number)
    }

    /// One number more, which waits.
    pub fn push_number(&mut self) -> Result<(), AllocError>
        requires { length self.old < u32.MAX }
        ensures ok { OnOk result (self.new ≡ self.old ++ true ∷ []) }
        ensures err { OnErr result (self.new ≡ self.old) }
    {
        let number = self.waits.len();
        let numbers = self.entered.len() + 1;
        self.entered.reserve(1)?;
        self.ring.reserve(numbers - self.ring.len())?;
        self.heap.reserve(numbers - self.heap.len())?;
        self.waits.push()?;
        self.entered.push_reserved(true);
        self.ring.push_back_reserved(number);
        Ok(())
    }

    /// From now on a number waits. It takes no memory.
    pub fn wake(&mut self, number: u32)
        requires { number < length self.old }
        ensures { self.new ≡ slice_set self.old number true }
    {
        self.waits.set(number);
        if !self.entered[number as usize] {
            self.entered[number as usize] = true;
            self.ring.push_back_reserved(number);
        }
    }

    /// From now on a number does not wait.
    pub fn rest(&mut self, number: u32)
        requires { number < length self.old }
        ensures { self.new ≡ slice_set self.old number false }
    {
        let _waited = self.waits.clear(number);
    }

    /// Takes the number that has waited longest, so that it rests, or says that none waits.
    pub fn take_first(&mut self) -> Option<u32>
        ensures { MatchOption result (All IsFalse self.old × (self.new ≡ self.old)) (λ number. (slice_get self.old number ≡ Some true) × (self.new ≡ slice_set self.old number false)) }
    {
        line_up(&mut self.heap, &mut self.ring);
        while let Some(number) = self.ring.pop_front() {
            self.entered[number as usize] = false;
            if self.waits.clear(number) {
                return Some(number);
            }
        }
        None
    }

    /// Takes the number that began to wait last, so that it rests, or says that none waits.
    pub fn take_last(&mut self) -> Option<u32>
        ensures { MatchOption result (All IsFalse self.old × (self.new ≡ self.old)) (λ number. (slice_get self.old number ≡ Some true) × (self.new ≡ slice_set self.old number false)) }
    {
        line_up(&mut self.heap, &mut self.ring);
        while let Some(number) = self.ring.pop_back() {
            self.entered[number as usize] = false;
            if self.waits.clear(number) {
                return Some(number);
            }
        }
        None
    }

    /// Takes the least number that waits, so that it rests, or says that none waits.
    pub fn take_least(&mut self) -> Option<u32>
        ensures taken { MatchOption result (All IsFalse self.old × (self.new ≡ self.old)) (λ number. (slice_get self.old number ≡ Some true) × (self.new ≡ slice_set self.old number false)) }
        ensures least { IfSome result (λ number. (lesser : ℕ) → lesser < number → slice_get self.old lesser ≡ Some false) }
    {
        heap_up(&mut self.ring, &mut self.heap);
        while let Some(Reverse(number)) = self.heap.pop() {
            self.entered[number as usize] = false;
            if self.waits.clear(number) {
                return Some(number);
            }
        }
        None
    }
}

/// Pours the ring into the heap, which has room for it.
fn heap_up(ring: &mut VecDeque<u32>, heap: &mut BinaryHeap<Reverse<u32>>)
    requires room { length ring.old.items + length (heap_items heap.old) ≤ heap_capacity heap.old }
    requires ordered { IsHeap least_first (heap_items heap.old) }
    ensures ring { ring.new.items ≡ [] }
    ensures same { SameEntries ring.old.items (heap_items heap.old) ring.new.items (heap_items heap.new) }
    ensures ordered { IsHeap least_first (heap_items heap.new) }
    ensures ring_room { deque_capacity ring.new ≡ deque_capacity ring.old }
    ensures heap_room { heap_capacity heap.old ≤ heap_capacity heap.new }
{
    while let Some(number) = ring.pop_front() {
        let _room_is_there = heap.push(Reverse(number));
    }
}

/// Pours the heap into the ring, which has room for it, the least number first.
fn line_up(heap: &mut BinaryHeap<Reverse<u32>>, ring: &mut VecDeque<u32>)
    requires room { length ring.old.items + length (heap_items heap.old) ≤ deque_capacity ring.old }
    requires ordered { IsHeap least_first (heap_items heap.old) }
    ensures heap { heap_items heap.new ≡ [] }
    ensures same { SameEntries ring.old.items (heap_items heap.old) ring.new.items (heap_items heap.new) }
    ensures ordered { IsHeap least_first (heap_items heap.new) }
    ensures ring_room { deque_capacity ring.new ≡ deque_capacity ring.old }
    ensures heap_room { heap_capacity heap.new ≡ heap_capacity heap.old }
{
    while let Some(Reverse(number)) = heap.pop() {
        ring.push_back_reserved(number);
    }
}

#[cfg(test)]
mod tests {
    use super::*;
    use std::process::Abort;
    use std::test::Fail;

    /// The numbers below five, which all wait.
    fn five(rt: &impl Abort, alloc: Global) -> Result<Waiting, Fail> {
        let mut waiting = Waiting::new(alloc);
        for _ in 0..5u32 {
            assert!(rt; waiting.len() < 5);
            waiting.push_number()?;
        }
        assert_eq!(rt; waiting.len(), 5);
        Ok(waiting)
    }

    fn wake(rt: &impl Abort, waiting: &mut Waiting, number: u32) {
        assert!(rt; number < waiting.len());
        waiting.wake(number);
        assert!(rt; number < waiting.len());
        assert!(rt; waiting.waits(number));
    }

    fn rest(rt: &impl Abort, waiting: &mut Waiting, number: u32) {
        assert!(rt; number < waiting.len());
        waiting.rest(number);
        assert!(rt; number < waiting.len());
        assert!(rt; !waiting.waits(number));
    }

    #[test]
    fn the_first_is_who_waits_longest(rt: HostRuntime) -> Result<(), Fail> {
        let mut waiting = five(&rt, rt.alloc())?;
        assert_eq!(rt; waiting.take_first(), Some(0));
        wake(&rt, &mut waiting, 0);
        wake(&rt, &mut waiting, 3);
        rest(&rt, &mut waiting, 2);
        assert_eq!(rt; waiting.count(), 4);
        for number in [1, 3, 4, 0] {
            assert_eq!(rt; waiting.take_first(), Some(number));
        }
        assert_eq!(rt; waiting.take_first(), None);
        assert_eq!(rt; waiting.count(), 0);
        Ok(())
    }

    #[test]
    fn the_last_is_who_was_woken_last(rt: HostRuntime) -> Result<(), Fail> {
        let mut waiting = five(&rt, rt.alloc())?;
        assert_eq!(rt; waiting.take_last(), Some(4));
        assert_eq!(rt; waiting.take_last(), Some(3));
        wake(&rt, &mut waiting, 4);
        rest(&rt, &mut waiting, 1);
        for number in [4, 2, 0] {
            assert_eq!(rt; waiting.take_last(), Some(number));
        }
        assert_eq!(rt; waiting.take_last(), None);
        Ok(())
    }

    #[test]
    fn orders_may_change_between_takes(rt: HostRuntime) -> Result<(), Fail> {
        let mut waiting = five(&rt, rt.alloc())?;
        assert_eq!(rt; waiting.take_last(), Some(4));
        assert_eq!(rt; waiting.take_first(), Some(0));
        wake(&rt, &mut waiting, 4);
        wake(&rt, &mut waiting, 0);
        assert_eq!(rt; waiting.take_least(), Some(0));
        assert_eq!(rt; waiting.take_least(), Some(1));
        wake(&rt, &mut waiting, 1);
        assert_eq!(rt; waiting.take_first(), Some(1));
        assert_eq!(rt; waiting.take_first(), Some(2));
        wake(&rt, &mut waiting, 0);
        assert_eq!(rt; waiting.take_last(), Some(0));
        rest(&rt, &mut waiting, 3);
        assert_eq!(rt; waiting.take_least(), Some(4));
        assert_eq!(rt; waiting.take_least(), None);
        assert_eq!(rt; waiting.take_last(), None);
        Ok(())
    }
}
