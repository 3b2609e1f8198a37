//! A mission that is being read.

ghost use Rattle.std.specs.Prelude.{◌≡◌, ◌≤◌, ◌<◌, ◌+◌, ◌||◌, ◌&&◌, not, true, false, None, Some, Ok, List, [], ◌∷◌, ◌++◌, ℕ, is_some, length, slice_index_or, if◌then◌else◌, IfOk, IfSome, OnOk};
ghost use Rattle.std.specs.List.{list_all};
ghost use Rattle.tube_spec.specs.Limits.{most_records, most_signals, most_ticks};
ghost use Rattle.slice_gates.specs.Cuts.{uniform_cuts};
ghost use Rattle.log_fields.specs.Fields.{tick_of};
ghost use Rattle.log_fields.specs.Steps.{Gives, unless};
ghost use Rattle.mission_items.specs.Cuts.{with_cut};
ghost use Rattle.mission_items.specs.Made.{beacons_in, has_head, rate_in, signals_in, ticks_from, variable_range, variables_in};
ghost use Rattle.mission_items.specs.Names.{IsNamed, declaration_of, names_of, range_of};
ghost use Rattle.mission_items.specs.Room.{are_few, evaluated, foot_of, slices_in};
ghost use Rattle.mission_items.specs.Valid.{IsClock, IsMission, IsRight, IsSignal, is_revisit, may_precede_cut, revisits_in};
ghost use Rattle.log_draft.specs.Names.{beacon_in, declaration_in, new_name, signal_in, variable_in};
ghost use Rattle.log_draft.specs.Kept.{AreCounts, IsKnown, MayFollow};
ghost use Rattle.log_draft.specs.Growing.{added, nothing_yet, started, with_item};
ghost use Rattle.log_draft.specs.Room.{is_narrow, room_for};

use crate::counts::Counts;
use int_interval::Interval;
use log_clock::Clock;
use log_fields::fields::{ensure, tick_of};
use log_fields::{Cause, Stop};
use log_spelling::Part;
use mission_items::{Decl, Item, Items, Mission, ticks_from};
use name_table::NameTable;
use std::alloc::Global;
use std::marker::Model;
use tube_io::NoMemory;
use tube_limits::{MOST_READS, MOST_RECORDS, MOST_SIGNALS, MOST_VARIABLES};
use tube_store::{MOST_CELLS, SignalId, VarId};

/// A mission that is being read. A contract sees the mission so far.
#[derive(Drop)]
pub struct Draft {
    version: u32,
    ticks: u32,
    width: u32,
    clock: Clock,
    items: Vec<Item>,
    names: NameTable,
    has_head: bool,
    is_open: bool,
    rated: [bool; MOST_SIGNALS],
    counts: Counts,
}

impl Model for Draft {
    ghost use Rattle.std.specs.Coded.{codes};
    ghost use Rattle.formula_text.specs.Stored.{relation_code};
    ghost use Rattle.mission_items.specs.declared.mission.Mission.{Mission};
    ghost use Rattle.log_draft.specs.Kept.{IsKept};

    ghost Value = { Mission };

    ghost coded = { Prim.hlevel (codes, relation_code (Prim.hlevel codes)) };

    ghost view = { λ d. record { version = d.version; ticks = d.ticks; width = d.width; cuts = d.clock; items = d.items.items } };

    ghost invariant = { λ d. IsKept d.names d.has_head d.is_open d.rated d.counts (record { version = d.version; ticks = d.ticks; width = d.width; cuts = d.clock; items = d.items.items }) };
}

impl Draft {
    /// Nothing was read yet.
    pub fn new(alloc: Global) -> Draft
        ensures { result ≡ nothing_yet }
    {
        Draft {
            version: 0,
            ticks: 0,
            width: 0,
            clock: Clock::new(alloc),
            items: Vec::new(alloc),
            names: NameTable::new(alloc),
            has_head: false,
            is_open: true,
            rated: no_rates(),
            counts: Counts::none(),
        }
    }

    // ---- what was read

    /// How many records were taken.
    pub fn len(&self) -> usize
        ensures value { result ≡ length self.now.items }
        ensures few { result ≤ most_records }
    {
        self.items.len()
    }

    /// Whether there is a mission record.
    pub fn has_head(&self) -> bool
        ensures { result ≡ has_head self.now.items }
    {
        self.has_head
    }

    /// Whether a cut may still come.
    pub fn is_open(&self) -> bool
        ensures { result ≡ list_all may_precede_cut self.now.items }
    {
        self.is_open
    }

    /// The version of the log, and 0 before its mission record.
    pub fn version(&self) -> u32
        ensures { result ≡ self.now.version }
    {
        self.version
    }

    /// The last tick of the clock.
    pub fn ticks(&self) -> u32
        ensures { result ≡ self.now.ticks }
    {
        self.ticks
    }

    /// How many slices there are.
    pub fn slices(&self) -> u32
        ensures value { result ≡ slices_in self.now.cuts }
        ensures few { result ≤ most_ticks }
    {
        self.clock.slices()
    }

    /// The number of the next signal.
    pub fn signals(&self) -> u32
        ensures { result ≡ signals_in self.now.items }
    {
        self.counts.signals
    }

    /// The number of the next variable.
    pub fn variables(&self) -> u32
        ensures { result ≡ variables_in self.now.items }
    {
        self.counts.variables
    }

    /// How many beacons there are.
    pub fn beacons(&self) -> u32
        ensures value { result ≡ beacons_in self.now.items }
        ensures few { result ≤ 200000 }
    {
        self.counts.beacons
    }

    /// How many questions for loops there are.
    pub fn revisits(&self) -> u32
        ensures { result ≡ revisits_in self.now.items }
    {
        self.counts.revisits
    }

    /// Whether some record gives a signal a rate.
    pub fn is_rated(&self, x: SignalId) -> bool
        requires { x.0 < signals_in self.now.items }
        ensures { result ≡ is_some (rate_in self.now.items x.0) }
    {
        self.rated[x.0 as usize]
    }

    // ---- names

    /// What a name is declared as.
    pub fn find(&self, name: &[u8]) -> Option<Decl>
        ensures { result ≡ declaration_of name.now self.now.items }
    {
        self.names.find(name)
    }

    /// What a name is declared as, which it has to be.
    pub fn declaration(&self, name: &[u8]) -> Result<Decl, Stop>
        ensures value { Gives (λ d. d) result (declaration_in self.now.items name.now) }
        ensures known { IfOk result (IsKnown self.now.items) }
    {
        match self.find(name) {
            Some(declared) => Ok(declared),
            None => Err(Stop::Because(Cause::Unknown)),
        }
    }

    /// A name that is declared now.
    pub fn ensure_new(&self, name: &[u8]) -> Result<(), Stop>
        ensures value { Gives (λ _. tt) result (new_name self.now.items name.now) }
        ensures fresh { OnOk result (declaration_of name.now self.now.items ≡ None) }
    {
        match self.find(name) {
            None => Ok(()),
            Some(_) => Err(Stop::Because(Cause::Twice)),
        }
    }

    /// The signal that a name stands for.
    pub fn signal(&self, declared: Decl) -> Result<SignalId, Stop>
        requires { IsKnown self.now.items declared }
        ensures value { Gives (λ x. x) result (signal_in declared) }
        ensures known { IfOk result (IsSignal self.now.items) }
    {
        match declared {
            Decl::Signal { id, .. } => Ok(id),
            _ => Err(Stop::Because(Cause::WrongKind)),
        }
    }

    /// The variable that a part of what a name stands for is.
    pub fn variable(&self, declared: Decl, part: Part) -> Result<VarId, Stop>
        requires { IsKnown self.now.items declared }
        ensures value { Gives (λ v. v) result (variable_in declared part) }
        ensures named { IfOk result (IsNamed self.now.items) }
        ensures ranged { IfOk result (λ v. variable_range self.now.items v.0 ≡ range_of declared part) }
    {
        let _made = self.counts.variables;
        match (declared, part) {
            (Decl::Variable { id, .. }, Part::Whole) => Ok(id),
            (Decl::Beacon { first, .. }, Part::X) => Ok(first),
            (Decl::Beacon { first, .. }, Part::Y) => Ok(VarId(first.0 + 1)),
            _ => Err(Stop::Because(Cause::WrongKind)),
        }
    }

    /// The place of the beacon that a name stands for.
    pub fn beacon(&self, declared: Decl) -> Result<u32, Stop>
        requires { IsKnown self.now.items declared }
        ensures value { Gives (λ place. place) result (beacon_in declared) }
        ensures known { IfOk result (λ place. place < beacons_in self.now.items) }
    {
        match declared {
            Decl::Beacon { place, .. } => Ok(place),
            _ => Err(Stop::Because(Cause::WrongKind)),
        }
    }

    // ---- ticks

    /// A tick of the clock.
    pub fn tick(&self, n: i64) -> Result<u32, Stop>
        ensures value { Gives (λ tick. tick) result (tick_of self.now.ticks n) }
        ensures within { IfOk result (λ tick. tick ≤ self.now.ticks) }
    {
        tick_of(self.ticks, n)
    }

    /// A time or a delay with this range has few ticks enough.
    pub fn ensure_narrow(&self, range: Interval) -> Result<(), Stop>
        ensures value { Gives (λ _. tt) result (unless (is_narrow self.now.ticks range) Cause.Wide) }
        ensures narrow { OnOk result (is_narrow self.now.ticks range ≡ true) }
    {
        ensure(is_narrow(self.ticks, range), Cause::Wide)
    }

    /// How many cells an evaluation of a signal reads, at a time with this range.
    pub fn evaluation(
        &mut self,
        alloc: Global,
        x: SignalId,
        range: Interval,
    ) -> Result<u32, NoMemory>
        requires { x.0 < signals_in self.old.items }
        ensures kept { self.new ≡ self.old }
        ensures value { IfOk result (λ foot. foot ≡ evaluated self.old.cuts self.old.items x.0 range) }
        ensures small { IfOk result (λ foot. foot ≤ 500000) }
    {
        let is_rated = self.is_rated(x);
        let slices = self.clock.touching(alloc, range)?;
        let each = 2 * slices + 1;
        if is_rated {
            return Ok(2 + 2 * each);
        }
        Ok(2 + each)
    }

    /// How many cells an evaluation of a signal reads, at the ticks from `first` to `last`.
    pub fn evaluation_during(
        &mut self,
        alloc: Global,
        x: SignalId,
        first: u32,
        last: u32,
    ) -> Result<u32, NoMemory>
        requires signal { x.0 < signals_in self.old.items }
        requires order { first ≤ last }
        ensures kept { self.new ≡ self.old }
        ensures value { IfOk result (λ foot. foot ≡ evaluated self.old.cuts self.old.items x.0 (ticks_from first last)) }
        ensures small { IfOk result (λ foot. foot ≤ 500000) }
    {
        self.evaluation(alloc, x, ticks_from(first, last))
    }

    // ---- room

    /// Whether so many signals and variables fit.
    pub fn are_few(&self, signals: u32, variables: u32) -> bool
        ensures { result ≡ are_few self.now.cuts signals variables }
    {
        let each = 2 * u64::from(self.slices()) + 1;
        let cells = u64::from(signals) * each + u64::from(variables);
        signals <= MOST_SIGNALS as u32 && variables <= MOST_VARIABLES && cells <= MOST_CELLS as u64
    }

    /// The counts with one record more, where it fits.
    #[tactic(auto, unfolding(crate::specs::Room::room_for))]
    pub fn room_for(&self, item: &Item, foot: u32) -> Result<Counts, Stop>
        requires foot { foot ≡ foot_of self.now.cuts self.now.items item.now }
        requires small { foot ≤ 100000000 }
        ensures value { Gives (λ _. tt) result (room_for self.now item.now) }
        ensures counts { IfOk result (λ counts. AreCounts counts self.now.cuts (self.now.items ++ item.now ∷ [])) }
    {
        let signals = self.counts.signals + item.signals_made();
        let variables = self.counts.variables + item.variables_made();
        let feet = self.counts.feet + foot;
        ensure(self.are_few(signals, variables), Cause::Cells)?;
        ensure(feet <= MOST_READS, Cause::Foot)?;
        ensure(self.items.len() < MOST_RECORDS, Cause::Records)?;
        Ok(Counts {
            signals,
            variables,
            beacons: self.counts.beacons + item.beacons_made(),
            revisits: self.counts.revisits + revisits_made(item),
            feet,
        })
    }

    // ---- one record more

    /// Adds a record that declares no name, is no cut, and fits.
    pub fn push(&mut self, item: Item, counts: Counts) -> Result<(), NoMemory>
        requires right { IsRight self.old.version self.old.ticks self.old.items item }
        requires follows { MayFollow self.old item }
        requires nameless { names_of self.old.items item ≡ [] }
        requires uncut { with_cut self.old.cuts item ≡ self.old.cuts }
        requires room { room_for self.old item ≡ Ok tt }
        requires counts { AreCounts counts self.old.cuts (self.old.items ++ item ∷ []) }
        ensures { OnOk result (self.new ≡ with_item item self.old) }
    {
        self.items.reserve(1)?;
        self.has_head = self.has_head | item.is_head();
        self.is_open = self.is_open & may_precede_cut(&item);
        mark_rate(&mut self.rated, &item);
        self.items.push(item).unwrap();
        self.counts = counts;
        Ok(())
    }

    /// Adds a record that declares a name, which is declared by no record before, and fits.
    pub fn declare(
        &mut self,
        alloc: Global,
        name: &[u8],
        declared: Decl,
        item: Item,
        counts: Counts,
    ) -> Result<(), NoMemory>
        requires fresh { declaration_of name.now self.old.items ≡ None }
        requires named { names_of self.old.items item ≡ (name.now, declared) ∷ [] }
        requires right { IsRight self.old.version self.old.ticks self.old.items item }
        requires follows { MayFollow self.old item }
        requires uncut { with_cut self.old.cuts item ≡ self.old.cuts }
        requires room { room_for self.old item ≡ Ok tt }
        requires counts { AreCounts counts self.old.cuts (self.old.items ++ item ∷ []) }
        ensures { OnOk result (self.new ≡ with_item item self.old) }
    {
        self.items.reserve(1)?;
        self.names.declare(alloc, name, declared)?;
        self.has_head = self.has_head | item.is_head();
        self.is_open = self.is_open & may_precede_cut(&item);
        mark_rate(&mut self.rated, &item);
        self.items.push(item).unwrap();
        self.counts = counts;
        Ok(())
    }

    /// Adds a record that declares no name and is no cut, where it fits.
    pub fn add(&mut self, item: Item, foot: u32) -> Result<(), Stop>
        requires right { IsRight self.old.version self.old.ticks self.old.items item }
        requires follows { MayFollow self.old item }
        requires nameless { names_of self.old.items item ≡ [] }
        requires uncut { with_cut self.old.cuts item ≡ self.old.cuts }
        requires foot { foot ≡ foot_of self.old.cuts self.old.items item }
        requires small { foot ≤ 100000000 }
        ensures { Gives (λ _. self.new) result (added self.old item) }
    {
        let counts = self.room_for(&item, foot)?;
        self.push(item, counts)?;
        Ok(())
    }

    /// Adds a cut, which fits.
    pub fn push_cut(&mut self, tick: u32) -> Result<(), NoMemory>
        requires version { self.old.version ≡ 2 }
        requires headed { has_head self.old.items ≡ true }
        requires within { tick ≤ self.old.ticks }
        requires early { list_all may_precede_cut self.old.items ≡ true }
        requires room { room_for self.old (Item.Cut tick) ≡ Ok tt }
        ensures { OnOk result (self.new ≡ with_item (Item.Cut tick) self.old) }
    {
        self.items.reserve(1)?;
        self.clock.cut(tick);
        self.items.push(Item::Cut { tick }).unwrap();
        Ok(())
    }

    /// Starts the clock.
    pub fn start(
        &mut self,
        alloc: Global,
        version: u32,
        ticks: u32,
        width: u32,
    ) -> Result<(), NoMemory>
        requires headless { has_head self.old.items ≡ false }
        requires first_version { 1 ≤ version }
        requires last_version { version ≤ 2 }
        requires some_tick { 1 ≤ ticks }
        requires few_ticks { ticks ≤ most_ticks }
        requires some_width { 1 ≤ width }
        requires small_width { width ≤ most_ticks }
        ensures started { OnOk result (self.new ≡ started (version, ticks, width) self.old) }
        ensures clock { OnOk result (IsClock version ticks width (uniform_cuts ticks width) self.old.items) }
    {
        let clock = Clock::start(alloc, ticks, width)?;
        self.version = version;
        self.ticks = ticks;
        self.width = width;
        self.clock = clock;
        Ok(())
    }

    /// The mission.
    pub fn finish(self, alloc: Global) -> Result<Mission, NoMemory>
        requires { has_head self.items ≡ true }
        ensures value { IfOk result (λ mission. mission ≡ self) }
        ensures valid { IfOk result IsMission }
    {
        let Draft {
            version,
            ticks,
            width,
            clock,
            items,
            ..
        } = self;
        let cuts = clock.finish(alloc)?;
        Ok(Mission {
            version,
            ticks,
            width,
            cuts,
            items: Items::new(items),
        })
    }
}

fn no_rates() -> [bool; MOST_SIGNALS]
    ensures { (x : ℕ) → x < most_signals → slice_index_or result x false ≡ false }
{
    [false; MOST_SIGNALS]
}

#[tactic(auto, using(crate::proofs::Records::natural_most))]
fn is_narrow(end: u32, range: Interval) -> bool
    ensures { result ≡ is_narrow end range }
{
    let first = range.lo().max(0);
    let last = range.hi().min(i64::from(end));
    if last < first {
        return true;
    }
    last - first <= 2_000
}

fn may_precede_cut(item: &Item) -> bool
    ensures { result ≡ may_precede_cut item.now }
{
    matches!(item, Item::Head | Item::Note | Item::Cut { .. })
}

fn revisits_made(item: &Item) -> u32
    ensures { result ≡ (if is_revisit item.now then 1 else 0) }
{
    match item {
        Item::Revisit { .. } => 1,
        _ => 0,
    }
}

fn mark_rate(rated: &mut [bool; MOST_SIGNALS], item: &Item)
    ensures { (x : ℕ) → x < most_signals → slice_index_or rated.new x false ≡ (slice_index_or rated.old x false || is_some (rate_in (item.now ∷ []) x)) }
{
    if let Item::Deriv { x, .. } = item {
        let place = x.0 as usize;
        if place < MOST_SIGNALS {
            rated[place] = true;
        }
    }
}
