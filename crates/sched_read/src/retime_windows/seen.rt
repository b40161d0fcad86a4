//! The windows that were read so far, as the next one is judged by them.
ghost use Rattle.std.specs.Prelude.{◌≡◌, ◌++◌, ◌<◌, ◌≤◌, [], ◌∷◌, IfOk, None, OnOk, bytes_eq, length, map};
ghost use Rattle.fleet_model.specs.declared.limits.TheConstants.{MAX_FLEETS, MAX_TRIPLES};
ghost use Rattle.sched_read.specs.retime_windows.Counted.{AreFleetCounts, AreWindowsCounted};
ghost use Rattle.sched_read.specs.retime_windows.Keys.{fleet_counts, fleets_on, key_with, triples_by, window_key, windows_on};
ghost use Rattle.sched_read.specs.retime_windows.Windows.{window_refusal};
ghost use Rattle.table_rows.specs.Names.{is_among};

use crate::retime_windows::window::{MAX_WINDOWS, MAX_WINDOWS_OF_LEG, Window};
use entries::NoMemory;
use fleet_model::Tables;
use fleet_model::limits::MAX_TRIPLES;
use fleet_model::refusals::{DUPLICATE, TOO_MANY, TOO_MANY_CHOICES, TOO_MANY_OF_FLIGHT};
use std::alloc::Global;

/// The windows that were read so far.
#[derive(Drop)]
pub(crate) struct Seen {
    /// Of each leg how many fleets have a cost on it.
    pub(crate) fleets: Vec<u32>,
    /// The windows, in the order in which they were read.
    pub(crate) windows: Vec<Window>,
    /// Of each leg how many windows it has.
    on_leg: Vec<u32>,
    /// By how many pairs legs may be flown.
    triples: u32,
    ghost fleets_known: { AreFleetCounts (length fleets.items) fleets.items },
    ghost counted: { AreWindowsCounted (map window_key windows.items) (length fleets.items) on_leg.items },
    ghost triples_are: { triples ≡ triples_by fleets.items (map window_key windows.items) },
    ghost few_triples: { triples ≤ MAX_TRIPLES },
}

impl Seen {
    /// None yet, beside these tables.
    pub(crate) fn none(alloc: Global, tables: &Tables) -> Result<Self, NoMemory>
        ensures fleets { IfOk result (λ seen. seen.fleets.items ≡ fleet_counts tables.now) }
        ensures none { IfOk result (λ seen. seen.windows.items ≡ []) }
    {
        let fleets = fleet_counts(alloc, tables)?;
        let triples = triples_of(&fleets);
        let on_leg = vec![in alloc; 0; fleets.len()]?;
        Ok(Seen {
            fleets,
            windows: Vec::new(alloc),
            on_leg,
            triples,
        })
    }

    /// What stands in the way of one window more, by its kind.
    #[tactic(auto, unfolding(crate::specs::retime_windows::Windows::window_refusal))]
    pub(crate) fn refusal(&self, leg: u32, minutes: i16) -> Option<u8>
        requires { leg < length self.now.fleets.items }
        ensures { result ≡ window_refusal self.now.fleets.items (map window_key self.now.windows.items) leg minutes }
    {
        if is_among(&self.windows, leg, minutes) {
            Some(DUPLICATE)
        } else if self.windows.len() >= MAX_WINDOWS {
            Some(TOO_MANY)
        } else if self.windows_on(leg) >= MAX_WINDOWS_OF_LEG {
            Some(TOO_MANY_OF_FLIGHT)
        } else if self.triples_with(leg, minutes) > MAX_TRIPLES {
            Some(TOO_MANY_CHOICES)
        } else {
            None
        }
    }

    /// Takes one window more, that nothing stands in the way of.
    pub(crate) fn add(&mut self, window: Window) -> Result<(), NoMemory>
        requires leg { window.leg < length self.old.fleets.items }
        requires free { window_refusal self.old.fleets.items (map window_key self.old.windows.items) window.leg window.minutes ≡ None }
        ensures added { OnOk result (self.new.windows.items ≡ self.old.windows.items ++ window ∷ []) }
        ensures fleets { self.new.fleets.items ≡ self.old.fleets.items }
    {
        self.windows.push(window)?;
        self.on_leg[window.leg as usize] += 1;
        self.triples += self.fleets[window.leg as usize];
        Ok(())
    }

    // How many windows a leg has.
    fn windows_on(&self, leg: u32) -> usize
        requires { leg < length self.now.fleets.items }
        ensures { result ≡ windows_on (map window_key self.now.windows.items) leg }
    {
        self.on_leg[leg as usize] as usize
    }

    // By how many pairs legs may be flown with one window more of a leg.
    fn triples_with(&self, leg: u32, minutes: i16) -> usize
        requires leg { leg < length self.now.fleets.items }
        ensures { result ≡ triples_by self.now.fleets.items (map window_key self.now.windows.items ++ key_with leg minutes ∷ []) }
    {
        (self.triples + self.fleets[leg as usize]) as usize
    }
}

// Whether a window of the leg with these minutes is there. They are few enough to look at each.
fn is_among(windows: &[Window], leg: u32, minutes: i16) -> bool
    ensures { result ≡ is_among (key_with leg minutes) (map window_key windows.now) }
{
    for window in windows {
        if is_of(window, leg, minutes) {
            return true;
        }
    }
    false
}

// Whether a window is of the leg and has these minutes.
fn is_of(window: &Window, leg: u32, minutes: i16) -> bool
    ensures { result ≡ bytes_eq (key_with leg minutes) (window_key window.now) }
{
    window.leg == leg && window.minutes == minutes
}

// Of each leg how many fleets have a cost on it.
fn fleet_counts(alloc: Global, tables: &Tables) -> Result<Vec<u32>, NoMemory>
    ensures { IfOk result (λ counts. counts.items ≡ fleet_counts tables.now) }
{
    let mut counts = Vec::new(alloc);
    for leg in 0..tables.leg_count() {
        counts.push(fleets_on(tables, leg))?;
    }
    Ok(counts)
}

// How many fleets have a cost on a leg.
fn fleets_on(tables: &Tables, leg: u32) -> u32
    ensures value { result ≡ fleets_on tables.now leg }
    ensures few { result ≤ MAX_FLEETS }
{
    let mut count = 0;
    for fleet in 0..tables.fleet_count() {
        if tables.fleet_cost(leg, fleet).is_some() {
            count += 1;
        }
    }
    count
}

// By how many pairs legs may be flown, each at its own time alone.
#[tactic(auto, unfolding(crate::specs::retime_windows::Keys::triples_by))]
fn triples_of(fleets: &[u32]) -> u32
    requires { triples_by fleets.now [] ≤ MAX_TRIPLES }
    ensures { result ≡ triples_by fleets.now [] }
{
    let mut triples = 0;
    for count in fleets {
        triples += *count;
    }
    triples
}
