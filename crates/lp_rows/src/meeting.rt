//! Which columns a line may have numbers in.
ghost use Rattle.std.specs.Prelude.{◌≡◌, ◌^◌, ◌<◌, All, IsTrue, length, map, IfOk};
ghost use Rattle.lp_rows.specs.Meeting.{HasPair, IsMet, line_meets, meets_at, touched_by};
ghost use Rattle.lp_rows.specs.Staying.{passing_below};
ghost use Rattle.lp_rows.specs.declared.kinds.Line.TheVariants.{Cover};
ghost use Rattle.lp_rows.specs.declared.meeting.Touched.{Touched};

use crate::arcs::push_where;
use crate::kinds::{Column, Line};
use entries::{Entries, NoMemory};
use fleet_model::Tables;
use std::alloc::Global;

/// What a column touches: a leg, a fleet, and the stations from which and to which it leads. Where it touches none of a kind, this is
/// the number behind the last one.
#[derive(Clone, Copy)]
pub(crate) struct Touched {
    pub leg: u32,
    pub fleet: u32,
    pub from: u32,
    pub to: u32,
}

/// What each column touches.
pub(crate) fn all_touched(
    alloc: Global,
    tables: &Tables,
    columns: &[Column],
) -> Result<Vec<Touched>, NoMemory>
    requires { All (HasPair tables.now) columns.now }
    ensures { IfOk result (λ touched. touched.items ≡ map (touched_by tables.now) columns.now) }
{
    let mut touched = Vec::new(alloc);
    for column in columns {
        touched.push(touched_by(tables, *column))?;
    }
    Ok(touched)
}

fn touched_by(tables: &Tables, column: Column) -> Touched
    requires { HasPair tables.now column }
    ensures { result ≡ touched_by tables.now column }
{
    match column {
        Column::Flight(pair) => {
            let flown = tables.leg(pair.leg);
            Touched {
                leg: pair.leg,
                fleet: tables.fleet_by(pair),
                from: flown.from,
                to: flown.to,
            }
        }
        Column::Ground(arc) => Touched {
            leg: tables.leg_count(),
            fleet: arc.fleet,
            from: arc.station,
            to: arc.station,
        },
        Column::Slack { fleet } => Touched {
            leg: tables.leg_count(),
            fleet,
            from: tables.station_count(),
            to: tables.station_count(),
        },
        Column::Room(park) => Touched {
            leg: tables.leg_count(),
            fleet: tables.fleet_count(),
            from: park.station,
            to: park.station,
        },
    }
}

/// The columns that a line meets, by number, rising: in all others it has no number.
#[derive(Drop)]
pub(crate) struct Met {
    pub line: Line,
    pub columns: Entries<u32>,
}

impl Met {
    pub(crate) fn of(alloc: Global, line: Line, touched: &[Touched]) -> Result<Met, NoMemory>
        requires { length touched.now < 2 ^ 32 }
        ensures line { IfOk result (λ met. met.line ≡ line) }
        ensures columns { IfOk result (IsMet touched.now) }
    {
        let columns = columns_met(alloc, line, touched)?;
        Ok(Met {
            line,
            columns: Entries::from_vec(columns),
        })
    }

    /// Those that another line meets: mostly the same, as lines stand by fleet and station.
    pub(crate) fn turned_to(
        self,
        alloc: Global,
        line: Line,
        touched: &[Touched],
    ) -> Result<Met, NoMemory>
        requires few { length touched.now < 2 ^ 32 }
        requires met { IsMet touched.now self }
        ensures line { IfOk result (λ met. met.line ≡ line) }
        ensures columns { IfOk result (IsMet touched.now) }
    {
        if meet_alike(self.line, line) {
            return Ok(Met {
                line,
                columns: self.columns,
            });
        }
        Met::of(alloc, line, touched)
    }
}

fn columns_met(alloc: Global, line: Line, touched: &[Touched]) -> Result<Vec<u32>, NoMemory>
    requires { length touched.now < 2 ^ 32 }
    ensures { IfOk result (λ columns. columns.items ≡ passing_below (meets_at touched.now line) (length touched.now)) }
{
    match line {
        Line::Cover { leg } => columns_of_leg(alloc, leg, touched),
        Line::Balance(_) | Line::Count { .. } | Line::Parking(_) => {
            columns_passing(alloc, line, touched)
        }
    }
}

// There is a cover line for each leg, so its pass over all columns is to be short.
#[tactic(auto, using(crate::proofs::PassingNumbers::no_number, crate::proofs::PassingNumbers::one_number_more))]
fn columns_of_leg(alloc: Global, leg: u32, touched: &[Touched]) -> Result<Vec<u32>, NoMemory>
    requires { length touched.now < 2 ^ 32 }
    ensures { IfOk result (λ columns. columns.items ≡ passing_below (meets_at touched.now (Cover leg)) (length touched.now)) }
{
    let mut columns = Vec::new(alloc);
    for column in 0..touched.len() as u32 {
        push_where(&mut columns, column, leg == touched[column as usize].leg)?;
    }
    Ok(columns)
}

#[tactic(auto, using(crate::proofs::PassingNumbers::no_number, crate::proofs::PassingNumbers::one_number_more))]
fn columns_passing(alloc: Global, line: Line, touched: &[Touched]) -> Result<Vec<u32>, NoMemory>
    requires { length touched.now < 2 ^ 32 }
    ensures { IfOk result (λ columns. columns.items ≡ passing_below (meets_at touched.now line) (length touched.now)) }
{
    let mut columns = Vec::new(alloc);
    for column in 0..touched.len() as u32 {
        push_where(&mut columns, column, meets(line, touched[column as usize]))?;
    }
    Ok(columns)
}

/// Whether a line may have a number in a column, by what that one touches.
#[inline(always)]
fn meets(line: Line, touched: Touched) -> bool
    ensures { result ≡ line_meets line touched }
{
    match line {
        Line::Cover { leg } => leg == touched.leg,
        Line::Balance(node) => {
            node.fleet == touched.fleet
                && (touched.from == node.station || touched.to == node.station)
        }
        Line::Count { fleet } => fleet == touched.fleet,
        Line::Parking(park) => park.station == touched.from || park.station == touched.to,
    }
}

// Whether two lines meet the same columns for sure.
fn meet_alike(line: Line, other: Line) -> bool
    ensures { IsTrue result → (touched : Touched) → line_meets line touched ≡ line_meets other touched }
{
    match (line, other) {
        (Line::Balance(node), Line::Balance(second)) => {
            node.fleet == second.fleet && node.station == second.station
        }
        (Line::Parking(park), Line::Parking(second)) => park.station == second.station,
        _ => false,
    }
}
