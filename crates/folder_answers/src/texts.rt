//! What a run prints.
ghost use Rattle.std.specs.Prelude.{◌≡◌, ◌++◌, ◌<◌, [], ◌∷◌, IfOk, codes};
ghost use Rattle.std.specs.Fmt.{decimal, signed_decimal};
ghost use Rattle.folder_answers.specs.Texts.{bad_input_text, bound_text, broken_text, checked_text, fault_text, plan_refused_text, proof_refused_text, unknown_fleet_text, verdict_text, what_if_text};
ghost use Rattle.fleet_model.specs.Legal.{IsAssignment};
ghost use Rattle.fleet_model.specs.Schedule.{fleet_of, fleets_in, station_of, stations_in};
ghost use Rattle.plan_judge.specs.Verdicts.{IsVerdict};
ghost use Rattle.printed_lines.specs.Lines.{line_of};
ghost use Rattle.rotation_report.specs.TextLines.{fleet_lines};

use cert_check::{Checked, WhatIf};
use entries::NoMemory;
use fleet_model::{Assignment, Tables};
use plan_desk::DeskFile;
use plan_judge::Verdict;
use printed_lines::{Piece, line};
use rotation_report::text_lines::push_fleets;
use std::alloc::Global;

/// The line of a call whose words match no command.
pub const USAGE_LINE: &[u8] =
    b"usage: fleetplan judge|solve|check|make|tails|due|whatif DIR [options]\n";

/// `bad input: FILE record N kind K`.
pub fn bad_input(alloc: Global, file: DeskFile, row: u64, kind: u8) -> Result<Vec<u8>, NoMemory>
    ensures { IfOk result (λ text. text.items ≡ bad_input_text file row kind) }
{
    line(
        alloc,
        &[
            Piece::Text(b"bad input: "),
            Piece::Text(file.name().as_bytes()),
            Piece::Text(b" record "),
            Piece::Count(row),
            Piece::Text(b" kind "),
            Piece::Count(u64::from(kind)),
        ],
    )
}

/// `plan refused: record N kind K`.
pub fn plan_refused(alloc: Global, row: u64, kind: u8) -> Result<Vec<u8>, NoMemory>
    ensures { IfOk result (λ text. text.items ≡ plan_refused_text row kind) }
{
    line(
        alloc,
        &[
            Piece::Text(b"plan refused: record "),
            Piece::Count(row),
            Piece::Text(b" kind "),
            Piece::Count(u64::from(kind)),
        ],
    )
}

/// `proof refused: line N kind K`.
pub fn proof_refused(alloc: Global, number: u64, kind: u8) -> Result<Vec<u8>, NoMemory>
    ensures { IfOk result (λ text. text.items ≡ proof_refused_text number kind) }
{
    line(
        alloc,
        &[
            Piece::Text(b"proof refused: line "),
            Piece::Count(number),
            Piece::Text(b" kind "),
            Piece::Count(u64::from(kind)),
        ],
    )
}

/// `fault: FILE`. It takes no memory.
pub fn fault_line(file: DeskFile) -> &'static [u8]
    ensures { result.now ≡ fault_text file }
{
    match file {
        DeskFile::Stations => b"fault: stations.csv\n",
        DeskFile::Fleets => b"fault: fleets.csv\n",
        DeskFile::Legs => b"fault: legs.csv\n",
        DeskFile::Costs => b"fault: costs.csv\n",
        DeskFile::Throughs => b"fault: throughs.csv\n",
        DeskFile::Windows => b"fault: windows.csv\n",
        DeskFile::Optional => b"fault: optional.csv\n",
        DeskFile::Tails => b"fault: tails.csv\n",
        DeskFile::Plan => b"fault: plan.csv\n",
        DeskFile::Proof => b"fault: proof.txt\n",
        DeskFile::Rotation => b"fault: rotation.csv\n",
    }
}

/// What is printed of a verdict on a plan.
pub fn verdict_lines(
    alloc: Global,
    tables: &Tables,
    plan: &Assignment,
    verdict: Verdict,
) -> Result<Vec<u8>, NoMemory>
    requires plan { IsAssignment tables.now plan.now }
    requires verdict { IsVerdict tables.now plan.now verdict }
    ensures { IfOk result (λ text. text.items ≡ verdict_text tables.now plan.now verdict) }
{
    match verdict {
        Verdict::NotAllowed { leg } => {
            let flight = tables.leg(leg).flight.as_slice();
            line(alloc, &[Piece::Text(b"not allowed: "), Piece::Text(flight)])
        }
        Verdict::Unbalanced {
            fleet,
            station,
            came,
            left,
        } => unbalanced(alloc, tables, fleet, station, came, left),
        Verdict::TooMany { fleet, used, has } => too_many(alloc, tables, fleet, used, has),
        Verdict::Crowded {
            station,
            day,
            parked,
            cap,
        } => crowded(alloc, tables, station, day, parked, cap),
        Verdict::Legal { cost } => legal(alloc, tables, plan, cost),
    }
}

/// `unbalanced: F at S, in A, out B`.
fn unbalanced(
    alloc: Global,
    tables: &Tables,
    fleet: u32,
    station: u32,
    came: u32,
    left: u32,
) -> Result<Vec<u8>, NoMemory>
    requires fleet { fleet < fleets_in tables.now }
    requires station { station < stations_in tables.now }
    ensures { IfOk result (λ text. text.items ≡ line_of (codes "unbalanced: " ∷ (fleet_of tables.now fleet).name ∷ codes " at "
        ∷ (station_of tables.now station).code ∷ codes ", in " ∷ decimal came ∷ codes ", out " ∷ decimal left ∷ [])) }
{
    line(
        alloc,
        &[
            Piece::Text(b"unbalanced: "),
            Piece::Text(tables.fleet(fleet).name.as_slice()),
            Piece::Text(b" at "),
            Piece::Text(tables.station(station).code.as_slice()),
            Piece::Text(b", in "),
            Piece::Count(u64::from(came)),
            Piece::Text(b", out "),
            Piece::Count(u64::from(left)),
        ],
    )
}

/// `crowded: S day D parked N of M`.
fn crowded(
    alloc: Global,
    tables: &Tables,
    station: u32,
    day: u32,
    parked: u32,
    cap: u32,
) -> Result<Vec<u8>, NoMemory>
    requires { station < stations_in tables.now }
    ensures { IfOk result (λ text. text.items ≡ line_of (codes "crowded: " ∷ (station_of tables.now station).code ∷ codes " day " ∷ decimal day
        ∷ codes " parked " ∷ decimal parked ∷ codes " of " ∷ decimal cap ∷ [])) }
{
    line(
        alloc,
        &[
            Piece::Text(b"crowded: "),
            Piece::Text(tables.station(station).code.as_slice()),
            Piece::Text(b" day "),
            Piece::Count(u64::from(day)),
            Piece::Text(b" parked "),
            Piece::Count(u64::from(parked)),
            Piece::Text(b" of "),
            Piece::Count(u64::from(cap)),
        ],
    )
}

/// `too many: F used N of M`.
fn too_many(
    alloc: Global,
    tables: &Tables,
    fleet: u32,
    used: u32,
    has: u32,
) -> Result<Vec<u8>, NoMemory>
    requires { fleet < fleets_in tables.now }
    ensures { IfOk result (λ text. text.items ≡ line_of (codes "too many: " ∷ (fleet_of tables.now fleet).name ∷ codes " used " ∷ decimal used
        ∷ codes " of " ∷ decimal has ∷ [])) }
{
    line(
        alloc,
        &[
            Piece::Text(b"too many: "),
            Piece::Text(tables.fleet(fleet).name.as_slice()),
            Piece::Text(b" used "),
            Piece::Count(u64::from(used)),
            Piece::Text(b" of "),
            Piece::Count(u64::from(has)),
        ],
    )
}

/// `legal: cost C`, and a line for each fleet.
fn legal(alloc: Global, tables: &Tables, plan: &Assignment, cost: i128) -> Result<Vec<u8>, NoMemory>
    requires { IsAssignment tables.now plan.now }
    ensures { IfOk result (λ text. text.items ≡ line_of (codes "legal: cost " ∷ signed_decimal cost ∷ []) ++ fleet_lines tables.now plan.now (fleets_in tables.now)) }
{
    let mut text = line(alloc, &[Piece::Text(b"legal: cost "), Piece::Number(cost)])?;
    push_fleets(alloc, &mut text, tables, plan)?;
    Ok(text)
}

/// What is printed of a tree, with the cost of the plan that comes with it, if any.
pub fn checked_line(
    alloc: Global,
    cost: Option<i128>,
    checked: Checked,
) -> Result<Vec<u8>, NoMemory>
    ensures { IfOk result (λ text. text.items ≡ checked_text cost checked) }
{
    match checked {
        Checked::Holds { bound: Some(bound) } => bound_line(alloc, cost, bound),
        Checked::Holds { bound: None } => line(alloc, &[Piece::Text(b"holds: infeasible")]),
        Checked::Broken { node, rule } => broken(alloc, node, rule),
    }
}

/// `holds: cost C bound B`, or `holds: bound B` without a plan.
fn bound_line(alloc: Global, cost: Option<i128>, bound: i128) -> Result<Vec<u8>, NoMemory>
    ensures { IfOk result (λ text. text.items ≡ bound_text cost bound) }
{
    match cost {
        Some(cost) => {
            line(
                alloc,
                &[
                    Piece::Text(b"holds: cost "),
                    Piece::Number(cost),
                    Piece::Text(b" bound "),
                    Piece::Number(bound),
                ],
            )
        }
        None => line(
            alloc,
            &[Piece::Text(b"holds: bound "), Piece::Number(bound)],
        ),
    }
}

/// `broken: node N rule R`.
pub fn broken(alloc: Global, node: u64, rule: u8) -> Result<Vec<u8>, NoMemory>
    ensures { IfOk result (λ text. text.items ≡ broken_text node rule) }
{
    line(
        alloc,
        &[
            Piece::Text(b"broken: node "),
            Piece::Count(node),
            Piece::Text(b" rule "),
            Piece::Count(u64::from(rule)),
        ],
    )
}

/// `unknown fleet: FLEET`.
pub fn unknown_fleet(alloc: Global, name: &str) -> Result<Vec<u8>, NoMemory>
    ensures { IfOk result (λ text. text.items ≡ unknown_fleet_text name.now) }
{
    line(
        alloc,
        &[
            Piece::Text(b"unknown fleet: "),
            Piece::Text(name.as_bytes()),
        ],
    )
}

/// What is printed of the tables with so many aircraft of a fleet.
pub fn what_if_line(
    alloc: Global,
    tables: &Tables,
    fleet: u32,
    count: u32,
    what: WhatIf,
) -> Result<Vec<u8>, NoMemory>
    requires { fleet < fleets_in tables.now }
    ensures { IfOk result (λ text. text.items ≡ what_if_text (fleet_of tables.now fleet).name count what) }
{
    let name = tables.fleet(fleet).name.as_slice();
    match what {
        WhatIf::Fallen { node } => fallen(alloc, node),
        WhatIf::NoPlan => none_there(alloc, name, count),
        WhatIf::Bound(bound) => bound_there(alloc, name, count, bound),
    }
}

/// `fallen: node N`.
fn fallen(alloc: Global, node: u64) -> Result<Vec<u8>, NoMemory>
    ensures { IfOk result (λ text. text.items ≡ line_of (codes "fallen: node " ∷ decimal node ∷ [])) }
{
    line(alloc, &[Piece::Text(b"fallen: node "), Piece::Count(node)])
}

/// `whatif FLEET COUNT: infeasible`.
fn none_there(alloc: Global, name: &[u8], count: u32) -> Result<Vec<u8>, NoMemory>
    ensures { IfOk result (λ text. text.items ≡ line_of (codes "whatif " ∷ name.now ∷ codes " " ∷ decimal count ∷ codes ": infeasible" ∷ [])) }
{
    line(
        alloc,
        &[
            Piece::Text(b"whatif "),
            Piece::Text(name),
            Piece::Text(b" "),
            Piece::Count(u64::from(count)),
            Piece::Text(b": infeasible"),
        ],
    )
}

/// `whatif FLEET COUNT: bound B`.
fn bound_there(alloc: Global, name: &[u8], count: u32, bound: i128) -> Result<Vec<u8>, NoMemory>
    ensures { IfOk result (λ text. text.items ≡ line_of (codes "whatif " ∷ name.now ∷ codes " " ∷ decimal count ∷ codes ": bound " ∷ signed_decimal bound ∷ [])) }
{
    line(
        alloc,
        &[
            Piece::Text(b"whatif "),
            Piece::Text(name),
            Piece::Text(b" "),
            Piece::Count(u64::from(count)),
            Piece::Text(b": bound "),
            Piece::Number(bound),
        ],
    )
}
