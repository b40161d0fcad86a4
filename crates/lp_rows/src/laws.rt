//! The laws of the lines, over all tables, kept pairs and points. Each function is a law: its contract is the
//! statement, and it does nothing.
ghost use Rattle.lp_rows.specs.Points.{PlansArePoints, PointsArePlans, PointsCostAsPlans, RowsAreCounted};

/// The pair part of each point of the lines is a mixed plan of its scale.
pub fn points_are_plans()
    ensures { PointsArePlans }
{}

/// Each mixed plan of the subproblem is the pair part of a point of the lines.
pub fn plans_are_points()
    ensures { PlansArePoints }
{}

/// A point costs what its pair part does.
pub fn points_cost_as_plans()
    ensures { PointsCostAsPlans }
{}

/// There are as many columns as kept pairs, ground arcs that stay, fleets and days of stations with a limit, and as many lines
/// as legs, nodes, fleets and such days.
pub fn rows_are_counted()
    ensures { RowsAreCounted }
{}
