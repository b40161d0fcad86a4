use fleet_model::Assignment;

/// A legal assignment, and what it costs, in cost units.
#[derive(Drop)]
pub struct LegalPlan {
    pub assignment: Assignment,
    pub cost: i128,
}
