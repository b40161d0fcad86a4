ghost use Rattle.std.specs.Prelude.{◌≡◌};
ghost use Rattle.cert_check.specs.Rules.{rule_number};

/// What is asked of a node of a tree, in the order in which it is judged.
#[derive(Clone, Copy)]
pub enum Rule {
    /// The scale of prices is 1 or more and within its limit.
    Scale,
    /// Rents and charges are 0 or more; rents, prices and charges are within their limits; where any number of aircraft may
    /// stand at a station overnight, nothing is charged.
    Limits,
    /// No price rises from one minute to the next, but by a charge at the end of a day.
    Fall,
    /// Over the end of the period no price rises by more than the rent and the charge of the last day.
    Rent,
    /// A bare leg keeps no pair, at a sole assignment each leg keeps one, and where there are prices each keeps some.
    Pairs,
    /// By the prices of a refuted leaf, with no costs put in, it is worth more than 0.
    Refuted,
    /// At a priced leaf there is a plan, and the rounded worth reaches its cost.
    Priced,
    /// A trim or a split names a kept pair; a child of a trim ends at once; a split's leg keeps other pairs too.
    Parts,
    /// A fractional assignment is one of the subproblem.
    Mixed,
    /// A fractional assignment is not whole and costs what the prices are worth; a split's flies the pair in part.
    Fraction,
}

/// All rules, in their order.
pub(crate) const RULES: [Rule; 10] = [
    Rule::Scale,
    Rule::Limits,
    Rule::Fall,
    Rule::Rent,
    Rule::Pairs,
    Rule::Refuted,
    Rule::Priced,
    Rule::Parts,
    Rule::Mixed,
    Rule::Fraction,
];

impl Rule {
    /// The number of the rule, from 1.
    pub fn number(self) -> u8
        ensures { result ≡ rule_number self }
    {
        match self {
            Rule::Scale => 1,
            Rule::Limits => 2,
            Rule::Fall => 3,
            Rule::Rent => 4,
            Rule::Pairs => 5,
            Rule::Refuted => 6,
            Rule::Priced => 7,
            Rule::Parts => 8,
            Rule::Mixed => 9,
            Rule::Fraction => 10,
        }
    }
}
