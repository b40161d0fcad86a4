//! Sums, counts and maxima over the numbers below a bound, with their laws.
#![tactic(auto)]
