//! The law of `whatif`: its contract is the statement, and it does nothing.
ghost use Rattle.cert_check.specs.OtherSizes.{OwnNumberIsChecked};

/// Asked by a fleet's own number of aircraft, a tree that holds has the bound with which it holds.
pub fn own_number_is_checked()
    ensures { OwnNumberIsChecked }
{}
