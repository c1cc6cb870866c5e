//! Tests of `casebook_page`, over public items alone. What is wanted is written by hand, from the
//! design of the page and its mocks.
#![tactic(auto)]

#[cfg(test)]
mod edges;
#[cfg(test)]
mod given;
#[cfg(test)]
mod hostile;
#[cfg(test)]
mod limits;
#[cfg(test)]
mod market;
#[cfg(test)]
mod policy;
#[cfg(test)]
mod reading;
#[cfg(test)]
mod seen;
#[cfg(test)]
mod unknown;
