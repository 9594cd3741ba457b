//! Tests of storms.
#![tactic(auto)]

#[cfg(test)]
mod check;
#[cfg(test)]
mod gates;
#[cfg(test)]
mod storms;
