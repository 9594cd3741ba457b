//! Tests of `cam_node` through its public calls: one node is driven by hand, line by line, and tells in words what each line comes to. After
//! the bar of a row stands what it has to come to, worked by hand from the rules of `docs/RULES.md`.
#![tactic(auto)]

#[cfg(test)]
mod arrivals;
#[cfg(test)]
mod calls;
#[cfg(test)]
mod driven;
#[cfg(test)]
mod families;
#[cfg(test)]
mod found;
#[cfg(test)]
mod inputs;
#[cfg(test)]
mod letters;
#[cfg(test)]
mod not_taken;
#[cfg(test)]
mod requests;
#[cfg(test)]
mod servers;
#[cfg(test)]
mod stops;
#[cfg(test)]
mod words;
