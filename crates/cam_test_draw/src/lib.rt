//! Tests of pictures: whole texts of `camscope draw`, behind their style sheets.
#![tactic(auto)]

#[cfg(test)]
mod halted;
#[cfg(test)]
mod lost;
#[cfg(test)]
mod pictures;
#[cfg(test)]
mod stopped;
