//! Tests of what `camscope` tells, through the public calls of `cam_teller` and `cam_scope_args`: a
//! module for each of the texts, and one for the words.
#![tactic(auto)]

#[cfg(test)]
mod check;
#[cfg(test)]
mod expected;
#[cfg(test)]
mod lines;
#[cfg(test)]
mod pictures;
#[cfg(test)]
mod scripts;
#[cfg(test)]
mod texts;
#[cfg(test)]
mod what_if;
#[cfg(test)]
mod words;
