//! Tests of `cam_words` and `cam_script` (by the parser), `cam_gen`, `cam_args`, `cam_body` and `cam_report` through their public calls,
//! a module for each; `letters` and `traces` make runs for the tests of the texts.
#![tactic(auto)]

#[cfg(test)]
mod args;
#[cfg(test)]
mod body;
#[cfg(test)]
mod check;
#[cfg(test)]
mod generator;
#[cfg(test)]
mod letters;
#[cfg(test)]
mod report;
#[cfg(test)]
mod script;
#[cfg(test)]
mod texts;
#[cfg(test)]
mod traces;
