//! Tests of a host and of kept rows by their public calls. There is nothing else here, so that the crates themselves are proved once.
#![tactic(auto)]

#[cfg(test)]
mod formats;
#[cfg(test)]
mod hosts;
#[cfg(test)]
mod row_texts;
#[cfg(test)]
mod texts;
#[cfg(test)]
mod turns;
