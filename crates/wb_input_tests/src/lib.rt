//! Tests of the crates below by their public calls: one file a subject. There is nothing else here, so that the crates
//! themselves are proved once.
#![tactic(auto)]

#[cfg(test)]
mod access;
#[cfg(test)]
mod cases;
#[cfg(test)]
mod custody;
#[cfg(test)]
mod heads;
#[cfg(test)]
mod lists;
#[cfg(test)]
mod outside;
#[cfg(test)]
mod terms;
#[cfg(test)]
mod ticket_locks;
#[cfg(test)]
mod trails;
