//! Tests of command lines, exports, notices and stores of etcd by their public calls. There is nothing else here, so that the crates
//! themselves are proved once.
#![tactic(auto)]

#[cfg(test)]
mod command_lines;
#[cfg(test)]
mod etcd_stores;
#[cfg(test)]
mod exports;
#[cfg(test)]
mod notices;
