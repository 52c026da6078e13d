//! Tests of gates, connections, workers and the call that serves, by their public calls. There is nothing else here, so that the crates
//! themselves are proved once.
#![tactic(auto)]

#[cfg(test)]
mod broken_links;
#[cfg(test)]
mod connecting;
#[cfg(test)]
mod connections;
#[cfg(test)]
mod gates;
#[cfg(test)]
mod hosts;
#[cfg(test)]
mod listeners;
#[cfg(test)]
mod new_hosts;
#[cfg(test)]
mod served;
#[cfg(test)]
mod setup_text;
#[cfg(test)]
mod side_by_side;
#[cfg(test)]
mod tickets;
