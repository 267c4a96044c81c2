//! A desk at which another caller of the shop is served between two calls; and tests of several callers over
//! one shop: of races and of connections that are served, and what they print, and of callers who change the same rows in turn.
#![tactic(auto)]

#[cfg(test)]
mod callers;
#[cfg(test)]
mod connections;
#[cfg(test)]
mod dialled;
#[cfg(test)]
mod held;
#[cfg(test)]
mod interrupted;
#[cfg(test)]
mod jobs;
#[cfg(test)]
mod loopback;
#[cfg(test)]
mod opened;
#[cfg(test)]
mod pages;
#[cfg(test)]
mod peers;
#[cfg(test)]
mod polled;
#[cfg(test)]
mod polled_links;
#[cfg(test)]
mod polled_loopback;
#[cfg(test)]
mod polled_runs;
#[cfg(test)]
mod polled_served;
#[cfg(test)]
mod polled_unserved;
#[cfg(test)]
mod polled_waits;
#[cfg(test)]
mod polling;
#[cfg(test)]
mod races;
#[cfg(test)]
mod runs;
#[cfg(test)]
mod served;
#[cfg(test)]
mod serving;
#[cfg(test)]
mod targets;
#[cfg(test)]
mod threads;
#[cfg(test)]
mod unserved;
