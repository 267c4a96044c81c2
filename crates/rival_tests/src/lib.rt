//! A book at which a second caller changes a cart or a cost, or buys an item, before the first one's settles;
//! and tests of what the first one is then told, and its gateway asked, of the lists that it keeps, of settles
//! with writes that cancel, of two callers who buy as newcomers, and of a purchase at one rate for all countries.
#![tactic(auto)]

#[cfg(test)]
mod additions;
#[cfg(test)]
mod cancelling;
#[cfg(test)]
mod deeds;
#[cfg(test)]
mod flat;
#[cfg(test)]
mod listing;
#[cfg(test)]
mod newcomers;
#[cfg(test)]
mod opened;
#[cfg(test)]
mod rivalled;
#[cfg(test)]
mod selling;
#[cfg(test)]
mod sessions;
#[cfg(test)]
mod tests;
#[cfg(test)]
mod told;
