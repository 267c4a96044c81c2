//! Tests of single libraries. They stand here since a crate that has tests is proved twice.
#![tactic(auto)]

#[cfg(test)]
mod gateway_lines;
#[cfg(test)]
mod gateways;
#[cfg(test)]
mod kept_lists;
#[cfg(test)]
mod line_cases;
#[cfg(test)]
mod messages;
#[cfg(test)]
mod polled_lanes;
#[cfg(test)]
mod rankings;
#[cfg(test)]
mod searches;
#[cfg(test)]
mod served_links;
#[cfg(test)]
mod stocks;
#[cfg(test)]
mod texts;
#[cfg(test)]
mod windows;
