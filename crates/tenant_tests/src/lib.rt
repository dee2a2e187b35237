//! Nothing but tests of customers' frames: of `itag_frames`, `customer_learning` and `forwarding`.
#![tactic(auto)]

#[cfg(test)]
mod fixtures;
#[cfg(test)]
mod forwarded;
#[cfg(test)]
mod frames;
#[cfg(test)]
mod learned;
