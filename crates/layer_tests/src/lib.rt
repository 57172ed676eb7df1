//! Tests over public calls, in a module for each layer; what they share is memory that is taken away, and the example
//! device.
#![tactic(auto)]

#[cfg(test)]
mod client;
#[cfg(test)]
mod device;
#[cfg(test)]
mod ends;
#[cfg(test)]
mod engine;
#[cfg(test)]
mod example_device;
#[cfg(test)]
mod expect;
#[cfg(test)]
mod hoard;
#[cfg(test)]
mod link;
#[cfg(test)]
mod wire;
