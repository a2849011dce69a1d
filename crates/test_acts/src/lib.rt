//! What the tests of acts show: of exchanges, downloads and visits, of a walk over sources, of offers that a device
//! takes or turns down, and of whole boots.
#![tactic(auto)]

#[cfg(test)]
mod agent;
#[cfg(test)]
mod answer;
#[cfg(test)]
mod ask;
#[cfg(test)]
mod exchange;
#[cfg(test)]
mod image;
#[cfg(test)]
mod offer;
#[cfg(test)]
mod visit;
#[cfg(test)]
mod walk;
