//! Tests of the libraries of geometry, by their public calls: numbers and sweeps, outlines, planes, heights and regions.
#![tactic(auto)]

pub mod fixtures;
#[cfg(test)]
mod geom;
#[cfg(test)]
mod open;
#[cfg(test)]
mod outline;
#[cfg(test)]
mod raster;
