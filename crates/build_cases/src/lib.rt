//! Worked cases of the builder: experiments of a few guests, disks and links, built of boxes of devices.
#![tactic(auto)]

#[cfg(test)]
mod benches;
