#![tactic(auto)]

// Examples worked by hand; in a crate of their own, since a crate with tests is proved twice.
#[cfg(test)]
mod drives;
#[cfg(test)]
mod layered;
#[cfg(test)]
mod legs;
#[cfg(test)]
mod lines;
#[cfg(test)]
mod memory;
#[cfg(test)]
mod parameters;
#[cfg(test)]
mod replies;
#[cfg(test)]
mod spoken;
#[cfg(test)]
mod switches;
