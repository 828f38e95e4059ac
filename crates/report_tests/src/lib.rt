//! The report on pattern texts, byte for byte.
#![tactic(auto)]

#[cfg(test)]
mod bytes;
#[cfg(test)]
mod expect;
#[cfg(test)]
mod parts;
#[cfg(test)]
mod sides;
#[cfg(test)]
mod sizes;
#[cfg(test)]
mod tetrahedra;
#[cfg(test)]
mod walls;
