//! The toggle list and the check of sides, on small examples.
#![tactic(auto)]

#[cfg(test)]
mod numbers;
#[cfg(test)]
mod triangles;
