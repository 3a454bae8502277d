//! The tests of cr_store, which see what it makes public.
#![tactic(auto)]

#[cfg(test)]
mod block_tests;
#[cfg(test)]
mod shape_tests;
#[cfg(test)]
mod tests;
