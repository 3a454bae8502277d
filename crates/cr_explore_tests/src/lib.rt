//! The tests of cr_explore, which see what it makes public.
#![tactic(auto)]

#[cfg(test)]
mod ahead_tests;
#[cfg(test)]
mod tests;
#[cfg(test)]
mod unkept_tests;
