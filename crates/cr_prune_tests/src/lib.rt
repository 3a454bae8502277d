//! The tests of cr_prune, which see what it makes public.
#![tactic(auto)]

#[cfg(test)]
mod tests;
