//! The tests of cr_shard, which see what it makes public.
#![tactic(auto)]

#[cfg(test)]
mod tests;
