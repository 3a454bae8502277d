//! The tests of cr_log, which see what it makes public.
#![tactic(auto)]

#[cfg(test)]
mod tests;
