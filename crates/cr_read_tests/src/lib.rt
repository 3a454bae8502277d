//! The tests of cr_read, which see what it makes public.
#![tactic(auto)]

#[cfg(test)]
mod tests;
