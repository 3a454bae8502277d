//! The tests of cr_audit, which see what it makes public.
#![tactic(auto)]

#[cfg(test)]
mod tests;
