//! The tests of cr_model, which see what it makes public.
#![tactic(auto)]

#[cfg(test)]
mod tests;
