//! The tests of cr_query, which see what it makes public.
#![tactic(auto)]

#[cfg(test)]
mod tests;
