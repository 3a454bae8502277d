//! The tests of cr_board, which see what it makes public.
#![tactic(auto)]

#[cfg(test)]
mod tests;
