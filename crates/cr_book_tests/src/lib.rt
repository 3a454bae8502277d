//! The tests of cr_book, which see what it makes public.
#![tactic(auto)]

#[cfg(test)]
mod tests;
