//! The tests of cr_path, which see what it makes public.
#![tactic(auto)]

#[cfg(test)]
mod table;
#[cfg(test)]
mod walk;
