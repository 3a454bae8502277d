//! The tests of cr_desk and of cr_run, which see what these make public.
#![tactic(auto)]

#[cfg(test)]
mod alone_tests;
#[cfg(test)]
mod desk_tests;
#[cfg(test)]
mod hint_tests;
#[cfg(test)]
mod journals;
#[cfg(test)]
mod worker_tests;
