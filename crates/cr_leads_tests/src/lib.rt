//! The tests of cr_leads, cr_reach and cr_false, which see what these make public.
#![tactic(auto)]

#[cfg(test)]
mod false_tests;
#[cfg(test)]
mod leads_tests;
#[cfg(test)]
mod reach_tests;
#[cfg(test)]
mod telling_tests;
