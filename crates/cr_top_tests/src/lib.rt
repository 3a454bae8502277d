//! The tests of cr_top, which see what it makes public.
#![tactic(auto)]

#[cfg(test)]
mod alone_tests;
#[cfg(test)]
mod audit_tests;
#[cfg(test)]
mod checkpoints;
#[cfg(test)]
mod desk_tests;
#[cfg(test)]
mod fault_tests;
#[cfg(test)]
mod notes_tests;
#[cfg(test)]
mod shard_tests;
#[cfg(test)]
mod stop_tests;
#[cfg(test)]
mod test_calls;
#[cfg(test)]
mod tests;
#[cfg(test)]
mod trail_tests;
#[cfg(test)]
mod worker_tests;
