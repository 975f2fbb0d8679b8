//! Two threads, and then eight, with a seat each on one cache, for a bounded number of steps.
//!
//! What is proved of a share holds whatever the threads do; this test lets them do it. Each worker looks, puts and
//! purges at random, on four keys of two slots, by one clock. It remembers each floor that it made or was told, and
//! counts every hit that was set before the floor that it knew, and every answer that is another key's. When all are
//! done the cache comes back, and each slot's floor must be that of the latest purge.
//!
//! - `worker`: one thread's steps;
//! - `storm`: the tests.
#![tactic(auto)]

#[cfg(test)]
mod storm;
#[cfg(test)]
mod worker;
