//! The attributes, a module each.

pub mod aggregator;
pub mod as_path;
pub mod atomic_aggregate;
pub mod cluster_list;
pub mod communities;
pub mod local_pref;
pub mod mp_reach_nlri;
pub mod mp_unreach_nlri;
pub mod multi_exit_disc;
pub mod next_hop;
pub mod origin;
pub mod originator_id;
