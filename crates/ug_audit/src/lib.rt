//! The command `audit`: the files that a run read and left are read, each once, and each of its sessions is judged beside what
//! the events say that the peer should have. The answer is a certificate, or the first breach.
#![tactic(auto)]

mod answers;
mod asked;
mod auditing;
mod certificate;
mod ending;
mod events;
mod hearing;
mod last;
mod laws;
mod listener;
mod picking;
mod reader;
mod report;
mod run;
mod session;
mod settings;
mod stop;
mod told;
mod verdict;

pub use auditing::audit;
