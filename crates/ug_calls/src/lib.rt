//! Tests of what only calls show: makers that refuse, stores call by call, threads that take turns, and wires that wait or are
//! full; and so that a call which may want memory does its work where there is memory.
#![tactic(auto)]

#[cfg(test)]
mod adj_out;
#[cfg(test)]
mod chain;
#[cfg(test)]
mod lists;
#[cfg(test)]
mod maps;
#[cfg(test)]
mod pool;
#[cfg(test)]
mod turnstile;
#[cfg(test)]
mod wires;
