// Examples of whole runs, and of a list of calls, in a crate of their own so that no other crate is proved twice for them.
#![tactic(auto)]

#[cfg(test)]
mod calls;
#[cfg(test)]
mod piles;
#[cfg(test)]
mod refusables;
#[cfg(test)]
mod runs;
#[cfg(test)]
mod sequences;
