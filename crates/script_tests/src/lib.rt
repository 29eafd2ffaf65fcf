//! What no script file can show of a script's run: its summary, its limits, and readers and writers
//! that fail; what the prompt answers a program, and which pairs differ between two stores.
#![tactic(auto)]

#[cfg(test)]
mod changes;
#[cfg(test)]
mod failing;
#[cfg(test)]
mod json;
#[cfg(test)]
mod running;
