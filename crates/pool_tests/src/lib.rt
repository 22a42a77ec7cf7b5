// Registers and pools on examples: each refusal beside what is next to it, and channels through the life of calls.
#![tactic(auto)]

#[cfg(test)]
mod channels;
#[cfg(test)]
mod registers;
