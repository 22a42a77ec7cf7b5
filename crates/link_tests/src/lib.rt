// The links on examples: full memory at every place of the wrap, the longest frames, unfit memory, lost and doubled sends, a link from outside.
#![tactic(auto)]

#[cfg(test)]
mod faulty;
#[cfg(test)]
mod memory;
#[cfg(test)]
mod outside;
#[cfg(test)]
mod steps;
