// Tests of `text` and `frames`: every content as bytes and back, and each refusal of the writer beside the content next to it.
#![tactic(auto)]

#[cfg(test)]
mod contents;
#[cfg(test)]
mod refusals;
