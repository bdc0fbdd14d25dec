// Tests of the batch reader over tables of texts, and of batch tables.
#![tactic(auto)]

#[cfg(test)]
mod more_texts;
#[cfg(test)]
mod table;
#[cfg(test)]
mod texts;
