//! Tests of the top calls over files, of the lines of journals, and of the merge of logs.
#![tactic(auto)]

#[cfg(test)]
mod calls;
#[cfg(test)]
mod merging;
#[cfg(test)]
mod runs;
#[cfg(test)]
mod texts;
