//! Tests of the memo: that it says of texts what the packrat table says, and what it counts, by
//! hand from the grammar's rows.
#![tactic(auto)]

#[cfg(test)]
mod memos;
