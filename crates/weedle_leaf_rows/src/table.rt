//! The grammar's rows and the packrat table.

mod ends;
mod requests;
mod rules;
