//! Tests of `jh_edn`, through its public calls alone: what no clause says.
//!
//! That is which texts are refused, at which line and with which message, the printed text of a normal form, which order the
//! definitions give, where turns and depth end, and that calls succeed, which no clause can say since memory may end.
//!
//! A test is a text of rows: a question, what it is given to, and the answer, which comes from the format's description
//! and not from the program. `rows` asks them, and asks once more where memory was refused, so each test passes, too,
//! where one allocation is.
//!
//! `plain` has the reader beside a plain slow one, at each text of the table and at random ones.

mod errors;
mod plain;
mod reading;
mod rows;
mod sequences;
mod table;
mod values;
