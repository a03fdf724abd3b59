//! Scripts: their one text, reading and writing.
//!
//! The form of a script is this project's own. A script has one text. Each line ends with one line
//! feed, and its words are separated by one blank:
//!
//! ```text
//! user 1
//! screen W H
//! budget N
//! order T*
//! proc echo
//! if msg = WM_USER
//! return wp
//! end
//! end
//! thread
//! register box echo 0
//! create box first 0 0 0 0 0 1 1
//! send r WM_USER 5 0
//! end
//! ```
//!
//! The screen is W by H pixels, 1 to 128 and 1 to 64; N, the most entries of a thread in the history, is
//! 1 to 65,536; the order list has at most 65,536 numbers of 1 to 15. Then come at most 64 procedures,
//! each a line `proc NAME`, its statements, and a line `end`; their names are different. Then come 1 to 15
//! threads, each a line `thread`, its statements, and a line `end`. The statements are
//!
//! ```text
//! let V A                          let V A OP B             OP is + - & |
//! if A CMP B .. else .. end        while A CMP B .. end     CMP is = != <; `else` may be left out
//! return A                         default                  in procedures only
//! create CLASS TITLE PARENT STYLE EX L T R B
//! destroy W                        sleep MS
//! ```
//!
//! and those that make one call: the word of the call, and an operand or a name for each of its fields,
//! but for `dispatch` and `translate`, each a word alone. `call_table` has the words and the fields,
//! `statement_table` says which calls have a statement, and the README of the repository tables them.
//!
//! V is a letter of a to h. An operand (A, B and the operands of calls) is a decimal number from 0 to
//! 18446744073709551615 without leading zeros, or `-` and such a number from 1 to 9223372036854775808,
//! or the name of a message or a constant (`name_table`), or a variable: a to h, r, err, ghwnd, gmsg,
//! gwp, glp, gtime, hwnd, msg, wp, lp. CLASS, TITLE, NAME and PROC are names: a lower-case letter and at
//! most 31 of a to z, 0 to 9 and `_`. At most 1,024 names of classes, titles and messages are different.
//! PROC is the name of a procedure whose `proc` line stands above. Blocks nest at most 32 deep in a body.
//! A text has at most 1,048,576 bytes.
#![tactic(auto)]

mod builder;
mod fault;
mod first_line;
mod flatten;
mod head;
mod judge;
mod laws;
mod limits;
mod parser;
mod reader;
mod reading;
mod writer;

pub use fault::{ReadFault, Reason, Refusal};
pub use laws::{limits_of_the_tree, texts_are_whole};
pub use limits::SCRIPT_LIMIT;
pub use reader::{one_tree, read};
pub use script_tree::{
    Body, CallStatement, Comparison, CompoundStatement, Creation, Letter, Name, Operand, Operator,
    Procedure, Script, Statement, Test, Variable,
};
pub use writer::write;
