//! What a script says, and what its threads do: the tree of a script, the values of operands, and the
//! traces of a thread's program.
#![tactic(auto)]

mod answers;
mod compound;
mod frame;
mod laws;
pub mod messages;
mod modal;
mod notifying;
mod operand;
mod script;
mod statement;
mod values;
mod variables;

pub use answers::result_of;
pub use frame::{Begin, Broadcast, Dialog, Lead, Modal, Notice, Notices, Place, Run, Spread};
pub use laws::{
    calls_come_in_turn, calls_fit_the_stack, ends_once, one_next_call, rows_are_the_table,
    traces_agree,
};
pub use operand::{Comparison, Letter, Operand, Operator, Test, Variable};
pub use script::{Body, Name, Procedure, Script};
pub use statement::{CallStatement, CompoundStatement, Creation, Statement};
pub use variables::{Letters, Parameters, Variables};
