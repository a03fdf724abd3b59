//! A law of the table for loops of messages.

ghost use Rattle.std.specs.Prelude.{◌≡◌, ℕ};
ghost use Rattle.script_tree.specs.Pieces.{Going, Becomes};
ghost use Rattle.script_tree.specs.Steps.{statement};
ghost use Rattle.script_tree.specs.Values.{value_of};
ghost use Rattle.script_tree.specs.declared.operand.Operand.{Operand};
ghost use Rattle.script_tree.specs.declared.statement.CompoundStatement.TheVariants.{Pump, Dialog};
ghost use Rattle.script_tree.specs.declared.statement.Statement.TheVariants.{Compound};
ghost use Rattle.script_tree.specs.declared.variables.Variables.{Variables};
ghost use Rattle.modal_loop.specs.Loops.{pump_pieces, dialog_pieces};

/// A loop begins with the pieces that the table has for its statement.
pub fn loops_begin_as_their_statements()
    ensures pump { (v : Variables) (n : ℕ) → statement (Compound Pump) v n ≡ Becomes pump_pieces (Going v) }
    ensures dialog { (w : Operand) (v : Variables) (n : ℕ) → statement (Compound (Dialog w)) v n ≡ Becomes (dialog_pieces (value_of w v)) (Going v) }
{}
