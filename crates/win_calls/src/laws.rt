//! Laws of the table for compounds.

ghost use Rattle.std.specs.Prelude.{◌≡◌, ℕ, List, IfSome};
ghost use Rattle.script_tree.specs.Tree.{Tree};
ghost use Rattle.script_tree.specs.Pieces.{Piece, State, Going, Becomes};
ghost use Rattle.script_tree.specs.Steps.{statement};
ghost use Rattle.script_tree.specs.Values.{value_of, edge_of, call_of};
ghost use Rattle.script_tree.specs.declared.operand.Operand.{Operand};
ghost use Rattle.script_tree.specs.declared.statement.Creation.{Creation};
ghost use Rattle.script_tree.specs.declared.statement.CompoundStatement.{CompoundStatement};
ghost use Rattle.script_tree.specs.declared.statement.CallStatement.{CallStatement};
ghost use Rattle.script_tree.specs.declared.statement.Statement.TheVariants.{Create, Destroy, Compound, Default, Call as CallOf};
ghost use Rattle.script_tree.specs.declared.variables.Variables.{Variables};
ghost use Rattle.win_calls.specs.declared.compound.Got.{Got};
ghost use Rattle.win_calls.specs.declared.compound.Next.{Next};
ghost use Rattle.win_calls.specs.declared.compound.Compound.TheVariants.{Create as Creates, Destroy as Destroys, Default as Defaults};
ghost use Rattle.win_calls.specs.declared.stage.Stage.{Stage};
ghost use Rattle.win_calls.specs.Table.{begun, made, compound_of, Handed, Comes};
ghost use Rattle.win_calls.specs.States.{StandsAlone, StandsFor, Accepts};

/// A compound begins with the pieces that the table has for its statement. A loop of messages is none of these compounds.
pub fn begins_as_its_statement()
    ensures create { (c : Creation) (v : Variables) (n : ℕ) → statement (Create c) v n ≡ Becomes (begun (Creates c.class c.title (value_of c.parent v) (value_of c.style v) (value_of c.extended_style v) (edge_of c.left v) (edge_of c.top v) (edge_of c.right v) (edge_of c.bottom v))) (Going v) }
    ensures destroy { (w : Operand) (v : Variables) (n : ℕ) → statement (Destroy w) v n ≡ Becomes (begun (Destroys (value_of w v))) (Going v) }
    ensures compound { (c : CompoundStatement) (v : Variables) (n : ℕ) → IfSome (compound_of c v) (λ d. statement (Compound c) v n ≡ Becomes (begun d) (Going v)) }
    ensures default { (v : Variables) (n : ℕ) → statement Default v n ≡ Becomes (begun (Defaults v.parameters.hwnd v.parameters.number v.parameters.wparam v.parameters.lparam)) (Going v) }
{}

/// The statement of a call begins with the pieces of that call alone, and its call is neither a `leave` nor the end of
/// a thread.
pub fn calls_as_its_statement()
    ensures begins { (ask : CallStatement) (v : Variables) (n : ℕ) → statement (CallOf ask) v n ≡ Becomes (made (call_of ask v)) (Going v) }
    ensures alone { (ask : CallStatement) (v : Variables) → StandsAlone (call_of ask v) }
{}

/// From its pieces and its state the table comes to one call, procedure or end, and is then at one place.
pub fn one_next()
    ensures next { (s : Tree) (n : ℕ) (ps qs rs : List Piece) (st sq sr : State) (x y : Next) → Comes s n ps st x qs sq → Comes s n ps st y rs sr → x ≡ y }
    ensures place { (s : Tree) (n : ℕ) (ps qs rs : List Piece) (st sq sr : State) (x y : Next) → Comes s n ps st x qs sq → Comes s n ps st y rs sr → (qs ≡ rs) × (sq ≡ sr) }
{}

/// Whatever a state accepts can be handed in at the pieces that it stands for.
pub fn can_be_handed()
    ensures { (s : Tree) (n : ℕ) (stage : Stage) (ps : List Piece) (st : State) (g : Got) → StandsFor stage ps st → Accepts stage g → (qs : List Piece) × (sq : State) × Handed s n ps st g qs sq }
{}
