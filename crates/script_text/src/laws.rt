//! Laws of scripts. Each is a function that does nothing; its contract is the law.

ghost use Rattle.std.specs.Prelude.{◌≡◌, ◌↔◌, true};
ghost use Rattle.script_tree.specs.Tree.{Tree};
ghost use Rattle.script_text.specs.Grammar.{IsWhole};
ghost use Rattle.script_text.specs.Limits.{IsScript};
ghost use Rattle.script_text.specs.Lines.{script_lines};
ghost use Rattle.script_text.specs.Nesting.{nests};
ghost use Rattle.script_text.specs.Spelling.{spelling};
ghost use Rattle.script_text.specs.TreeLimits.{IsNested, IsNamedInOrder};

/// What the limits of a script say of its tree: blocks are at most 32 deep, and `return` and `default`
/// stand in procedures alone, and the lines of a tree nest exactly where this is so; the names of classes,
/// titles and messages are numbered as they first appear in its lines; a procedure names, in its own body,
/// those up to itself, and a thread those that there are.
pub fn limits_of_the_tree()
    ensures nested { (s : Tree) → IsScript s → IsNested s }
    ensures exactly { (s : Tree) → nests (script_lines s) ≡ true ↔ IsNested s }
    ensures named { (s : Tree) → IsScript s → IsNamedInOrder s }
{}

/// The text of each script is a whole text of the grammar by which the first bad line of a text is told.
pub fn texts_are_whole()
    ensures { (s : Tree) → IsScript s → IsWhole (spelling s) }
{}
