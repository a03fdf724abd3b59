//! Laws of the lines. Each is a function that does nothing; its contract is the law.

ghost use Rattle.std.specs.Prelude.{◌≡◌, ◌++◌, codes, decimal};
ghost use Rattle.serde_json.specs.Data.{string};
ghost use Rattle.serde_json.specs.Written.{compact_text};
ghost use Rattle.user_model.specs.declared.entry.Entry.{Entry};
ghost use Rattle.script_tree.specs.Tree.{Tree};
ghost use Rattle.script_lines.specs.Known.{known_of};
ghost use Rattle.script_lines.specs.NameLimits.{AreKnown};
ghost use Rattle.log_text.specs.Entries.{call_text, answer_text};
ghost use Rattle.log_json.specs.Objects.{line, entry_object};
ghost use Rattle.log_json.specs.Texts.{AreTexts};

/// The line of an entry, byte for byte.
pub fn entry_line()
    ensures { (s : Tree) (e : Entry) → line (entry_object s e) ≡ codes "{\"answer\":" ++ (compact_text (string (answer_text s e.answer)) ++ (codes ",\"call\":" ++ (compact_text (string (call_text s e.call)) ++ (codes ",\"who\":" ++ (decimal e.who.0 ++ codes "}\n"))))) }
{}

/// Names within the limits of a script are texts: they have lower-case letters, digits and `_` alone.
pub fn names_are_texts()
    ensures { (s : Tree) → AreKnown (known_of s) → AreTexts s }
{}
