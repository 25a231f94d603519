//! Laws of the grammar, each stated by a function with an empty body.

ghost use Rattle.std.specs.Prelude.{◌≡◌, ℕ, List};
ghost use Rattle.std.specs.List.{AllByRecursion};
ghost use Rattle.ff_script.specs.declared.script.Statement.{Statement};
ghost use Rattle.ff_script.specs.Grammar.{SpellsLine, IsSkipped};
ghost use Rattle.ff_script.specs.Scripts.{IsInOrder, IsScript, IsSyntaxFault, IsMisplaced};
ghost use Rattle.ff_script.specs.Printing.{statement_text, script_text, IsWritable};

/// A law: a line spells one statement at most, and none if it is skipped.
pub fn one_statement()
    ensures same { (line : List ℕ) (s t : Statement) → SpellsLine s line → SpellsLine t line → s ≡ t }
    ensures none { (line : List ℕ) (s : Statement) → IsSkipped line → ¬ SpellsLine s line }
{}

/// A law: bytes are one script at most.
pub fn one_script()
    ensures { (bytes : List ℕ) (ss ts : List Statement) → IsScript bytes ss → IsScript bytes ts → ss ≡ ts }
{}

/// A law: bytes have one fault at most, and none if they are a script.
pub fn one_fault()
    ensures syntax { (bytes : List ℕ) (m n : ℕ) → IsSyntaxFault bytes m → IsSyntaxFault bytes n → m ≡ n }
    ensures misplaced { (bytes : List ℕ) (m n : ℕ) → IsMisplaced bytes m → IsMisplaced bytes n → m ≡ n }
    ensures not_both { (bytes : List ℕ) (m n : ℕ) → IsMisplaced bytes m → ¬ IsSyntaxFault bytes n }
    ensures no_syntax { (bytes : List ℕ) (ss : List Statement) (n : ℕ) → IsScript bytes ss → ¬ IsSyntaxFault bytes n }
    ensures no_misplaced { (bytes : List ℕ) (ss : List Statement) (n : ℕ) → IsScript bytes ss → ¬ IsMisplaced bytes n }
{}

/// A law: a statement that a line spells can be written.
pub fn spelled_is_writable()
    ensures { (s : Statement) (line : List ℕ) → SpellsLine s line → IsWritable s }
{}

/// A law: a statement that can be written is spelled by its text, and the texts of such statements in order, each ended
/// by a line feed, are a script of them. So each is read again as it was, and two with one text are equal.
pub fn printed_is_read()
    ensures line { (s : Statement) → IsWritable s → SpellsLine s (statement_text s) }
    ensures script { (ss : List Statement) → AllByRecursion IsWritable ss → IsInOrder ss
        → IsScript (script_text ss) ss }
    ensures one_text { (s t : Statement) → IsWritable s → IsWritable t → statement_text s ≡ statement_text t → s ≡ t }
{}
