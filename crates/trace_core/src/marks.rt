//! Marks of literals, and the scan of one hinted clause.

ghost use Rattle.std.specs.Prelude.{◌≡◌, ℕ, List, [], ◌∷◌, ◌++◌, false, length};
ghost use Rattle.sat_base.specs.Lit.{opposite};
ghost use Rattle.trace_core.specs.Marking.{holds, HasRoom, IsFound, CoveredBy};
ghost use Rattle.trace_core.specs.declared.marks.Mark.{Mark};

use sat_base::Lit;

/// The mark of a literal. One byte, and the one look-up that the scan of a hint needs for each
/// literal.
#[derive(Clone, Copy, Debug)]
pub(crate) enum Mark {
    /// It doesn't hold.
    Free,
    /// It holds: it is the negation of a literal of the clause, or a hint added it.
    Held,
    /// It holds as the negation of a literal of the clause that no hinted clause has shown yet.
    Uncovered,
}

/// Which literals of a clause aren't false: none, exactly this one, or two and more.
#[derive(Clone, Copy, Debug)]
pub(crate) enum Found {
    Nothing,
    One(Lit),
    More,
}

// What was found, with one more literal that isn't false.
fn with(found: Found, lit: Lit) -> Found
    ensures { (marks : List Mark) (clause : List ℕ) → IsFound marks clause found
        → holds marks (opposite lit) ≡ false → IsFound marks (clause ++ lit ∷ []) result }
{
    match found {
        Found::Nothing => Found::One(lit),
        Found::One(first) => {
            if first == lit {
                Found::One(first)
            } else {
                Found::More
            }
        }
        Found::More => Found::More,
    }
}

/// Looks at each literal of a hinted clause once: tells which aren't false, and marks those
/// literals of the derived clause that it shows.
pub(crate) fn scan(marks: &mut [Mark], hint: &[Lit]) -> Found
    requires { HasRoom (length marks.old) hint.now }
    ensures found { IsFound marks.old hint.now result }
    ensures holding { (lit : ℕ) → holds marks.new lit ≡ holds marks.old lit }
    ensures covered { CoveredBy marks.old hint.now marks.new }
{
    let mut found = Found::Nothing;
    for lit in hint {
        let code = lit.negated().code() as usize;
        match marks[code] {
            Mark::Free => found = with(found, *lit),
            Mark::Held => {}
            Mark::Uncovered => marks[code] = Mark::Held,
        }
    }
    found
}
