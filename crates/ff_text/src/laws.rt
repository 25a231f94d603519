//! Laws of spellings: functions that do nothing, whose contracts hold.

ghost use Rattle.std.specs.Prelude.{◌≡◌, ℕ, ◌<◌, ◌^◌, Bool, List, length, All};
ghost use Rattle.ff_text.specs.declared.terms.Term.{Term};
ghost use Rattle.ff_text.specs.declared.terms.ElemText.{ElemText};
ghost use Rattle.ff_text.specs.declared.fault.TextFault.{TextFault};
ghost use Rattle.ff_text.specs.declared.fault.TextFault.TheVariants.{Memory};
ghost use Rattle.ff_text.specs.Reading.{IsLongestSpelling, IsReadFault};
ghost use Rattle.ff_text.specs.Spelling.{SpellsNumber, SpellsTerms, SpellsElement};
ghost use Rattle.ff_text.specs.Values.{HasSmallExponents};
ghost use Rattle.ff_text.specs.Printing.{terms_text, element_text, IsWritableTerms, IsWritableElement};

/// Bytes spell one number at most.
pub fn one_number()
    ensures { (m n : ℕ) (bytes : List ℕ) → SpellsNumber m bytes → SpellsNumber n bytes → m ≡ n }
{}

/// Bytes spell one polynomial at most.
pub fn one_polynomial()
    ensures { (with_y : Bool) (p q : List Term) (bytes : List ℕ)
        → SpellsTerms with_y p bytes → SpellsTerms with_y q bytes → p ≡ q }
{}

/// Bytes spell one element at most.
pub fn one_element()
    ensures { (d e : ElemText) (bytes : List ℕ) → SpellsElement d bytes → SpellsElement e bytes → d ≡ e }
{}

/// A polynomial is spelled by the text that is printed of it, if no list in it is empty, its numbers have at most nine
/// digits, and y stands only where it may.
pub fn terms_are_written()
    ensures { (with_y : Bool) (p : List Term) → IsWritableTerms with_y p → SpellsTerms with_y p (terms_text p) }
{}

/// An element is spelled by the text that is printed of it, under the same conditions.
pub fn element_is_written()
    ensures { (e : ElemText) → IsWritableElement e → SpellsElement e (element_text e) }
{}

/// A polynomial that is printed is read again: the whole text, with the same value, or memory runs out.
pub fn terms_are_read_again()
    ensures value { (with_y : Bool) (p q : List Term) (end : ℕ) → IsWritableTerms with_y p
        → IsLongestSpelling (SpellsTerms with_y) (terms_text p) 0 q end → (q ≡ p) × (end ≡ length (terms_text p)) }
    ensures memory { (with_y : Bool) (p : List Term) (e : TextFault) → IsWritableTerms with_y p
        → IsReadFault (SpellsTerms with_y) (terms_text p) 0 e → e ≡ Memory }
{}

/// An element that is printed is read again: the whole text, with the same value, or memory runs out.
pub fn element_is_read_again()
    ensures value { (d e : ElemText) (end : ℕ) → IsWritableElement d
        → IsLongestSpelling SpellsElement (element_text d) 0 e end → (e ≡ d) × (end ≡ length (element_text d)) }
    ensures memory { (d : ElemText) (e : TextFault) → IsWritableElement d
        → IsReadFault SpellsElement (element_text d) 0 e → e ≡ Memory }
{}

/// A polynomial that is spelled in fewer than 2^34 bytes has small exponents, so that `collect` may be called.
pub fn exponents_are_small()
    ensures { (with_y : Bool) (p : List Term) (bytes : List ℕ)
        → SpellsTerms with_y p bytes → length bytes < 2 ^ 34 → All HasSmallExponents p }
{}
