//! Rings as operations and laws, with the lemmas on them that the definitions of rings in ring_theory cite: equations,
//! lists of coefficients, polynomials, rows modulo a polynomial, congruence, fractions and classes. No code.
#![tactic(auto)]
