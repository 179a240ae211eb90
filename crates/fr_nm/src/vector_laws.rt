ghost use Rattle.std.specs.Prelude.{◌≡◌, ◌<◌, ◌^◌, ◌↔◌, ℕ, List, All, None, Some};
ghost use Rattle.fr_nm.specs.Vectors.{Counts, HasVector, Recorded, placed, vector_in};

/// A law: a record that counts has the first bytes of its payload, as many as a vector has, in twelve places with zeros
/// behind them, and no other record has a vector.
pub fn a_record_that_counts_has_its_vector()
    ensures counts { (width : ℕ) (r : Recorded) → (c : Counts width r) →
        vector_in width r ≡ Some (placed width c.payload) }
    ensures has { (width : ℕ) (r : Recorded) (vector : List ℕ) → All (λ b. b < 2 ^ 8) r.bytes →
        vector_in width r ≡ Some vector → HasVector width r vector }
    ensures none { (width : ℕ) (r : Recorded) → All (λ b. b < 2 ^ 8) r.bytes →
        (vector_in width r ≡ None) ↔ (Counts width r → ⊥) }
{}
