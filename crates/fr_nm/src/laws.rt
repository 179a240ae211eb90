ghost use Rattle.std.specs.Prelude.{◌≡◌, IsPermutation, List, ℕ};
ghost use Rattle.fr_text.specs.Kind.{HasOneAnswer, HasSomeAnswer};
ghost use Rattle.fr_text.specs.Least.{GivesLeast};
ghost use Rattle.fr_nm.specs.Files.{vectors_file};
ghost use Rattle.fr_nm.specs.Holding.{vectors_holds};
ghost use Rattle.fr_nm.specs.Laws.{IsAgain};
ghost use Rattle.fr_nm.specs.Reasons.{vectors_reason_after};
ghost use Rattle.fr_nm.specs.Text.{nm_text};
ghost use Rattle.fr_nm.specs.Vectors.{Recorded};
ghost use Rattle.fr_nm.specs.View.{VectorsStandFor, VectorsView};

/// The answer to a file is determined by its bytes and the width: two that are not want of memory are the same. So a
/// file stands for one `Vectors` at most, has one first refused record at most, and is not both accepted and refused.
pub fn one_answer()
    ensures { (width : ℕ) → HasOneAnswer (vectors_file width) }
{}

/// Each file has an answer that is not want of memory: it is accepted, or a record of it is refused.
pub fn some_answer()
    ensures { (width : ℕ) → HasSomeAnswer (vectors_file width) }
{}

/// A record is refused for the least reason that holds of it, and only where one holds.
pub fn refused_for_the_least_reason()
    ensures { GivesLeast vectors_reason_after vectors_holds }
{}

/// A law: vectors that stand for records stand for them in any order; and vectors of one width that stand for the
/// records in different orders have the same text.
pub fn order_changes_nothing()
    ensures stands { (v : VectorsView) (records others : List Recorded) → IsPermutation records others →
        VectorsStandFor v records → VectorsStandFor v others }
    ensures text { (v w : VectorsView) (records others : List Recorded) → IsPermutation records others →
        v.width ≡ w.width → VectorsStandFor v records → VectorsStandFor w others → nm_text v ≡ nm_text w }
{}

/// A law: a record that is there already changes no vector; where it counts, its cycle and the whole have one frame
/// more.
pub fn repeating_changes_no_vector()
    ensures { (width : ℕ) (before : List Recorded) (r : Recorded) (after : List Recorded) →
        IsAgain width before r after }
{}
