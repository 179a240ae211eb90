ghost use Rattle.fr_history.specs.Worked.{ComesOf, after_12, deaf_after_9, deaf_run, joined_run, lost_join_run, no_skew, two_after};

/// A law: node 3, which listens to node 1 in double cycle 1, follows in cycles 4 to 7 and has a row from
/// cycle 8 on; all are together throughout.
pub fn a_joined_run()
    ensures { ComesOf joined_run after_12 no_skew 0 }
{}

/// A law: where one frame of its reference is lost while it listens, it never follows.
pub fn a_run_with_a_lost_reference()
    ensures { ComesOf lost_join_run (two_after 9) no_skew 0 }
{}

/// A law: where it hears nothing in the first double cycle in which it follows, it has no row thereafter, and
/// follows no longer.
pub fn a_run_with_a_deaf_follower()
    ensures { ComesOf deaf_run deaf_after_9 no_skew 0 }
{}
