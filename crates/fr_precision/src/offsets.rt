ghost use Rattle.fr_precision.specs.Offsets.{CorrectedEndLiesAmong, EndsDrawTogether, EndsStayTogether, OffsetTermsAreUncut, OwnValueIsDeviation, ThirdCheckSuffices};

/// The law of the limit: where the offset limit suffices for how far the action points lie apart, as it does
/// for the precision under the third check, no offset term is cut.
pub fn offsets_stay_in_limit()
    ensures uncut { OffsetTermsAreUncut }
    ensures check { ThirdCheckSuffices }
    ensures own { OwnValueIsDeviation }
{}

/// The law of offsets: the starts of two nodes' next double cycles, in ticks, lie half as far apart as those
/// of the senders, and some; so they stay within pi. Each lies among the ends of the senders.
pub fn starts_draw_together()
    ensures among { CorrectedEndLiesAmong }
    ensures together { EndsDrawTogether }
    ensures fixed { EndsStayTogether }
{}
