ghost use Rattle.fr_runs.specs.Terms.{OffsetsAreTerms, RatesAreTerms};

/// The law of terms: the offset that a clock of a run applies and the rate that it takes on, whoever joins, are the
/// values of an offset and a rate term of its values (sections 8.6.2 to 8.6.4), in microticks.
pub fn clocks_apply_terms()
    ensures offset { OffsetsAreTerms }
    ensures rate { RatesAreTerms }
{}
