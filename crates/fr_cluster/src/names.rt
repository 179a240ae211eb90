/// The parameters of a cluster, spelt as in the standard and in a parameter file, in the order of the tables
/// of both versions of it. Those that begin with `x` are this program's own.
#[allow(non_camel_case_types)]
#[derive(Clone, Copy, Debug, PartialEq, Eq)]
pub enum ParamName {
    /// Macroticks per cycle.
    gMacroPerCycle,
    /// Microticks per cycle before correction.
    pMicroPerCycle,
    /// Static slots per cycle.
    gNumberOfStaticSlots,
    /// Macroticks per static slot.
    gdStaticSlot,
    /// Macroticks from the start of a static slot to its action point.
    gdActionPointOffset,
    /// Macroticks of the rest of the cycle after the static slots.
    gdNIT,
    /// Two-byte words of payload per static frame.
    gPayloadLengthStatic,
    /// The macrotick at which the offset correction starts.
    gOffsetCorrectionStart,
    /// Double cycles without correction until a node is passive.
    gMaxWithoutClockCorrectionPassive,
    /// Double cycles without correction until a node may halt.
    gMaxWithoutClockCorrectionFatal,
    /// Whether a node may halt, 0 or 1.
    pAllowHaltDueToClock,
    /// Good double cycles until a passive node is active; 0: never.
    pAllowPassiveToActive,
    /// Microticks by which the rate term is damped.
    pClusterDriftDamping,
    /// Limit of the offset term in microticks.
    pOffsetCorrectionOut,
    /// Limit of the rate term in microticks.
    pRateCorrectionOut,
    /// Microticks that are taken off each measured arrival, on both channels; where a file has one number
    /// for each channel, the greater.
    pDelayCompensation,
    /// Microticks that are taken off each arrival measured on channel A.
    pDelayCompensationA,
    /// Microticks that are taken off each arrival measured on channel B.
    pDelayCompensationB,
    /// Greatest distance of a microtick's length from nominal, in ticks.
    xRateBound,
    /// Greatest change of that length from one cycle to the next, in ticks.
    xChangeBound,
    /// Greatest distance of a delay from its channel's compensation, in ticks.
    xDelayError,
}
