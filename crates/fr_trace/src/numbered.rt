ghost use Rattle.fr_trace.specs.Numbered.{NumbersAreRecords, ReadsInOrder};

/// A law: the records of a file that is accepted as a trace say, in this order, its number of double cycles, each of
/// its arbitrary nodes, each of its nodes that join, and then what it records, each row before the deviations that its
/// node measured. So the record of a number, counted from 1 as the reader counts, is that of the item that has this
/// number.
pub fn records_in_order()
    ensures order { ReadsInOrder }
    ensures numbers { NumbersAreRecords }
{}
