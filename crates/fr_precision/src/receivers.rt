ghost use Rattle.fr_precision.specs.Receivers.{ReceiversComeNear, ReceiversDrawNear};

/// The law of two receivers with free numbers: where the offset limit suffices for how far each of them lies from
/// every sender, and each has a value of every sender, neither cuts a term, and their next starts and lengths, in
/// ticks, lie half as far apart as those of the senders, and some. The receivers need not send themselves.
pub fn receivers_come_near()
    ensures draw { ReceiversDrawNear }
    ensures near { ReceiversComeNear }
{}
