// The letters of a run in flight, as laws.
ghost use Rattle.cam_histories.specs.FlightLaws.{AllMayBeWritten, BytesAreSpellings, CutsAreFronts};
ghost use Rattle.cam_histories.specs.FlightLaws.{DeliveredStands};
ghost use Rattle.cam_histories.specs.FlightLaws.{EventSends, HaltsStand, HandedOutAreSent};
ghost use Rattle.cam_histories.specs.FlightLaws.{LoseStands, NewNetworkStands, PutStands};
ghost use Rattle.cam_histories.specs.FlightLaws.{SomePutStand, UnputMayBeWritten};

/// A network that has the letters of a run, but for those that are put next. It begins empty. What
/// a node hands out is what its event sent; with one more event exactly these letters are put next,
/// one by one, each as the bytes that spell it. It stays so where a letter is lost or delivered,
/// and where nodes halt or go on.
pub fn flights()
    ensures new { NewNetworkStands }
    ensures handed { HandedOutAreSent }
    ensures event { EventSends }
    ensures put { PutStands }
    ensures lost { LoseStands }
    ensures delivered { DeliveredStands }
    ensures halts { HaltsStand }
{}

/// A letter that is put next may be written, and has a spelling. Of each letter that can be
/// delivered the network has the bytes that spell it as it was sent, whole or cut.
pub fn spelled()
    ensures may { UnputMayBeWritten }
    ensures bytes { BytesAreSpellings }
    ensures cut { CutsAreFronts }
    ensures all { AllMayBeWritten }
    ensures some { SomePutStand }
{}
