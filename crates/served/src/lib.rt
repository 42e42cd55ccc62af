// The volumes as a service that is replicated: calls and answers are bytes, what volumes hold lies in blocks of eight sectors.
#![tactic(auto)]

ghost use Rattle.served.specs.Room.{RoomBounds};
ghost use Rattle.served.specs.Served.{IsLawful, NeverBusy, RepliesFit};
ghost use Rattle.served.specs.OnePlace.{AsOnePlace, AsTheMeaning, SeenAsTheMeaning};

// What is promised of them: what the theorems on copies ask of a service; that each reply is told as it is, and has a spelling; that no
// more sectors hold anything than there is room for; and that calls are answered as in one place, and as the meaning allows.
pub fn volumes_are_served()
    ensures lawful { IsLawful }
    ensures never_busy { NeverBusy }
    ensures replies { RepliesFit }
    ensures bounded { RoomBounds }
    ensures one_place { AsOnePlace }
    ensures meaning { AsTheMeaning }
    ensures seen { SeenAsTheMeaning }
{}
